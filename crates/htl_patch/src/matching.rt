// The invocations of the host's mode that stand for those of the donor's.
ghost use Rattle.std.specs.Prelude.{◌≡◌, ◌<◌, length, IfOk};
ghost use Rattle.std.specs.Str.{bytes_eq};
ghost use Rattle.htl_patch.specs.Counterparts.{counterpart, all_counterparts};
ghost use Rattle.htl_patch.specs.Joining.{first};
ghost use Rattle.htl_patch.specs.Combined.{invokes_named as invokes_named_of, invs_named, task_name};

use crate::lists::{invs, tasks};
use crate::replacement::Replacement;
use htl_base::Name;
use htl_model::{Inv, Tables};
use std::alloc::{AllocError, Global};

// Whether a task has the name.
fn has_name(t: &Tables, task: usize, name: &Name) -> bool
    requires { task < length t.now.tasks }
    ensures { result ≡ bytes_eq (task_name t.now task) name.now }
{
    tasks(t)[task].name.as_bytes() == name.as_bytes()
}

// Whether an invocation is one of the mode, of a task of this name.
fn invokes_named(t: &Tables, mode: u16, name: &Name, x: &Inv) -> bool
    requires { x.now.task < length t.now.tasks }
    ensures { result ≡ invokes_named_of t.now mode name.now x.now }
{
    if x.mode == mode {
        has_name(t, x.task as usize, name)
    } else {
        false
    }
}

// The first invocation of a mode whose task has the name.
fn inv_named(t: &Tables, mode: u16, name: &Name) -> Option<u16>
    ensures { result ≡ first (invs_named t.now mode name.now) }
{
    let all = invs(t);
    for k in 0..all.len() {
        if invokes_named(t, mode, name, &all[k]) {
            return Some(k as u16);
        }
    }
    None
}

// The host's invocation that stands for one of the donor's.
fn find_counterpart(g: &Replacement<'_>, p: usize) -> Option<u16>
    requires { p < length g.now.donor.invs }
    ensures { result ≡ counterpart g.now p }
{
    let x = &invs(g.donor)[p];
    if x.mode != g.replacing_mode {
        return None;
    }
    inv_named(
        g.host,
        g.patched_mode,
        &tasks(g.donor)[x.task as usize].name,
    )
}

/// For each invocation of the donor the host's that stands for it. One pass over the host's invocations for each invocation of the
/// donor's mode, of which there are at most 128.
pub(crate) fn find_counterparts(
    alloc: Global,
    g: &Replacement<'_>,
) -> Result<Vec<Option<u16>>, AllocError>
    ensures { IfOk result (λ v. v.items ≡ all_counterparts g.now) }
{
    let count = invs(g.donor).len();
    let mut found = Vec::new(alloc);
    for p in 0..count {
        found.push(find_counterpart(g, p))?;
    }
    Ok(found)
}
