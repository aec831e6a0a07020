// The rules, the selections and the jobs of an abstract invocation and a refinement of two modes, of which the second has a child of it.
ghost use Rattle.std.specs.Prelude.{◌≡◌, true, OnOk};
ghost use Rattle.std.specs.List.{All};
ghost use Rattle.htl_model.specs.Broken.{KeptTo, KeepsLimits};
ghost use Rattle.htl_model.specs.Selected.{IsSelection};

use crate::asserts::same;
use crate::made::{made, made_of};
use htl_base::Seq;
use htl_form::{form, frames};
use htl_model::frame::Frame;
use htl_model::{FormFault, Tables};
use htl_refine::{
    Selection, begun_choice, derive, derive_begun, derive_path, is_selection, refine, selection_of,
};
use htl_samples::pieces::Text;
use htl_walk::Job;
use std::alloc::Global;

const REFINED: &str = "program P {
  module M start m {
    abstract task plan input () output () worst 4;
    mode m period 10 program Q { invoke plan input () output (); }
  }
}
program Q {
  module N start off {
    task fast input () output () worst 3;
    mode off period 10 { }
    mode on period 10 { invoke fast input () output () parent plan; }
  }
}";

fn judge(t: &Tables) -> Result<(), FormFault>
    ensures { OnOk result (KeptTo t.now 16) }
{
    form(t)?;
    refine(t)
}

// The number of the root selection, and the number of positions.
fn round(t: &Tables, s: &Selection, jobs: &mut [Job; 128]) -> Option<(u32, usize)>
    requires { KeepsLimits t.now }
{
    t.period()?;
    match judge(t) {
        Ok(()) => if is_selection(t, s) {
            Some((selection_of(t, s), derive(t, s, jobs)))
        } else {
            None
        },
        Err(_) => None,
    }
}

// Whether all are selections.
fn are_selections(t: &Tables, sels: &[Selection]) -> bool
    ensures { result ≡ true → All (λ s. IsSelection t.now s.modes) sels.now }
{
    for k in 0..sels.len() {
        if !is_selection(t, &sels[k]) {
            return false;
        }
    }
    true
}

// The number of positions of a path as far as its rounds have begun.
fn path(t: &Tables, sels: &[Selection], jobs: &mut [Job; 128]) -> Option<usize> {
    if let Err(_) = judge(t) {
        return None;
    }
    if let Err(_) = frames(t) {
        return None;
    }
    if sels.len() <= t.starts() && are_selections(t, sels) {
        Some(derive_path(t, sels, jobs))
    } else {
        None
    }
}

// The number of the choice at the frame's start, and the number of positions that begin there.
fn begun(t: &Tables, s: &Selection, jobs: &mut [Job; 128]) -> Option<(u32, usize)> {
    t.keeps_ranges();
    if let Err(_) = judge(t) {
        return None;
    }
    if let Err(_) = frames(t) {
        return None;
    }
    let frame = Frame::survey(t);
    if frame.count > 0 && is_selection(t, s) {
        let start = frame.starts[0];
        Some((
            begun_choice(t, s, start),
            derive_begun(t, s, start, jobs, 0),
        ))
    } else {
        None
    }
}

const NO_JOB: Job = Job {
    present: false,
    inv: 0,
    release: 0,
    end: 0,
    worst: 0,
    preds: 0,
};

// The job of the concrete invocation.
const FAST: Job = Job {
    present: true,
    inv: 1,
    release: 0,
    end: 10,
    worst: 3,
    preds: 0,
};

// The selection of the root's mode and of this mode of the child.
fn selection(alloc: Global, child: Option<u16>) -> Option<Selection> {
    let modes = vec![in alloc; Some(0), child].ok()?;
    Some(Selection {
        modes: Seq::new(modes),
    })
}

// What the rules say of a text.
fn verdict(alloc: Global, text: Text) -> Option<Result<(), FormFault>> {
    let t = made_of(alloc, text)?;
    Some(judge(&t))
}

#[test]
fn a_child_asks_for_no_more(rt: HostRuntime) {
    let fault = FormFault {
        rule: 16,
        module: 1,
        mode: 2,
        inv: Some(1),
        have: 5,
        need: 4,
    };
    let longer = Text::Edited(REFINED, &[("worst 3", "worst 5")]);
    same(&rt, verdict(rt.alloc(), longer), Some(Err(fault)));
    same(&rt, verdict(rt.alloc(), Text::Whole(REFINED)), Some(Ok(())));
}

// The selections of these modes of the child.
fn selections(alloc: Global, children: &[Option<u16>]) -> Option<Vec<Selection>> {
    let mut selections = Vec::new(alloc);
    for child in children {
        selections.push(selection(alloc, *child)?).ok()?;
    }
    Some(selections)
}

// What is derived.
#[derive(Clone, Copy)]
enum Of {
    // one round
    Round,
    // a path
    Path,
    // what begins at the first start
    Start,
}

// The number of a root selection or a choice, where there is one, and the number of positions.
fn derived_of(t: &Tables, of: Of, sels: &[Selection], jobs: &mut [Job; 128]) -> Option<(u32, usize)>
    requires { KeepsLimits t.now }
{
    match (of, sels) {
        (Of::Round, [s]) => round(t, s, jobs),
        (Of::Start, [s]) => begun(t, s, jobs),
        (Of::Path, _) => Some((0, path(t, sels, jobs)?)),
        _ => None,
    }
}

fn derived_in(
    alloc: Global,
    of: Of,
    sels: &[Selection],
    jobs: &mut [Job; 128],
) -> Option<(u32, usize)> {
    let t = made(alloc, REFINED)?;
    derived_of(&t, of, sels, jobs)
}

fn derived(
    alloc: Global,
    of: Of,
    children: &[Option<u16>],
    jobs: &mut [Job; 128],
) -> Option<(u32, usize)> {
    let selections = selections(alloc, children)?;
    derived_in(alloc, of, selections.as_slice(), jobs)
}

// What is derived, the child's mode in each round, the answer, and what stands in the first two places then.
const DERIVED: &[(Of, &[Option<u16>], Option<(u32, usize)>, [Job; 2])] = &[
    (Of::Round, &[Some(1)], Some((0, 1)), [NO_JOB, FAST]),
    (Of::Round, &[Some(2)], Some((0, 1)), [FAST, FAST]),
    (Of::Round, &[None], None, [FAST, FAST]),
    (Of::Path, &[], Some((0, 0)), [FAST, FAST]),
    (Of::Path, &[Some(1)], Some((0, 1)), [NO_JOB, FAST]),
    (Of::Path, &[Some(2)], Some((0, 1)), [FAST, FAST]),
    (Of::Path, &[None], None, [FAST, FAST]),
    (Of::Start, &[Some(1)], Some((0, 1)), [NO_JOB, FAST]),
    (Of::Start, &[Some(2)], Some((0, 1)), [FAST, FAST]),
];

#[test]
fn jobs_are_derived(rt: HostRuntime) {
    let mut jobs = [FAST; 128];
    for (of, children, wanted, front) in DERIVED {
        same(&rt, derived(rt.alloc(), *of, children, &mut jobs), *wanted);
        same(&rt, [jobs[0], jobs[1]], *front);
    }
}
