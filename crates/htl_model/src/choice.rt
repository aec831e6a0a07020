//! The concrete invocation that stands for another where the modules are in given modes.
ghost use Rattle.std.specs.Prelude.{◌≡◌, ◌≤◌, ◌<◌, ℕ, Option, None, Some, cond, length, get_or, IfSome};
ghost use Rattle.htl_base.specs.declared.limits.TheConstants as limit;
ghost use Rattle.htl_model.specs.Chosen.{is_child as is_child_of, child as child_of, chosen as chosen_of, AreChildren};
ghost use Rattle.htl_model.specs.Ranges.{AreInRange};
ghost use Rattle.htl_model.specs.Selected.{entry as entry_of, is_running as is_running_of};

use crate::lookup::{is_concrete, lists, mode_module};
use crate::{Inv, Tables};
use htl_base::limits::MAX_INVOCATIONS;

/// The mode in which a module is; None where it is inactive or there is no such module.
pub fn entry(modes: &[Option<u16>], module: u16) -> Option<u16>
    ensures { result ≡ entry_of modes.now «module» }
{
    if (module as usize) < modes.len() {
        modes[module as usize]
    } else {
        None
    }
}

/// Whether a mode's module is in it.
pub fn is_running(t: &Tables, modes: &[Option<u16>], mode: u16) -> bool
    ensures { result ≡ is_running_of t.now modes.now mode }
{
    match entry(modes, mode_module(t, mode)) {
        Some(m) => m == mode,
        None => false,
    }
}

// Notes an invocation, numbered n, as the child of its parent where its mode runs.
fn note_child(
    t: &Tables,
    modes: &[Option<u16>],
    children: &mut [Option<u16>; MAX_INVOCATIONS],
    n: u16,
    inv: &Inv,
)
    requires { IfSome inv.now.parent (λ p. p < limit.MAX_INVOCATIONS) }
    ensures { (k : ℕ) → get_or children.new k None ≡ cond (is_child_of t.now modes.now k inv.now) (Some n) (get_or children.old k None) }
{
    if let Some(parent) = inv.parent
        && is_running(t, modes, inv.mode)
    {
        children[parent as usize] = Some(n);
    }
}

/// The running child of each invocation: the first that has it as its parent and is in a mode that runs; None where there is none.
/// One pass over the invocations, which serves `chosen_by` for each of them.
pub fn running_children(t: &Tables, modes: &[Option<u16>]) -> [Option<u16>; MAX_INVOCATIONS]
    ensures { AreChildren t.now modes.now result }
{
    t.keeps_ranges();
    let mut children = [None; MAX_INVOCATIONS];
    let invs = lists(t).invs.as_slice();
    let mut n = invs.len();
    while n > 0 {
        n -= 1;
        note_child(t, modes, &mut children, n as u16, &invs[n]);
    }
    children
}

/// The concrete invocation that stands for an invocation, by the running children: itself, or the one that is reached from child to
/// child; None exactly where none is.
pub fn chosen_by(
    t: &Tables,
    modes: &[Option<u16>],
    children: &[Option<u16>],
    inv: u16,
) -> Option<u16>
    requires { AreChildren t.now modes.now children.now }
    ensures { result ≡ chosen_of t.now modes.now inv }
{
    t.keeps_ranges();
    let invs = lists(t).invs.as_slice();
    let mut at = inv;
    for _ in 0..lists(t).modules.as_slice().len() {
        if at as usize >= invs.len() {
            return None;
        }
        if is_concrete(t, &invs[at as usize]) {
            return Some(at);
        }
        match entry(children, at) {
            Some(child) => at = child,
            None => return None,
        }
    }
    None
}
