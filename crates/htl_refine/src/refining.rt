// The tests of the rules on refinement.
ghost use Rattle.std.specs.Prelude.{◌≡◌, ◌≤◌, ◌<◌, ℕ, Some, length, slice_get};
ghost use Rattle.std.specs.List.{list_any};
ghost use Rattle.htl_model.specs.Found.{unless};
ghost use Rattle.htl_refine.specs.Orders.{IsOrderOf};
ghost use Rattle.htl_refine.specs.Refining.{refines as refines_of, is_refined as is_refined_of, place_fault as place_fault_of, is_abstract_at, parent_fault as parent_fault_of, clashes as clashes_of, clash_before as clash_before_of, first_clash as first_clash_of, shared_fault as shared_fault_of, unless_more as unless_more_of, unless_less as unless_less_of, excess as excess_of, excess_fault as excess_fault_of, order_fault as order_fault_of};
ghost use Rattle.htl_model.specs.Selected.{is_at as is_at_of};

use crate::order::{Order, precedes, writer_parent};
use htl_model::lookup::{is_concrete, mode_module, parent_mode, task_worst};
use htl_model::window::{release, window_end};
use htl_model::{End, Inv, Module, Tables};

// Whether there is a number, and it is this one.
fn is_at(number: Option<u16>, n: u16) -> bool
    ensures { result ≡ is_at_of number n }
{
    match number {
        Some(x) => x == n,
        None => false,
    }
}

// ---- 13

fn refines(mode: u16, module: &Module) -> bool
    ensures { result ≡ refines_of mode «module».now }
{
    is_at(module.parent, mode)
}

// Whether some module refines the mode.
fn is_refined(t: &Tables, mode: u16) -> bool
    ensures { result ≡ is_refined_of t.now mode }
{
    t.parts()
        .modules
        .as_slice()
        .iter()
        .any(|module| refines(mode, module))
}

/// Rule 13 at an invocation.
pub fn place_fault(t: &Tables, inv: &Inv) -> Option<(u64, u64)>
    ensures { result ≡ place_fault_of t.now inv.now }
{
    if is_concrete(t, inv) || is_refined(t, inv.mode) {
        None
    } else {
        Some((0, 1))
    }
}

// ---- 14

// Whether an invocation is an abstract one of the mode.
fn is_abstract_in(t: &Tables, mode: u16, inv: u16) -> bool
    ensures { result ≡ is_abstract_at t.now mode (slice_get t.now.invs inv) }
{
    let invs = t.parts().invs.as_slice();
    if (inv as usize) < invs.len() {
        let i = &invs[inv as usize];
        !is_concrete(t, i) && i.mode == mode
    } else {
        false
    }
}

/// Rule 14 at an invocation.
pub fn parent_fault(t: &Tables, inv: &Inv) -> Option<(u64, u64)>
    ensures { result ≡ parent_fault_of t.now inv.now }
{
    match parent_mode(t, inv.mode) {
        Some(mode) => match inv.parent {
            Some(p) => if is_abstract_in(t, mode, p) {
                None
            } else {
                Some((2, 1))
            },
            None => Some((0, 1)),
        },
        None => match inv.parent {
            Some(_) => Some((2, 0)),
            None => None,
        },
    }
}

// ---- 15

// Whether an invocation has the parent, and stands in another module than `inv` or in the same mode.
fn clashes(t: &Tables, inv: &Inv, parent: u16, other: &Inv) -> bool
    ensures { result ≡ clashes_of t.now inv.now parent other.now }
{
    is_at(other.parent, parent)
        && (!(mode_module(t, other.mode) == mode_module(t, inv.mode)) || other.mode == inv.mode)
}

// The number of an invocation before number `k` that shares the parent wrongly.
fn clash_before(t: &Tables, k: u16, inv: &Inv, parent: u16, l: u16, other: &Inv) -> Option<u16>
    ensures { result ≡ clash_before_of t.now k inv.now parent l other.now }
{
    if l < k && clashes(t, inv, parent, other) {
        Some(l)
    } else {
        None
    }
}

// The first invocation before number `k` that shares the parent wrongly.
fn first_clash(t: &Tables, k: u16, inv: &Inv, parent: u16) -> Option<u16>
    ensures { result ≡ first_clash_of t.now k inv.now parent }
{
    let invs = t.parts().invs.as_slice();
    for l in 0..invs.len() {
        if let Some(found) = clash_before(t, k, inv, parent, l as u16, &invs[l]) {
            return Some(found);
        }
    }
    None
}

/// Rule 15 at an invocation.
pub fn shared_fault(t: &Tables, k: u16, inv: &Inv) -> Option<(u64, u64)>
    ensures { result ≡ shared_fault_of t.now k inv.now }
{
    match inv.parent {
        Some(p) => match first_clash(t, k, inv, p) {
            Some(l) => Some((l as u64, p as u64)),
            None => None,
        },
        None => None,
    }
}

// ---- 16

fn unless_more(have: u64, need: u64) -> Option<(u64, u64)>
    ensures { result ≡ unless_more_of have need }
{
    if need < have {
        Some((have, need))
    } else {
        None
    }
}

fn unless_less(have: u64, need: u64) -> Option<(u64, u64)>
    ensures { result ≡ unless_less_of have need }
{
    if have < need {
        Some((have, need))
    } else {
        None
    }
}

// What an invocation asks for beyond its parent.
fn excess(t: &Tables, inv: &Inv, parent: &Inv) -> Option<(u64, u64)>
    ensures { result ≡ excess_of t.now inv.now parent.now }
{
    if let Some(found) = unless_more(release(t, inv), release(t, parent)) {
        return Some(found);
    }
    if let Some(found) = unless_less(window_end(t, inv), window_end(t, parent)) {
        return Some(found);
    }
    let worst = task_worst(t, inv.task) as u64;
    let most = task_worst(t, parent.task) as u64;
    unless_more(worst, most)
}

/// Rule 16 at an invocation as a whole.
pub fn excess_fault(t: &Tables, inv: &Inv) -> Option<(u64, u64)>
    ensures { result ≡ excess_fault_of t.now inv.now }
{
    let invs = t.parts().invs.as_slice();
    match inv.parent {
        Some(p) => if (p as usize) < invs.len() {
            excess(t, inv, &invs[p as usize])
        } else {
            None
        },
        None => None,
    }
}

/// Rule 16 at an input.
pub fn order_fault(t: &Tables, order: &Order, inv: &Inv, end: End) -> Option<(u64, u64)>
    requires { IsOrderOf t.now order.now }
    ensures { result ≡ order_fault_of t.now inv.now end }
{
    let port = match end {
        End::Comm { .. } => return None,
        End::Port { port } => port,
    };
    let Some(a) = writer_parent(t, order, port) else {
        return None;
    };
    let Some(b) = inv.parent else {
        return None;
    };
    if precedes(t, order, a, b) {
        None
    } else {
        Some((a as u64, b as u64))
    }
}
