// The tests of the rules on periods.
ghost use Rattle.std.specs.Prelude.{◌≡◌, Some, eqb, slice_get, length};
ghost use Rattle.htl_model.specs.PeriodRules.{asked_period as asked_period_of, first_mode as first_mode_of};
ghost use Rattle.htl_form.specs.PeriodFaults.{unless_asked as unless_asked_of, module_period_fault as module_period_fault_of, divides_fault as divides_fault_of, end_divides_fault as end_divides_fault_of};

use htl_model::lookup::{comm_period, mode_period, parent_of};
use htl_model::{End, Inv, Mode, Tables};

/// The first mode of a module.
fn first_mode(t: &Tables, module: u16) -> Option<u16>
    ensures { result ≡ first_mode_of t.now «module» }
{
    let modes = t.parts().modes.as_slice();
    for m in 0..modes.len() {
        if modes[m].module == module {
            return Some(m as u16);
        }
    }
    None
}

/// The period to which the modes of a module are held.
fn asked_period(t: &Tables, module: u16) -> Option<u32>
    ensures { result ≡ asked_period_of t.now «module» }
{
    match parent_of(t, module) {
        Some(refined) => Some(mode_period(t, refined)),
        None => match first_mode(t, module) {
            Some(first) => Some(mode_period(t, first)),
            None => None,
        },
    }
}

fn unless_asked(have: u64, asked: Option<u64>) -> Option<(u64, u64)>
    ensures { result ≡ unless_asked_of have asked }
{
    match asked {
        Some(need) => if have == need {
            None
        } else {
            Some((have, need))
        },
        None => None,
    }
}

/// Rule 1 at a mode.
pub fn module_period_fault(t: &Tables, mode: &Mode) -> Option<(u64, u64)>
    ensures { result ≡ module_period_fault_of t.now mode.now }
{
    match asked_period(t, mode.module) {
        Some(asked) => unless_asked(mode.period as u64, Some(asked as u64)),
        None => None,
    }
}

/// Rule 3 at a communicator that a mode reads, writes or tests.
pub fn divides_fault(t: &Tables, mode: u16, comm: u16) -> Option<(u64, u64)>
    ensures { result ≡ divides_fault_of t.now mode comm }
{
    let period = comm_period(t, comm);
    let whole = mode_period(t, mode);
    if 0 < period && whole % period == 0 {
        None
    } else {
        Some((period as u64, whole as u64))
    }
}

/// Rule 3 at an input or output.
pub fn end_divides_fault(t: &Tables, inv: &Inv, end: End) -> Option<(u64, u64)>
    ensures { result ≡ end_divides_fault_of t.now inv.now end }
{
    match end {
        End::Comm { comm, .. } => divides_fault(t, inv.mode, comm),
        End::Port { .. } => None,
    }
}
