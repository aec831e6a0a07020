// The tests of the rules on windows and worst cases.
ghost use Rattle.std.specs.Prelude.{◌≡◌};
ghost use Rattle.htl_form.specs.WindowFaults.{window_fault as window_fault_of, worst_case_fault as worst_case_fault_of};

use htl_model::lookup::{mode_period, task_worst};
use htl_model::window::{release, window_end};
use htl_model::{Inv, Tables};

/// Rule 6 at an invocation.
pub fn window_fault(t: &Tables, inv: &Inv) -> Option<(u64, u64)>
    ensures { result ≡ window_fault_of t.now inv.now }
{
    let release = release(t, inv);
    let end = window_end(t, inv);
    if release < end {
        None
    } else {
        Some((release, end))
    }
}

/// Rule 7 at an invocation.
pub fn worst_case_fault(t: &Tables, inv: &Inv) -> Option<(u64, u64)>
    ensures { result ≡ worst_case_fault_of t.now inv.now }
{
    let worst = task_worst(t, inv.task);
    let period = mode_period(t, inv.mode);
    if period < worst {
        Some((worst as u64, period as u64))
    } else {
        None
    }
}
