// The form rules 1 to 12.
ghost use Rattle.std.specs.Prelude.{◌≤◌, OnOk, IfErr};
ghost use Rattle.htl_model.specs.Broken.{KeptTo, IsFirstBroken};

use crate::overview::Overview;
use crate::rule::RULES;
use htl_model::search::first_fault;
use htl_model::{FormFault, Tables};

/// Tries the form rules 1 to 12. A fault comes exactly where one of them is broken, and tells the first that is: by rule, then by
/// site in the order of modules and invocations (a mode's switches behind its invocations), then inputs before outputs. It takes no memory.
///
/// On tables that break no rule each is one pass over modes, invocations and ends; the limits of frames (2) are judged once, as by
/// `frames`. Beside these stand, for each mode, a pass over the modes (1), over the switches (3) and over the invocations of earlier
/// modes (12), a sort of what its invocations write (12), and steps as many as the square of its invocations (9).
pub fn form(t: &Tables) -> Result<(), FormFault>
    ensures kept { OnOk result (KeptTo t.now 12) }
    ensures first { IfErr result (λ f. (f.rule ≤ 12) × IsFirstBroken t.now f) }
{
    t.keeps_ranges();
    let overview = Overview::of(t);
    match first_fault(t, &overview, &RULES) {
        Some(fault) => Err(fault),
        None => Ok(()),
    }
}
