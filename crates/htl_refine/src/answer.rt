// The form rules 13 to 16.
ghost use Rattle.std.specs.Prelude.{◌≤◌, OnOk, IfErr};
ghost use Rattle.htl_model.specs.Broken.{Formed, KeptTo, IsFirstBroken};

use crate::order::Order;
use crate::rule::RULES;
use htl_form::form;
use htl_model::search::first_fault;
use htl_model::{FormFault, Tables};

/// Tries the form rules 13 to 16 on tables that keep the rules 1 to 12. A fault comes exactly where one of them is broken, and
/// tells the first that is: by rule, then by site in the order of modules and invocations, then the invocation before its inputs.
/// It takes no memory. Each rule is one pass over modes, invocations and inputs. Beside these stand, for each invocation with a parent, a
/// pass over the invocations (15), and for each mode steps as many as the square of its invocations (16).
pub fn refine(t: &Tables) -> Result<(), FormFault>
    requires { KeptTo t.now 12 }
    ensures kept { OnOk result (KeptTo t.now 16) }
    ensures first { IfErr result (λ f. (13 ≤ f.rule) × (f.rule ≤ 16) × IsFirstBroken t.now f) }
{
    t.keeps_ranges();
    let order = Order::of(t);
    match first_fault(t, &order, &RULES) {
        Some(fault) => Err(fault),
        None => Ok(()),
    }
}

/// Tries all form rules, 1 to 16. A fault comes exactly where one of them is broken, and tells the first that is. It takes no memory.
pub fn try_rules(t: &Tables) -> Result<(), FormFault>
    ensures formed { OnOk result (Formed t.now) }
    ensures broken { IfErr result (IsFirstBroken t.now) }
{
    form(t)?;
    refine(t)
}
