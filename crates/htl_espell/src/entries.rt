// What enters a mode, read from E code.
ghost use Rattle.std.specs.Prelude.{◌≡◌, ◌≤◌, length};
ghost use Rattle.htl_model.specs.Lists.{joined, numbered};
ghost use Rattle.htl_ecode.specs.Departure.{fault_of};
ghost use Rattle.htl_espell.specs.Checks.{next_of, enter_read};
ghost use Rattle.htl_espell.specs.Parts.{child_wants};

use crate::chains::Instrs;
use crate::needs::need;
use crate::resolving::arrive;
use htl_ecode::modes::is_child;
use htl_ecode::{EFault, EInstr};
use htl_model::{Module, Tables};

// Reads the start of a module, where it belongs to the mode's refinement: the address after it.
fn need_child(
    code: &mut Instrs<'_>,
    at: u32,
    mode: u16,
    k: u16,
    module: &Module,
) -> Result<u32, EFault>
    requires { length code.old ≤ 4294967295 }
    ensures read { result ≡ next_of code.old at (child_wants mode (k, «module».now)) }
    ensures same { code.new ≡ code.old }
{
    if is_child(mode, module) {
        need(code, at, EInstr::Fork { module: k })
    } else {
        Ok(at)
    }
}

// Reads the starts of the modules of a mode's refinement.
fn need_children(code: &mut Instrs<'_>, at: u32, t: &Tables, mode: u16) -> Result<u32, EFault>
    requires { length code.old ≤ 4294967295 }
    ensures read { result ≡ next_of code.old at (joined (child_wants mode) (numbered 0 t.now.modules)) }
    ensures same { code.new ≡ code.old }
{
    let modules = t.parts().modules.as_slice();
    let mut place = at;
    for k in 0..modules.len() {
        let module = &modules[k];
        place = need_child(code, place, mode, k as u16, module)?;
    }
    Ok(place)
}

/// Reads what enters a mode, whose rounds begin at the address `begin`.
pub fn check_enter(
    code: &mut Instrs<'_>,
    at: u32,
    t: &Tables,
    mode: u16,
    begin: u32,
) -> Result<(), EFault>
    requires code { length code.old ≤ 4294967295 }
    ensures fault { fault_of result ≡ fault_of (enter_read code.old t.now begin mode at) }
    ensures same { code.new ≡ code.old }
{
    let place = need(code, at, EInstr::Enter { mode })?;
    let end = need_children(code, place, t, mode)?;
    arrive(code, end, begin, end)
}
