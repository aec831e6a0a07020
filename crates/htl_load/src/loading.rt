// From bytes to an accepted object.
ghost use Rattle.std.specs.Prelude.{◌≡◌, IfOk, IfErr};
ghost use Rattle.htl_object.specs.Accepted.{IsAccepted};
ghost use Rattle.htl_load.specs.Faults.{IsRefused};
ghost use Rattle.htl_load.specs.Loading.{HasBytes, RefusesBytes, IsLoadFault, IsLoadedAs, IsRefusedFor};
ghost use Rattle.htl_load.specs.declared.fault.ObjectFault.{ObjectFault as FaultOf};
ghost use Rattle.htl_object.specs.Ranges.{IsInRange};
ghost use Rattle.htl_object.specs.declared.object.Object.{Object as ObjectOf};

use crate::states::{Loaded, formed, scheduled, spelled};
use crate::{LoadFault, ObjectFault};
use htl_object::{DecodeFault, Object, decode};
use std::alloc::Global;

// The three tests, one after the other.
fn tested(o: Object) -> Result<Loaded, ObjectFault>
    requires { IsInRange o }
    ensures accepted { IfOk result (λ l. (l ≡ o) × IsAccepted o) }
    ensures refused { IfErr result (IsRefused o) }
{
    let formed = match formed(o) {
        Ok(formed) => formed,
        Err((_object, fault)) => return Err(fault),
    };
    let spelled = match spelled(formed) {
        Ok(spelled) => spelled,
        Err((_object, fault)) => return Err(fault),
    };
    match scheduled(spelled) {
        Ok(loaded) => Ok(loaded),
        Err((_object, fault)) => Err(fault),
    }
}

/// The accepted object that has these bytes. It is refused exactly where none has them: with their first bad field where they are
/// no object's, and else with the first of the tests that the object fails (form rules, functions, E code, schedules) at its first
/// place. Want of memory, which only reading the bytes can meet, may stand in place of either.
pub fn load(alloc: Global, bytes: &[u8]) -> Result<Loaded, LoadFault>
    ensures loaded { IfOk result (λ l. HasBytes bytes.now l × IsAccepted l) }
    ensures fault { IfErr result (IsLoadFault bytes.now) }
    ensures only { (o : ObjectOf) → HasBytes bytes.now o → IsAccepted o → IsLoadedAs o result }
    ensures refused { (f : FaultOf) → RefusesBytes bytes.now f → IsRefusedFor f result }
{
    let o = match decode(alloc, bytes) {
        Ok(o) => o,
        Err(DecodeFault::Malformed(bad)) => {
            return Err(LoadFault::Refused(ObjectFault::Malformed(bad)));
        }
        Err(DecodeFault::Memory) => return Err(LoadFault::Memory),
    };
    match tested(o) {
        Ok(loaded) => Ok(loaded),
        Err(fault) => Err(LoadFault::Refused(fault)),
    }
}
