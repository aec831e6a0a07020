// Patch: the refinement of one mode is replaced by a donor's.
ghost use Rattle.std.specs.Prelude.{◌≡◌, ◌<◌, All, length, IfOk, IfErr};
ghost use Rattle.htl_object.specs.Accepted.{IsAccepted};
ghost use Rattle.htl_object.specs.Ranges.{IsInRange};
ghost use Rattle.htl_patch.specs.Answering.{IsPatched, IsPatchStop, IsPatchedAs, PatchIsRefusedFor};
ghost use Rattle.htl_patch.specs.Object.{patched_object, CanPatch};
ghost use Rattle.htl_patch.specs.Stops.{IsPatchFault};
ghost use Rattle.htl_patch.specs.Combined.{Replacement as GraftOf};
ghost use Rattle.htl_patch.specs.declared.fault.PatchFault.{PatchFault as FaultOf};

use crate::fault::{PatchFault, PatchStop};
use crate::finding::mode_named;
use crate::finishing::accept;
use crate::replacement::Replacement;
use crate::tables::with_replacement;
use htl_base::Name;
use htl_load::Loaded;
use htl_object::Object;
use std::alloc::Global;

// The patched object, or the first fault.
fn replaced(
    alloc: Global,
    o: &Loaded,
    unit: &Name,
    mode: &Name,
    donor: &Object,
) -> Result<Loaded, PatchStop>
    requires { IsInRange donor.now }
    ensures patched { IfOk result (IsPatched o.now donor.now unit.now mode.now) }
    ensures accepted { IfOk result IsAccepted }
    ensures fault { IfErr result (IsPatchStop o.now donor.now unit.now mode.now) }
{
    let host = &o.object().tables;
    let into = match mode_named(host, unit, mode) {
        Some(into) => into,
        None => return Err(PatchStop::Refused(PatchFault::Mode, None)),
    };
    let from = match mode_named(&donor.tables, unit, mode) {
        Some(from) => from,
        None => return Err(PatchStop::Refused(PatchFault::Mode, None)),
    };
    let g = Replacement {
        host,
        donor: &donor.tables,
        patched_mode: into,
        replacing_mode: from,
    };
    let made = match with_replacement(alloc, &g) {
        Ok(made) => made,
        Err(_) => return Err(PatchStop::Memory),
    };
    match made {
        Ok(tables) => accept(alloc, o, tables),
        Err(fault) => Err(PatchStop::Refused(fault, None)),
    }
}

/// The object in which the refinement of the mode of these names is the donor's refinement of its mode of the same names: the host's
/// functions, parents and numbers otherwise, the generated E code, and the host's schedules and platform, under which it is accepted.
/// A refusal is the first of these, each exactly where it stands: one of the two has no mode of these names; the lists of communicators
/// differ, at the first place; an invocation of the refinement, the first, has a parent that neither is of the refinement nor has the
/// name of one of the host's mode; a module of it, the first, has the name of one of the host's that stays; the new tables exceed a
/// limit; they break a form rule, and are handed back; one of their functions isn't verified code of the types of its place. Want of
/// memory may stand in place of any. The time is linear in the two objects, but for names and the rules themselves; each kept item is
/// copied once.
pub fn patch(
    alloc: Global,
    o: &Loaded,
    unit: &Name,
    mode: &Name,
    donor: &Object,
) -> Result<Loaded, PatchStop>
    requires { IsInRange donor.now }
    ensures patched { IfOk result (IsPatched o.now donor.now unit.now mode.now) }
    ensures accepted { IfOk result IsAccepted }
    ensures fault { IfErr result (IsPatchStop o.now donor.now unit.now mode.now) }
    ensures only { (g : GraftOf) → CanPatch o.now donor.now unit.now mode.now g → IsPatchedAs (patched_object o.now g) result }
    ensures refused { (f : FaultOf) → IsPatchFault o.now donor.now unit.now mode.now f → PatchIsRefusedFor f result }
{
    let _host = o.object();
    replaced(alloc, o, unit, mode, donor)
}
