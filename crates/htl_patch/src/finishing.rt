// From the new tables to an accepted object.
ghost use Rattle.std.specs.Prelude.{◌≡◌, All, None, IfOk, IfErr, OnOk};
ghost use Rattle.htl_ecode.specs.Layout.{layout};
ghost use Rattle.htl_load.specs.Alike.{AskTheSame};
ghost use Rattle.htl_model.specs.Broken.{Formed, IsFirstBroken, KeepsLimits};
ghost use Rattle.htl_model.specs.FunctionTypes.{FitPlaces};
ghost use Rattle.htl_object.specs.Accepted.{IsFormed, IsAccepted};
ghost use Rattle.htl_object.specs.Ranges.{IsFunctionCode};
ghost use Rattle.htl_patch.specs.Stops.{IsTablesFault, IsTablesStop, IsAcceptedWith, object_with, IsMisfit, misfit_of};

use crate::fault::{PatchFault, PatchStop};
use htl_base::{Memory, Seq};
use htl_ecode::{ECode, generate_e};
use htl_load::{FormedObject, Loaded, ObjectFault, inherit, spelled};
use htl_model::{FormFault, Tables};
use htl_object::Object;
use htl_refine::try_rules;
use htl_walk::{SInstr, Schedule};
use std::alloc::{AllocError, Global};

fn copied_instrs(alloc: Global, instrs: &[SInstr]) -> Result<Vec<SInstr>, AllocError>
    ensures { IfOk result (λ v. v.items ≡ instrs.now) }
{
    instrs.to_vec(alloc)
}

fn copied(alloc: Global, schedules: &[Schedule]) -> Result<Vec<Schedule>, AllocError>
    ensures { IfOk result (λ v. v.items ≡ schedules.now) }
{
    let mut found = Vec::new(alloc);
    for s in schedules {
        let instrs = copied_instrs(alloc, s.instrs.as_slice())?;
        found.push(Schedule {
            instrs: Seq::new(instrs),
        })?;
    }
    Ok(found)
}

// The generated layout of tables, and a copy of another's schedules.
fn laid(alloc: Global, o: &Loaded, t: &Tables) -> Result<(ECode, Vec<Schedule>), Memory>
    requires { Formed t.now }
    ensures { IfOk result (λ x. (x.0 ≡ layout t.now) × (x.1.items ≡ o.now.schedules)) }
{
    let ecode = match generate_e(alloc, t) {
        Ok(ecode) => ecode,
        Err(Memory) => return Err(Memory),
    };
    match copied(alloc, o.schedules()) {
        Ok(schedules) => Ok((ecode, schedules)),
        Err(_) => Err(Memory),
    }
}

// The object of tables, with the generated layout and another's schedules and platform.
fn relaid(alloc: Global, o: &Loaded, t: Tables) -> Result<Object, Memory>
    requires { Formed t }
    ensures { IfOk result (λ p. p ≡ object_with o.now t) }
{
    let (ecode, schedules) = match laid(alloc, o, &t) {
        Ok(both) => both,
        Err(Memory) => return Err(Memory),
    };
    Ok(Object {
        tables: t,
        ecode,
        schedules: Seq::new(schedules),
        platform: o.platform(),
    })
}

// The loader's fault of a function.
fn misfit(fault: ObjectFault) -> PatchFault
    requires { IsMisfit fault }
    ensures { result ≡ misfit_of fault }
{
    match fault {
        ObjectFault::Function { id } => PatchFault::Function { id },
        ObjectFault::Malformed(_) => unreachable!(),
        ObjectFault::IllFormed(_) => unreachable!(),
        ObjectFault::ECode(_) => unreachable!(),
        ObjectFault::Schedule { .. } => unreachable!(),
    }
}

// The object of tables that break no form rule, as accepted under another's schedules; or the fault of the first function that
// doesn't fit its place.
fn fitted(o: &Loaded, object: Object) -> Result<Loaded, PatchFault>
    requires formed { IsFormed object }
    requires laid { object ≡ object_with o.now object.tables }
    requires same { AskTheSame object.tables o.now.tables }
    ensures accepted { IfOk result (λ l. (l ≡ object) × FitPlaces object.tables) }
    ensures whole { IfOk result IsAccepted }
    ensures fault { IfErr result (λ f. IsTablesFault object.tables f None) }
{
    match spelled(FormedObject::of(object)) {
        Ok(spelled) => Ok(inherit(spelled, o)),
        Err((_object, fault)) => Err(misfit(fault)),
    }
}

/// The object of the new tables under the schedules of another that is accepted. It is accepted without a walk, since its tables ask the
/// processor for the same. A refusal comes exactly where a form rule is broken, with the first and the tables, or else where a function
/// doesn't fit its place, with the first.
pub(crate) fn accept(alloc: Global, o: &Loaded, t: Tables) -> Result<Loaded, PatchStop>
    requires limits { KeepsLimits t }
    requires coded { All IsFunctionCode t.functions }
    requires same { AskTheSame t o.now.tables }
    ensures accepted { IfOk result (λ l. IsAcceptedWith o.now t l) }
    ensures whole { IfOk result IsAccepted }
    ensures stop { IfErr result (IsTablesStop t) }
{
    t.keeps_ranges();
    let _from = o.object();
    if let Err(fault) = try_rules(&t) {
        return Err(PatchStop::Refused(PatchFault::IllFormed(fault), Some(t)));
    }
    let object = match relaid(alloc, o, t) {
        Ok(object) => object,
        Err(Memory) => return Err(PatchStop::Memory),
    };
    match fitted(o, object) {
        Ok(loaded) => Ok(loaded),
        Err(fault) => Err(PatchStop::Refused(fault, None)),
    }
}
