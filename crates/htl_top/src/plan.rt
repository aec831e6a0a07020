// The command `plan`: one frame at a selection of running modes.
ghost use Rattle.std.specs.Prelude.{◌≡◌, ◌+◌, ℕ, Err, List, Some};
ghost use Rattle.htl_base.specs.declared.limits.TheConstants as limit;
ghost use Rattle.htl_script.specs.Reading.{LosesFront};
ghost use Rattle.htl_open.specs.Files.{files};
ghost use Rattle.htl_open.specs.declared.stop.OpenStop.TheVariants as open_stop;
ghost use Rattle.htl_open.specs.declared.stop.ShelfCause.TheVariants as cause;
ghost use Rattle.htl_top.specs.Answers.{streams};
ghost use Rattle.htl_top.specs.Planned.{IsPlanned, IsPlannedOnFile};

use crate::stop::{OnObject, RunStop};
use htl_edge::{Shelf, Sink, Source};
use htl_load::Loaded;
use htl_open::object::open;
use htl_plan::{no_modes, read_selection, write_plan};
use htl_script::ScriptStop;
use std::alloc::Global;

// Reads a selection of running modes, and writes its plan.
fn plan<R: Source, W: Sink>(
    alloc: Global,
    l: &Loaded,
    input: &mut R,
    out: &mut W,
) -> Result<(), RunStop>
    ensures answer { IsPlanned l.now
        (streams R.rest R.faults W.written W.faults input.old out.old) (streams R.rest R.faults W.written W.faults input.new out.new)
        result }
    ensures taken { LosesFront (limit.MAX_SCRIPT + 256) (R.rest input.old) (R.rest input.new) }
    ensures read_count { (result ≡ Err RunStop.Read → ⊥) → R.faults input.new ≡ R.faults input.old }
    ensures write_count { (result ≡ Err RunStop.Write → ⊥) → W.faults out.new ≡ W.faults out.old }
{
    let Ok(mut selection) = no_modes(alloc, l.tables()) else {
        return Err(RunStop::Memory);
    };
    match read_selection(input, l.tables(), &mut selection) {
        Ok(()) => match write_plan(out, l, &selection) {
            Ok(()) => Ok(()),
            Err(_) => Err(RunStop::Write),
        },
        Err(ScriptStop::Script(fault)) => Err(RunStop::Script(fault)),
        Err(ScriptStop::Read) => Err(RunStop::Read),
    }
}

/// Tests the object in a file, reads a selection of running modes, and writes the frame in which every module stays in its mode and
/// every job takes its worst case.
pub fn plan_file<S: Shelf, R: Source, W: Sink>(
    alloc: Global,
    name: &str,
    shelf: &mut S,
    input: &mut R,
    out: &mut W,
) -> Result<(), OnObject<RunStop>>
    ensures answer { IsPlannedOnFile (Some name.now) (files S.holds S.faults shelf.old shelf.new)
        (streams R.rest R.faults W.written W.faults input.old out.old) (streams R.rest R.faults W.written W.faults input.new out.new)
        result }
    ensures taken { LosesFront (limit.MAX_SCRIPT + 256) (R.rest input.old) (R.rest input.new) }
    ensures shelf { S.holds shelf.new ≡ S.holds shelf.old }
    ensures shelf_count { (result ≡ Err (OnObject.Open (open_stop.Shelf cause.Failed)) → ⊥) → (file : List ℕ) → S.faults shelf.new file ≡ S.faults shelf.old file }
    ensures read_count { (result ≡ Err (OnObject.Work RunStop.Read) → ⊥) → R.faults input.new ≡ R.faults input.old }
    ensures write_count { (result ≡ Err (OnObject.Work RunStop.Write) → ⊥) → W.faults out.new ≡ W.faults out.old }
{
    let loaded = open(alloc, name, shelf)?;
    match plan(alloc, &loaded, input, out) {
        Ok(()) => Ok(()),
        Err(stop) => Err(OnObject::Work(stop)),
    }
}
