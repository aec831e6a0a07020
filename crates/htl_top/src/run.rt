// The commands `run`, `jobs` and `code`: an object, run.
ghost use Rattle.std.specs.Prelude.{◌≡◌, ◌+◌, ℕ, Err, List, Some};
ghost use Rattle.htl_base.specs.declared.limits.TheConstants as limit;
ghost use Rattle.htl_script.specs.Reading.{LosesFront};
ghost use Rattle.htl_open.specs.Files.{files};
ghost use Rattle.htl_open.specs.declared.stop.OpenStop.TheVariants as open_stop;
ghost use Rattle.htl_open.specs.declared.stop.ShelfCause.TheVariants as cause;
ghost use Rattle.htl_top.specs.Answers.{streams};
ghost use Rattle.htl_top.specs.Runs.{IsRunOnFile};

use crate::execute::execute;
use crate::stop::{OnObject, RunStop};
use htl_console::Shown;
use htl_edge::{Shelf, Sink, Source};
use htl_open::object::open;
use std::alloc::Global;

/// Tests the object in a file, and runs it with the input as script.
pub fn run_file<S: Shelf, R: Source, W: Sink>(
    alloc: Global,
    name: &str,
    show: Shown,
    shelf: &mut S,
    input: &mut R,
    out: &mut W,
) -> Result<(), OnObject<RunStop>>
    ensures answer { IsRunOnFile show (Some name.now)
        (files S.holds S.faults shelf.old shelf.new)
        (streams R.rest R.faults W.written W.faults input.old out.old) (streams R.rest R.faults W.written W.faults input.new out.new)
        result }
    ensures taken { LosesFront (limit.MAX_SCRIPT + 256) (R.rest input.old) (R.rest input.new) }
    ensures shelf { S.holds shelf.new ≡ S.holds shelf.old }
    ensures shelf_count { (result ≡ Err (OnObject.Open (open_stop.Shelf cause.Failed)) → ⊥) → (file : List ℕ) → S.faults shelf.new file ≡ S.faults shelf.old file }
    ensures read_count { (result ≡ Err (OnObject.Work RunStop.Read) → ⊥) → R.faults input.new ≡ R.faults input.old }
    ensures write_count { (result ≡ Err (OnObject.Work RunStop.Write) → ⊥) → W.faults out.new ≡ W.faults out.old }
{
    let loaded = open(alloc, name, shelf)?;
    match execute(alloc, &loaded, show, input, out) {
        Ok(()) => Ok(()),
        Err(stop) => Err(OnObject::Work(stop)),
    }
}
