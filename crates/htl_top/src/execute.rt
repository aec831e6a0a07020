// An accepted object, run with the input as script.
ghost use Rattle.std.specs.Prelude.{◌≡◌, ◌+◌, Err};
ghost use Rattle.htl_base.specs.declared.limits.TheConstants as limit;
ghost use Rattle.htl_script.specs.Reading.{LosesFront};
ghost use Rattle.htl_top.specs.Answers.{streams};
ghost use Rattle.htl_top.specs.Runs.{IsRun};

use crate::play::play;
use crate::stop::RunStop;
use htl_console::Shown;
use htl_edge::{Sink, Source};
use htl_load::Loaded;
use htl_machine::Machine;
use std::alloc::Global;

/// Runs an accepted object with the input as script. All memory of the run is taken before anything is read.
pub fn execute<R: Source, W: Sink>(
    alloc: Global,
    l: &Loaded,
    show: Shown,
    input: &mut R,
    out: &mut W,
) -> Result<(), RunStop>
    ensures answer { IsRun show l.now.tables l.now
        (streams R.rest R.faults W.written W.faults input.old out.old) (streams R.rest R.faults W.written W.faults input.new out.new)
        result }
    ensures taken { LosesFront (limit.MAX_SCRIPT + 256) (R.rest input.old) (R.rest input.new) }
    ensures read_count { (result ≡ Err RunStop.Read → ⊥) → R.faults input.new ≡ R.faults input.old }
    ensures write_count { (result ≡ Err RunStop.Write → ⊥) → W.faults out.new ≡ W.faults out.old }
{
    let Ok(mut machine) = Machine::new(alloc, l, show) else {
        return Err(RunStop::Memory);
    };
    play(&mut machine, l.tables(), input, out)
}
