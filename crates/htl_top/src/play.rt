// The events of a script, told to a machine as they are read.
ghost use Rattle.std.specs.Prelude.{◌≡◌, ◌+◌, [], Err, List, OnOk};
ghost use Rattle.htl_base.specs.declared.limits.TheConstants as limit;
ghost use Rattle.htl_edge.specs.Content.{Puts};
ghost use Rattle.htl_machine.specs.Calls.{Follows, IsSameRun};
ghost use Rattle.htl_runs.specs.events.ToldSoFar.{reading_of};
ghost use Rattle.htl_model.specs.Lines.{totals_line};
ghost use Rattle.htl_model.specs.declared.event.Event.{Event as Told};
ghost use Rattle.htl_object.specs.Accepted.{IsAccepted};
ghost use Rattle.htl_script.specs.Reading.{LosesFront};
ghost use Rattle.htl_top.specs.Answers.{streams};
ghost use Rattle.htl_top.specs.Playing.{IsNext, IsBehind, text_more};
ghost use Rattle.htl_top.specs.Runs.{IsRun};

use crate::stop::RunStop;
use htl_console::line_end;
use htl_edge::{Failed, Sink, Source};
use htl_machine::Machine;
use htl_model::{Event, Tables};
use htl_script::{Script, ScriptStop};

/// Runs a machine that stands before instant 0 with what the input has left as script: each event is told as it is read, and the
/// lines are written as the run goes. It takes no memory.
pub fn play<R: Source, W: Sink>(
    machine: &mut Machine<'_>,
    t: &Tables,
    input: &mut R,
    out: &mut W,
) -> Result<(), RunStop>
    requires follows { Follows machine.old [] }
    requires accepted { IsAccepted machine.old.object }
    requires tables { t.now ≡ machine.old.object.tables }
    ensures answer { IsRun machine.old.show machine.old.object.tables machine.old.object
        (streams R.rest R.faults W.written W.faults input.old out.old) (streams R.rest R.faults W.written W.faults input.new out.new)
        result }
    ensures taken { LosesFront (limit.MAX_SCRIPT + 256) (R.rest input.old) (R.rest input.new) }
    ensures read_count { (result ≡ Err RunStop.Read → ⊥) → R.faults input.new ≡ R.faults input.old }
    ensures write_count { (result ≡ Err RunStop.Write → ⊥) → W.faults out.new ≡ W.faults out.old }
{
    let mut script = Script::new();
    'events: loop {
        match script.next(input, t) {
            Ok(Some(event)) => {
                if let Err(_) = tell(machine, event, out) {
                    return Err(RunStop::Write);
                }
            }
            Ok(None) => {
                return match write_totals(machine, out) {
                    Ok(()) => Ok(()),
                    Err(_) => Err(RunStop::Write),
                };
            }
            Err(ScriptStop::Script(fault)) => return Err(RunStop::Script(fault)),
            Err(ScriptStop::Read) => return Err(RunStop::Read),
        }
    }
}

// Tells a machine one event behind those told, and writes the lines of the instants that are past by then.
fn tell<W: Sink>(machine: &mut Machine<'_>, event: Event, out: &mut W) -> Result<(), Failed>
    requires { (es : List Told) × Follows machine.old es × IsNext machine.old.object.tables (reading_of 0 es) event }
    ensures text { (es : List Told) → Follows machine.old es → Puts (W.written out.old) (W.written out.new) (W.faults out.old) (W.faults out.new) (text_more machine.old.object machine.old.show es event) result }
    ensures behind { (es : List Told) → Follows machine.old es → OnOk result (IsBehind machine.new es event) }
    ensures same { IsSameRun machine.old machine.new }
{
    match event {
        Event::At(to) => machine.advance(to, out),
        Event::Sense { comm, x } => {
            machine.sense(comm, x);
            Ok(())
        }
        Event::Took { inv, length } => {
            machine.took(inv, length);
            Ok(())
        }
        Event::End(to) => machine.finish(to, out),
    }
}

/// Writes the numbers of a run so far.
pub fn write_totals<W: Sink>(machine: &Machine<'_>, out: &mut W) -> Result<(), Failed>
    ensures { Puts (W.written out.old) (W.written out.new) (W.faults out.old) (W.faults out.new) (totals_line machine.now.run_state.reading machine.now.jobs machine.now.e machine.now.s) result }
{
    let totals = machine.totals();
    line_end(out, totals.at, totals.jobs, totals.e, totals.s)
}
