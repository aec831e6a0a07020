// The events of a script, told to an auditor as they are read, and the end of its audit.
ghost use Rattle.std.specs.Prelude.{◌≡◌, ◌+◌, [], List, OnOk, Err};
ghost use Rattle.htl_audit.specs.Auditing.{AuditFollows, IsAudited, IsSameAudit};
ghost use Rattle.htl_base.specs.declared.limits.TheConstants as limit;
ghost use Rattle.htl_edge.specs.Content.{Puts};
ghost use Rattle.htl_runs.specs.events.ToldSoFar.{reading_of};
ghost use Rattle.htl_model.specs.declared.event.Event.{Event as Told};
ghost use Rattle.htl_object.specs.Accepted.{IsAccepted};
ghost use Rattle.htl_script.specs.Reading.{LosesFront};
ghost use Rattle.htl_top.specs.Answers.{streams};
ghost use Rattle.htl_top.specs.Audited.{IsAuditRun, audited_line as audited_line_of};
ghost use Rattle.htl_top.specs.AuditPlaying.{IsAuditBehind, IsConcluded};
ghost use Rattle.htl_top.specs.Playing.{IsNext, text_more};
ghost use Rattle.htl_top.specs.declared.stop.RunStop.TheVariants as run;

use crate::stop::{AuditStop, RunStop};
use htl_audit::{AuditTotals, Auditor};
use htl_edge::{Failed, LineBuffer, Sink, Source, put_all};
use htl_model::{Event, Tables};
use htl_script::{Script, ScriptStop};

/// Audits the log of an auditor that stands before instant 0 for the run of what the input has left as script: each event is told as
/// it is read, and values and modes are written as the run goes. It takes no memory.
pub fn play_audit<R: Source, W: Sink>(
    auditor: &mut Auditor<'_>,
    t: &Tables,
    input: &mut R,
    out: &mut W,
) -> Result<(), AuditStop>
    requires follows { AuditFollows auditor.old [] }
    requires accepted { IsAccepted auditor.old.machine.object }
    requires tables { t.now ≡ auditor.old.machine.object.tables }
    ensures answer { IsAuditRun auditor.old.log auditor.old.machine.object
        (streams R.rest R.faults W.written W.faults input.old out.old) (streams R.rest R.faults W.written W.faults input.new out.new)
        result }
    ensures taken { LosesFront (limit.MAX_SCRIPT + 256) (R.rest input.old) (R.rest input.new) }
    ensures read_count { (result ≡ Err (AuditStop.Run run.Read) → ⊥) → R.faults input.new ≡ R.faults input.old }
    ensures write_count { (result ≡ Err (AuditStop.Run run.Write) → ⊥) → W.faults out.new ≡ W.faults out.old }
{
    let mut script = Script::new();
    'events: loop {
        match script.next(input, t) {
            Ok(Some(event)) => {
                if let Err(_) = tell(auditor, event, out) {
                    return Err(AuditStop::Run(RunStop::Write));
                }
            }
            Ok(None) => return conclude(auditor, out),
            Err(ScriptStop::Script(fault)) => return Err(AuditStop::Run(RunStop::Script(fault))),
            Err(ScriptStop::Read) => return Err(AuditStop::Run(RunStop::Read)),
        }
    }
}

// Tells an auditor one event behind those told, and writes values and modes of the instants that are past by then.
fn tell<W: Sink>(auditor: &mut Auditor<'_>, event: Event, out: &mut W) -> Result<(), Failed>
    requires { (es : List Told) × AuditFollows auditor.old es × IsNext auditor.old.machine.object.tables (reading_of 0 es) event }
    ensures text { (es : List Told) → AuditFollows auditor.old es → Puts (W.written out.old) (W.written out.new) (W.faults out.old) (W.faults out.new) (text_more auditor.old.machine.object auditor.old.machine.show es event) result }
    ensures behind { (es : List Told) → AuditFollows auditor.old es → OnOk result (IsAuditBehind auditor.new es event) }
    ensures same { IsSameAudit auditor.old auditor.new }
{
    match event {
        Event::At(to) => auditor.advance(to, out),
        Event::Sense { comm, x } => {
            auditor.sense(comm, x);
            Ok(())
        }
        Event::Took { inv, length } => {
            auditor.took(inv, length);
            Ok(())
        }
        Event::End(to) => auditor.finish(to, out),
    }
}

// Writes the numbers of a legal log, or gives the first fault, once the run has ended.
fn conclude<W: Sink>(auditor: &Auditor<'_>, out: &mut W) -> Result<(), AuditStop>
    requires { (es : List Told) × IsAudited auditor.now es auditor.now.machine.run_state.reading }
    ensures answer { (es : List Told) → IsAudited auditor.now es auditor.now.machine.run_state.reading → IsConcluded auditor.now.machine.object.tables es auditor.now.machine.run_state.reading auditor.now.log (W.written out.old) (W.written out.new) (W.faults out.old) (W.faults out.new) result }
    ensures write_count { (result ≡ Err (AuditStop.Run run.Write) → ⊥) → W.faults out.new ≡ W.faults out.old }
{
    match auditor.verdict() {
        Ok(totals) => {
            let line = audited_line(&totals);
            match put_all(out, line.as_bytes()) {
                Ok(()) => Ok(()),
                Err(_) => Err(AuditStop::Run(RunStop::Write)),
            }
        }
        Err(fault) => Err(AuditStop::Log(fault)),
    }
}

// `audited T jobs N slices K`.
fn audited_line(totals: &AuditTotals) -> LineBuffer
    ensures { result ≡ audited_line_of totals.now.at totals.now.jobs totals.now.slices }
{
    let mut line = LineBuffer::new();
    line.text(b"audited ");
    line.number(totals.at);
    line.text(b" jobs ");
    line.number(totals.jobs);
    line.text(b" slices ");
    line.number(totals.slices);
    line.text(b"\n");
    line
}
