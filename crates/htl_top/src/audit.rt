// The command `audit`: a job log of any scheduler, judged for an object and a script.
ghost use Rattle.std.specs.Prelude.{◌≡◌, ◌+◌, ◌<◌, List, ℕ, Some, Err, All, length};
ghost use Rattle.htl_base.specs.declared.limits.TheConstants as limit;
ghost use Rattle.htl_script.specs.Reading.{LosesFront};
ghost use Rattle.htl_open.specs.Files.{files};
ghost use Rattle.htl_open.specs.declared.stop.OpenStop.TheVariants as open_stop;
ghost use Rattle.htl_open.specs.declared.stop.ShelfCause.TheVariants as cause;
ghost use Rattle.htl_top.specs.Answers.{streams};
ghost use Rattle.htl_top.specs.Audited.{IsAuditRun, IsAuditOf, IsAudit};
ghost use Rattle.htl_top.specs.declared.stop.AuditStop.TheVariants as audit;
ghost use Rattle.htl_top.specs.declared.stop.RunStop.TheVariants as run;

use crate::audit_play::play_audit;
use crate::fetch::open_both;
use crate::stop::{AuditStop, OnObject, RunStop};
use htl_audit::{Auditor, LogStop, Slice, read_log};
use htl_edge::{Shelf, Sink, Source};
use htl_load::Loaded;
use std::alloc::Global;

// Audits the slices of a log for an accepted object, with the input as script. All memory is taken before anything is read.
fn audit_slices<R: Source, W: Sink>(
    alloc: Global,
    l: &Loaded,
    log: &[Slice],
    input: &mut R,
    out: &mut W,
) -> Result<(), AuditStop>
    requires { All (λ x. x.inv < length l.now.tables.invs) log.now }
    ensures answer { IsAuditRun log.now l.now
        (streams R.rest R.faults W.written W.faults input.old out.old) (streams R.rest R.faults W.written W.faults input.new out.new)
        result }
    ensures taken { LosesFront (limit.MAX_SCRIPT + 256) (R.rest input.old) (R.rest input.new) }
    ensures read_count { (result ≡ Err (AuditStop.Run run.Read) → ⊥) → R.faults input.new ≡ R.faults input.old }
    ensures write_count { (result ≡ Err (AuditStop.Run run.Write) → ⊥) → W.faults out.new ≡ W.faults out.old }
{
    let Ok(mut auditor) = Auditor::new(alloc, l, log) else {
        return Err(AuditStop::Run(RunStop::Memory));
    };
    play_audit(&mut auditor, l.tables(), input, out)
}

// Audits bytes as a log for an accepted object, with the input as script.
fn audit_bytes<R: Source, W: Sink>(
    alloc: Global,
    l: &Loaded,
    log: &[u8],
    input: &mut R,
    out: &mut W,
) -> Result<(), AuditStop>
    ensures answer { IsAuditOf log.now l.now
        (streams R.rest R.faults W.written W.faults input.old out.old) (streams R.rest R.faults W.written W.faults input.new out.new)
        result }
    ensures taken { LosesFront (limit.MAX_SCRIPT + 256) (R.rest input.old) (R.rest input.new) }
    ensures read_count { (result ≡ Err (AuditStop.Run run.Read) → ⊥) → R.faults input.new ≡ R.faults input.old }
    ensures write_count { (result ≡ Err (AuditStop.Run run.Write) → ⊥) → W.faults out.new ≡ W.faults out.old }
{
    match read_log(alloc, log, l.tables()) {
        Ok(slices) => audit_slices(alloc, l, slices.as_slice(), input, out),
        Err(LogStop::Refused(fault)) => Err(AuditStop::Log(fault)),
        Err(LogStop::Memory) => Err(AuditStop::Run(RunStop::Memory)),
    }
}

/// Fetches an object and a log, tests the object, and audits the log for it with the input as script.
pub fn audit_file<S: Shelf, R: Source, W: Sink>(
    alloc: Global,
    name: &str,
    log: &str,
    shelf: &mut S,
    input: &mut R,
    out: &mut W,
) -> Result<(), OnObject<AuditStop>>
    ensures answer { IsAudit name.now log.now
        (files S.holds S.faults shelf.old shelf.new)
        (streams R.rest R.faults W.written W.faults input.old out.old) (streams R.rest R.faults W.written W.faults input.new out.new)
        result }
    ensures taken { LosesFront (limit.MAX_SCRIPT + 256) (R.rest input.old) (R.rest input.new) }
    ensures shelf { S.holds shelf.new ≡ S.holds shelf.old }
    ensures shelf_count { (result ≡ Err (OnObject.Open (open_stop.Shelf cause.Failed)) → ⊥) → (file : List ℕ) → S.faults shelf.new file ≡ S.faults shelf.old file }
    ensures read_count { (result ≡ Err (OnObject.Work (audit.Run run.Read)) → ⊥) → R.faults input.new ≡ R.faults input.old }
    ensures write_count { (result ≡ Err (OnObject.Work (audit.Run run.Write)) → ⊥) → W.faults out.new ≡ W.faults out.old }
{
    let (object, log) = open_both(alloc, name, log, shelf)?;
    match audit_bytes(alloc, &object, log.as_slice(), input, out) {
        Ok(()) => Ok(()),
        Err(stop) => Err(OnObject::Work(stop)),
    }
}
