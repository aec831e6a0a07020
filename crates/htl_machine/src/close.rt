// The last part of an instant: switches, reads, releases and what changed.
ghost use Rattle.std.specs.Prelude.{List, OnOk};
ghost use Rattle.htl_model.specs.declared.event.Event.{Event};
ghost use Rattle.htl_machine.specs.Asking.{AreToRead, AreToClose};
ghost use Rattle.htl_machine.specs.Parts.{PartGiven, PartKeeps, PhaseDone, ReadsText, ClosesText, Closed};

use crate::changes::put_changes;
use crate::steps::do_instrs;
use crate::works::{Machines, Program};
use htl_base::Time;
use htl_ecode::Phase;
use htl_edge::{Failed, Sink};
use htl_walk::Job;

/// The reads of an instant once its switches are done, with the releases, and the lines of what changed. After `Failed` a
/// prefix of the lines was written.
#[inline(always)]
pub fn read_instant<W: Sink>(
    sink: &mut W,
    machines: &mut Machines,
    program: &Program<'_>,
    jobs: &[Job],
    at: Time,
) -> Result<(), Failed>
    requires given { PartGiven program.now jobs.now at machines.old }
    requires reads { (es : List Event) × AreToRead program.now es at machines.old }
    ensures text { ReadsText program.now at machines.old (W.written sink.old) (W.written sink.new) (W.faults sink.old) (W.faults sink.new) result }
    ensures events { (es : List Event) → AreToRead program.now es at machines.old → OnOk result (PhaseDone program.now es at 3 machines.old machines.new) }
    ensures keeps { OnOk result (PartKeeps program.now machines.old machines.new) }
{
    let _parts = program.tables.parts();
    if let Err(failed) = do_instrs(sink, machines, program, jobs, Phase::Read, at) {
        return Err(failed);
    }
    put_changes(sink, machines, program, at)
}

/// The last part of an instant at which no list begins: switches, reads with the releases, and the lines of what changed.
/// After `Failed` a prefix of the lines was written.
pub fn close_instant<W: Sink>(
    sink: &mut W,
    machines: &mut Machines,
    program: &Program<'_>,
    jobs: &[Job],
    at: Time,
) -> Result<(), Failed>
    requires given { PartGiven program.now jobs.now at machines.old }
    requires closes { (es : List Event) × AreToClose program.now es at machines.old }
    ensures text { ClosesText program.now at machines.old (W.written sink.old) (W.written sink.new) (W.faults sink.old) (W.faults sink.new) result }
    ensures events { (es : List Event) → AreToClose program.now es at machines.old → OnOk result (Closed program.now es at machines.old machines.new) }
    ensures keeps { OnOk result (PartKeeps program.now machines.old machines.new) }
{
    if let Err(failed) = do_instrs(sink, machines, program, jobs, Phase::Switch, at) {
        return Err(failed);
    }
    read_instant(sink, machines, program, jobs, at)
}
