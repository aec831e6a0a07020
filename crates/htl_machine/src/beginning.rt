// The last part of an instant at which a list begins.
ghost use Rattle.std.specs.Prelude.{List, OnOk};
ghost use Rattle.htl_model.specs.declared.event.Event.{Event};
ghost use Rattle.htl_machine.specs.Asking.{AreToCloseAndBegin};
ghost use Rattle.htl_machine.specs.Parts.{BeginGiven, BeginsText, Begins, BeginKeeps, PathKeeps};

use crate::close::read_instant;
use crate::instant_records::leave_records;
use crate::path::Path;
use crate::steps::do_instrs;
use crate::works::{Machines, Program, StandingList};
use htl_base::Time;
use htl_ecode::Phase;
use htl_edge::{Failed, Sink};

/// The last part of an instant at which a list begins: the switches; the beginning of the list, by the modes in which the modules
/// then are; the reads with the releases; the lines of what changed; and the records of the list that are left at the instant
/// itself. After `Failed` a prefix of the lines was written.
pub fn close_and_begin<W: Sink>(
    sink: &mut W,
    machines: &mut Machines,
    program: &Program<'_>,
    path: &mut Path,
    takes: &[Time],
    at: Time,
) -> Result<(), Failed>
    requires given { BeginGiven program.now path.old at machines.old }
    requires begins { (es : List Event) × AreToCloseAndBegin program.now es at takes.now path.old.list machines.old }
    ensures text { BeginsText program.now takes.now path.old at machines.old (W.written sink.old) (W.written sink.new) (W.faults sink.old) (W.faults sink.new) result }
    ensures events { Begins program.now takes.now at path.old path.new machines.old machines.new result }
    ensures keeps { OnOk result (BeginKeeps program.now path.new machines.old machines.new) }
    ensures path { PathKeeps path.old path.new }
{
    let t = program.tables;
    let _parts = t.parts();
    if let Err(failed) = do_instrs(sink, machines, program, path.jobs(), Phase::Switch, at) {
        return Err(failed);
    }
    path.begin(&mut machines.works.s_machine, t, &machines.emach, takes, at);
    if let Err(failed) = read_instant(sink, machines, program, path.jobs(), at) {
        return Err(failed);
    }
    let list = StandingList {
        jobs: path.jobs(),
        schedule: path.schedule(program.schedules),
        node: path.node(),
    };
    if let Err(failed) = leave_records(sink, &mut machines.works, program, &list, at) {
        return Err(failed);
    }
    Ok(())
}
