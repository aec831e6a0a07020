// The first part of an instant: records, writes and sensors.
ghost use Rattle.std.specs.Prelude.{◌≡◌, List, OnOk};
ghost use Rattle.htl_model.specs.declared.event.Event.{Event};
ghost use Rattle.htl_emach.specs.Following.{FollowsCode};
ghost use Rattle.htl_machine.specs.Parts.{OpenGiven, OpensText, OpensFor, OpenKeeps};

use crate::instant_records::leave_records;
use crate::sensors::Sensors;
use crate::steps::do_instrs;
use crate::works::{Machines, Program, StandingList};
use htl_base::Time;
use htl_ecode::Phase;
use htl_edge::{Failed, Sink};

/// The records of the list that stands, as far as they are due, the writes and the sensors of an instant. After `Failed`
/// a prefix of the lines was written.
pub fn open_instant<W: Sink>(
    sink: &mut W,
    machines: &mut Machines,
    program: &Program<'_>,
    list: &StandingList<'_>,
    sensors: &mut Sensors,
    at: Time,
) -> Result<(), Failed>
    requires given { OpenGiven program.now list.now sensors.old at machines.old }
    requires follows { (es : List Event) × FollowsCode program.now.tables.now program.now.code.now es at machines.old.emach }
    ensures text { OpensText program.now list.now at machines.old (W.written sink.old) (W.written sink.new) (W.faults sink.old) (W.faults sink.new) result }
    ensures events { OpensFor program.now list.now sensors.old at machines.old machines.new result }
    ensures keeps { OnOk result (OpenKeeps program.now list.now sensors.new machines.old machines.new) }
    ensures shows { sensors.new.shows ≡ sensors.old.shows }
{
    if let Err(failed) = leave_records(sink, &mut machines.works, program, list, at) {
        return Err(failed);
    }
    if let Err(failed) = do_instrs(sink, machines, program, list.jobs, Phase::Write, at) {
        return Err(failed);
    }
    sensors.show(
        &mut machines.works.world,
        program.tables,
        &mut machines.noted,
        at,
    );
    Ok(())
}
