// The records of an instant, with their lines.
ghost use Rattle.std.specs.Prelude.{OnOk};
ghost use Rattle.htl_machine.specs.Parts.{WorksGiven, ListGiven, ListText, RecordsLeft};

use crate::records::put_out;
use crate::tell::tell_record;
use crate::works::{Program, StandingList, Works};
use htl_base::Time;
use htl_edge::{Failed, Sink};

/// Leaves the instructions of the list that are left at an instant or before, puts out what the jobs do that they
/// finish, and writes and counts them; nothing where none runs. After `Failed` a prefix of the lines was written.
#[inline(always)]
pub fn leave_records<W: Sink>(
    sink: &mut W,
    works: &mut Works,
    program: &Program<'_>,
    list: &StandingList<'_>,
    at: Time,
) -> Result<(), Failed>
    requires works { WorksGiven program.now list.now.jobs.now works.old }
    requires list { ListGiven program.now list.now at works.old.s_machine }
    ensures text { ListText program.now list.now at works.old (W.written sink.old) (W.written sink.new) (W.faults sink.old) (W.faults sink.new) result }
    ensures left { OnOk result (RecordsLeft program.now list.now at works.old works.new) }
{
    while let Some(left) = works.s_machine.run_to(list.schedule, at) {
        put_out(
            &mut works.world,
            program.tables,
            list.jobs,
            left.finished,
            left.position,
        );
        works.tally.record(left.finished);
        if let Err(failed) = tell_record(sink, program, list, &left) {
            return Err(failed);
        }
    }
    Ok(())
}
