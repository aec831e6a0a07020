// The lines of a record.
ghost use Rattle.std.specs.Prelude.{◌≡◌, ◌<◌, ◌++◌, [], cond, length};
ghost use Rattle.htl_edge.specs.Content.{Puts};
ghost use Rattle.htl_console.specs.Lines.{done_line};
ghost use Rattle.htl_console.specs.Shows.{shows_jobs, shows_code};
ghost use Rattle.htl_runs.specs.lines.RunRecords.{inv_at as inv_at_position, record_of};
ghost use Rattle.htl_runs.specs.lines.RunLines.{record_text};
ghost use Rattle.htl_machine.specs.Printing.{slice_text, job_text, place_text, code_text};

use crate::works::{Program, StandingList};
use htl_base::Time;
use htl_console::{Shown, line_d, line_j, line_s};
use htl_edge::{Failed, Sink};
use htl_model::Tables;
use htl_smach::Left;
use htl_walk::{Job, Schedule};

// The invocation at a position; 0 where there is none.
fn inv_at(jobs: &[Job], position: Option<u16>) -> u16
    ensures { result ≡ inv_at_position jobs.now position }
{
    match position {
        Some(p) if (p as usize) < jobs.len() => jobs[p as usize].inv,
        _ => 0,
    }
}

// The line of a slice.
fn tell_slice<W: Sink>(
    sink: &mut W,
    t: &Tables,
    inv: u16,
    slice: Option<(Time, Time)>,
) -> Result<(), Failed>
    ensures { Puts (W.written sink.old) (W.written sink.new) (W.faults sink.old) (W.faults sink.new) (slice_text t.now inv slice) result }
{
    match slice {
        Some((from, to)) => line_j(sink, t, from, to, inv),
        None => Ok(()),
    }
}

// The line of a job that is done.
fn tell_done<W: Sink>(
    sink: &mut W,
    t: &Tables,
    at: Time,
    inv: u16,
    finished: bool,
) -> Result<(), Failed>
    ensures { Puts (W.written sink.old) (W.written sink.new) (W.faults sink.old) (W.faults sink.new) (cond finished (done_line t.now at inv) []) result }
{
    if finished {
        line_d(sink, t, at, inv)
    } else {
        Ok(())
    }
}

// The lines of a job.
fn tell_job<W: Sink>(
    sink: &mut W,
    t: &Tables,
    jobs: &[Job],
    show: Shown,
    left: &Left,
) -> Result<(), Failed>
    ensures { Puts (W.written sink.old) (W.written sink.new) (W.faults sink.old) (W.faults sink.new) (job_text t.now show jobs.now left.now) result }
{
    if !show.jobs() {
        return Ok(());
    }
    let inv = inv_at(jobs, left.position);
    if let Err(failed) = tell_slice(sink, t, inv, left.slice) {
        return Err(failed);
    }
    tell_done(sink, t, left.at, inv, left.finished)
}

// The line of the instruction at a place.
fn tell_place<W: Sink>(
    sink: &mut W,
    code: &Schedule,
    node: u32,
    at: Time,
    place: u32,
) -> Result<(), Failed>
    ensures { Puts (W.written sink.old) (W.written sink.new) (W.faults sink.old) (W.faults sink.new) (place_text code.now.instrs node at place) result }
{
    let instrs = code.instrs.as_slice();
    if (place as usize) < instrs.len() {
        line_s(sink, at, node, place, &instrs[place as usize])
    } else {
        Ok(())
    }
}

// The line of an instruction.
fn tell_step<W: Sink>(
    sink: &mut W,
    code: &Schedule,
    node: u32,
    show: Shown,
    left: &Left,
) -> Result<(), Failed>
    ensures { Puts (W.written sink.old) (W.written sink.new) (W.faults sink.old) (W.faults sink.new) (code_text show code.now.instrs node left.now) result }
{
    if show.code() {
        tell_place(sink, code, node, left.at, left.instr)
    } else {
        Ok(())
    }
}

/// Writes the lines of a record.
#[inline(always)]
pub fn tell_record<W: Sink>(
    sink: &mut W,
    program: &Program<'_>,
    list: &StandingList<'_>,
    left: &Left,
) -> Result<(), Failed>
    ensures { Puts (W.written sink.old) (W.written sink.new) (W.faults sink.old) (W.faults sink.new) (record_text program.now.tables.now program.now.show (record_of list.now.jobs.now list.now.node list.now.schedule.now.instrs left.now)) result }
{
    if let Err(failed) = tell_job(sink, program.tables, list.jobs, program.show, left) {
        return Err(failed);
    }
    tell_step(sink, list.schedule, list.node, program.show, left)
}
