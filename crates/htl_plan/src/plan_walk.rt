// The lines of a list in which each job takes its worst case.
ghost use Rattle.std.specs.Prelude.{◌≡◌, ◌≤◌, ◌+◌, ◌++◌, ◌<◌, ℕ, cond, length, get_or, IfOk};
ghost use Rattle.std.specs.List.{All};
ghost use Rattle.htl_edge.specs.Content.{Puts};
ghost use Rattle.htl_plan.specs.Plans.{slice_text, done_text, left_text, walk_text, finishes};
ghost use Rattle.htl_plan.specs.Plans.{work_of as work_of_of};
ghost use Rattle.htl_walk.specs.Following.{IsKnown};
ghost use Rattle.htl_walk.specs.Walk.{walk_from, last_point, work, worst_cases, dispatched, dispatch_begins, slice_between, finishes_by, work_after, job_at, next_point, finished_by, left_by};

use htl_base::Time;
use htl_console::{line_d, line_j};
use htl_edge::{Failed, Sink};
use htl_model::Tables;
use htl_walk::dispatch::{Dispatched, dispatch};
use htl_walk::{Job, SInstr};

// Writes the line of a slice, if there is one.
fn write_slice<W: Sink>(
    out: &mut W,
    t: &Tables,
    inv: u16,
    slice: Option<(Time, Time)>,
) -> Result<(), Failed>
    ensures { Puts (W.written out.old) (W.written out.new) (W.faults out.old) (W.faults out.new) (slice_text t.now inv slice) result }
{
    match slice {
        Some((from, to)) => line_j(out, t, from, to, inv),
        None => Ok(()),
    }
}

// Writes the line of a job that is done, if it is.
fn write_done<W: Sink>(
    out: &mut W,
    t: &Tables,
    inv: u16,
    at: Time,
    finished: bool,
) -> Result<(), Failed>
    ensures { Puts (W.written out.old) (W.written out.new) (W.faults out.old) (W.faults out.new) (done_text t.now inv at finished) result }
{
    if finished {
        line_d(out, t, at, inv)
    } else {
        Ok(())
    }
}

// Writes the lines of a dispatch that was left.
fn write_dispatch<W: Sink>(
    out: &mut W,
    t: &Tables,
    inv: u16,
    done: &Dispatched,
) -> Result<(), Failed>
    ensures { Puts (W.written out.old) (W.written out.new) (W.faults out.old) (W.faults out.new) (slice_text t.now inv done.now.slice ++ done_text t.now inv done.now.time done.now.finished) result }
{
    if let Err(failed) = write_slice(out, t, inv, done.slice) {
        return Err(failed);
    }
    write_done(out, t, inv, done.time, done.finished)
}

// Dispatches a position, with the work left in place.
fn run_position(jobs: &[Job], left: &mut [Time], time: Time, p: u16, until: u32) -> Dispatched
    requires known { p < length left.old }
    requires same { length left.old ≡ length jobs.now }
    ensures next { record { time = result.time; left = left.new } ≡ dispatched jobs.now p until (record { time = time; left = left.old }) }
    ensures slice { result.slice ≡ slice_between (dispatch_begins time (job_at jobs.now p).release until) until (get_or left.old p 0) result.time }
    ensures finished { result.finished ≡ finishes_by (get_or left.old p 0) (work_after time (get_or left.old p 0) (job_at jobs.now p).release until) }
    ensures len { length left.new ≡ length left.old }
{
    let done = dispatch(until, jobs[p as usize].release, left[p as usize], time);
    left[p as usize] = done.rest;
    done
}

// The invocation at a position.
fn inv_at(jobs: &[Job], p: u16) -> u16
    requires { p < length jobs.now }
    ensures { result ≡ (job_at jobs.now p).inv }
{
    jobs[p as usize].inv
}

// What an instruction leaves: the time after it, and whether it finished a position.
#[derive(Clone, Copy)]
struct Stepped {
    time: Time,
    finished: bool,
}

// Does an instruction, with the work left in place, and writes its lines.
fn step<W: Sink>(
    out: &mut W,
    t: &Tables,
    jobs: &[Job],
    instr: SInstr,
    time: Time,
    left: &mut [Time],
) -> Result<Stepped, Failed>
    requires known { IsKnown (length jobs.now) instr }
    requires same { length left.old ≡ length jobs.now }
    ensures next { IfOk result (λ r. record { time = r.time; left = left.new } ≡ next_point jobs.now instr (record { time = time; left = left.old })) }
    ensures finished { IfOk result (λ r. r.finished ≡ finished_by instr (record { time = time; left = left.old }) (next_point jobs.now instr (record { time = time; left = left.old }))) }
    ensures len { length left.new ≡ length left.old }
    ensures put { Puts (W.written out.old) (W.written out.new) (W.faults out.old) (W.faults out.new)
        (left_text t.now jobs.now (left_by jobs.now instr (record { time = time; left = left.old }) (next_point jobs.now instr (record { time = time; left = left.old })))) result }
{
    match instr {
        SInstr::Dispatch { position, until } => {
            let done = run_position(jobs, left, time, position, until);
            match write_dispatch(out, t, inv_at(jobs, position), &done) {
                Ok(()) => Ok(Stepped {
                    time: done.time,
                    finished: done.finished,
                }),
                Err(failed) => Err(failed),
            }
        }
        SInstr::Idle { until } => Ok(Stepped {
            time: time.max(until as u64),
            finished: false,
        }),
        SInstr::End => Ok(Stepped {
            time,
            finished: false,
        }),
    }
}

// How many positions finished, with one instruction more.
fn with_finish(done: u64, finished: bool) -> u64
    requires { done ≤ 4294967295 }
    ensures { result ≡ done + cond finished 1 0 }
{
    if finished { done + 1 } else { done }
}

// The work of a job: its worst case, or nothing where it is absent.
fn work_of(job: &Job) -> Time
    ensures { result ≡ work_of_of job.now }
{
    if job.present { job.worst } else { 0 }
}

/// The work of each position.
pub(crate) fn fill_work(jobs: &[Job], left: &mut [Time])
    requires { length left.old ≡ length jobs.now }
    ensures { left.new ≡ work jobs.now (worst_cases jobs.now) }
{
    for p in 0..jobs.len() {
        left[p] = work_of(&jobs[p]);
    }
}

/// Writes the lines of the instructions of a list that begins at `from`, with the work left in place: how many positions finish. It
/// takes no memory. After `Failed` a prefix was written.
pub(crate) fn follow<W: Sink>(
    out: &mut W,
    t: &Tables,
    jobs: &[Job],
    instrs: &[SInstr],
    from: Time,
    left: &mut [Time],
) -> Result<u64, Failed>
    requires known { All (IsKnown (length jobs.now)) instrs.now }
    requires few { length instrs.now ≤ 4294967295 }
    requires same { length left.old ≡ length jobs.now }
    ensures count { IfOk result (λ n. n ≡ finishes (walk_from jobs.now instrs.now (record { time = from; left = left.old }))) }
    ensures left { IfOk result (λ n. left.new ≡ (last_point jobs.now instrs.now (record { time = from; left = left.old })).left) }
    ensures len { length left.new ≡ length left.old }
    ensures put { Puts (W.written out.old) (W.written out.new) (W.faults out.old) (W.faults out.new)
        (walk_text t.now jobs.now (walk_from jobs.now instrs.now (record { time = from; left = left.old }))) result }
{
    let mut time = from;
    let mut done = 0u64;
    for k in 0..instrs.len() {
        match step(out, t, jobs, instrs[k], time, left) {
            Ok(stepped) => {
                time = stepped.time;
                done = with_finish(done, stepped.finished);
            }
            Err(failed) => return Err(failed),
        }
    }
    Ok(done)
}
