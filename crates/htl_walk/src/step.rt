// One instruction of the worst-case walk.
ghost use Rattle.std.specs.Prelude.{◌≡◌, ◌<◌, ◌≤◌, ℕ, length, IfOk, IfErr};
ghost use Rattle.htl_walk.specs.declared.schedule.SInstr.TheVariants as instr;
ghost use Rattle.htl_walk.specs.Walk.{dispatched, job_at, AreDone};
ghost use Rattle.htl_walk.specs.Following.{ArePending, IsKnown, IsFollowed, IsMissAt};

use crate::dispatch::dispatch;
use crate::pending::{pending_predecessor, still_pending};
use crate::{Job, Miss, SInstr};
use htl_base::Time;

/// Where a walk stands: the time, and the positions with work left as a row of bits.
#[derive(Clone, Copy)]
pub struct Moment {
    /// The time, in ticks from the start of the round or the frame.
    pub time: Time,
    /// Bit p says that position p has work left.
    pub pending: u128,
}

// Dispatches a position: the time after it, and the work left in place.
fn run_position(jobs: &[Job], left: &mut [Time], time: Time, p: u16, until: u32) -> Time
    requires known { p < length left.old }
    requires same { length left.old ≡ length jobs.now }
    ensures { record { time = result; left = left.new } ≡ dispatched jobs.now p until (record { time = time; left = left.old }) }
{
    let done = dispatch(until, jobs[p as usize].release, left[p as usize], time);
    left[p as usize] = done.rest;
    done.time
}

// Dispatches a position whose predecessors are done, and notes its finish offset.
fn run(
    jobs: &[Job],
    p: u16,
    until: u32,
    time: Time,
    left: &mut [Time],
    finish: &mut [Time],
) -> Result<Time, Miss>
    requires known { p < length left.old }
    requires same { length left.old ≡ length jobs.now }
    requires finishes { length finish.old ≡ length jobs.now }
    requires ready { AreDone jobs.now (job_at jobs.now p) (record { time = time; left = left.old }) }
    ensures followed { IfOk result (λ t. IsFollowed jobs.now (instr.Dispatch p until) (record { time = time; left = left.old }) (record { time = t; left = left.new }) finish.old finish.new) }
    ensures missed { IfErr result (λ m. (k : ℕ) → IsMissAt jobs.now (instr.Dispatch p until) k (record { time = time; left = left.old }) m) }
{
    let work = left[p as usize];
    let end = run_position(jobs, left, time, p, until);
    if work > 0 && left[p as usize] == 0 {
        let window_end = jobs[p as usize].end;
        if end > window_end {
            return Err(Miss::Late {
                position: p,
                finish: end,
                window_end,
            });
        }
        finish[p as usize] = end;
    }
    Ok(end)
}

/// Does the instruction at place `at`: the moment after it, with the work left and the finish offsets in place. It takes
/// the same time for any number of positions.
pub fn step(
    jobs: &[Job],
    instr: SInstr,
    at: u32,
    now: Moment,
    left: &mut [Time],
    finish: &mut [Time],
) -> Result<Moment, Miss>
    requires known { IsKnown (length jobs.now) instr }
    requires few { length jobs.now ≤ 128 }
    requires same { length left.old ≡ length jobs.now }
    requires finishes { length finish.old ≡ length jobs.now }
    requires pending { ArePending now.pending left.old }
    ensures followed { IfOk result (λ m. IsFollowed jobs.now instr (record { time = now.time; left = left.old }) (record { time = m.time; left = left.new }) finish.old finish.new) }
    ensures pending { IfOk result (λ m. ArePending m.pending left.new) }
    ensures missed { IfErr result (λ m. IsMissAt jobs.now instr at (record { time = now.time; left = left.old }) m) }
{
    match instr {
        SInstr::Dispatch { position, until } => {
            if let Some(predecessor) = pending_predecessor(&jobs[position as usize], now.pending) {
                return Err(Miss::Before {
                    position,
                    predecessor,
                    at,
                });
            }
            match run(jobs, position, until, now.time, left, finish) {
                Ok(time) => Ok(Moment {
                    time,
                    pending: still_pending(now.pending, position, left[position as usize]),
                }),
                Err(miss) => Err(miss),
            }
        }
        SInstr::Idle { until } => Ok(Moment {
            time: now.time.max(until as u64),
            pending: now.pending,
        }),
        SInstr::End => Ok(now),
    }
}
