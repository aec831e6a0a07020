// Earliest deadline first.
ghost use Rattle.std.specs.Prelude.{◌≡◌, ◌≤◌, ◌+◌, ℕ, length, IfOk, OnOk, IfErr};
ghost use Rattle.htl_walk.specs.Walk.{ScheduleIsAccepted};
ghost use Rattle.htl_edf.specs.Windows.{NoOverload};
ghost use Rattle.htl_edf.specs.Tight.{NoCycle};
ghost use Rattle.htl_walk.specs.WellFormed.{AreWellFormed, EndWithin};
ghost use Rattle.htl_edf.specs.Lists.{jobs_of, tightened, HoldsAfter};
ghost use Rattle.htl_edf.specs.Code.{edf_schedule};
ghost use Rattle.htl_edf.specs.Faults.{Explains, IsReport};

use crate::Tight;
use crate::events::start;
use crate::overload::{Overload, find_overload};
use crate::parts::{are_done, run_part, run_until};
use crate::ranks::{Ranks, rank_jobs};
use htl_base::limits::MAX_POSITIONS;
use htl_base::{Seq, Time};
use htl_walk::{Job, Schedule};
use std::alloc::Global;

/// Why there is no schedule.
#[derive(Clone, Copy, PartialEq, Eq, Debug)]
pub enum EdfFault {
    /// The positions whose tightened windows begin at `from` or later and end by `to`, at least one, have worst cases that
    /// sum to `demand`, which is more than `to - from`. Of the intervals with such a demand this one has the greatest end
    /// among the tightened ends, and then the least start among the tightened releases. `from` can be after `to`:
    /// a position may wait for another that is released when its own window has ended.
    Overload { from: Time, to: Time, demand: u64 },
    /// No memory was left.
    Memory,
}

// Why there is no schedule, where earliest deadline first is late or memory was short: the overloaded interval, and else want of
// memory.
fn refusal(jobs: &[Job], windows: &[Tight]) -> EdfFault
    requires jobs { AreWellFormed jobs.now }
    requires order { NoCycle (jobs_of jobs.now) }
    requires at { HoldsAfter jobs.now windows.now (length jobs.now) }
    requires same { length windows.now ≡ length jobs.now }
    ensures { (period : ℕ) → Explains jobs.now period result }
{
    match find_overload(jobs, windows) {
        Some(i) => EdfFault::Overload {
            from: i.from,
            to: i.to,
            demand: i.demand,
        },
        None => EdfFault::Memory,
    }
}

// The schedule, with room for the windows and the work left. An interval is overloaded exactly where a position is late, so
// the search for it is made only then.
fn schedule(
    alloc: Global,
    jobs: &[Job],
    period: Time,
    windows: &mut [Tight],
    left: &mut [Time],
) -> Result<Schedule, EdfFault>
    requires jobs { AreWellFormed jobs.now }
    requires order { NoCycle (jobs_of jobs.now) }
    requires period { period ≤ 1000000 }
    requires ends { EndWithin jobs.now period }
    requires windows_same { length windows.old ≡ length jobs.now }
    requires left_same { length left.old ≡ length jobs.now }
    ensures schedule { IfOk result (λ s. s.instrs ≡ edf_schedule jobs.now period) }
    ensures accepted { IfOk result (λ s. ScheduleIsAccepted jobs.now period s.instrs) }
    ensures short { IfOk result (λ s. length s.instrs ≤ period + 1) }
    ensures fits { OnOk result (NoOverload (tightened jobs.now)) }
    ensures fault { IfErr result (λ e. Explains jobs.now period e) }
{
    let mut ends = [0; MAX_POSITIONS];
    let mut releases = [0; MAX_POSITIONS];
    let by_end = &mut ends[..jobs.len()];
    let by_release = &mut releases[..jobs.len()];
    rank_jobs(jobs, windows, by_end, by_release);
    start(jobs, left);
    let ranks = Ranks {
        jobs,
        windows,
        by_end,
        by_release,
    };
    let Ok(part) = run_part(alloc, ranks, left, 0, period, true) else {
        return Err(refusal(jobs, windows));
    };
    let is_done = are_done(left);
    if part.is_in_time && is_done {
        return Ok(Schedule {
            instrs: Seq::new(part.instrs),
        });
    }
    Err(refusal(jobs, windows))
}

/// The interval that `edf` reports for such jobs, whose windows may end after the period; None where none is overloaded. No
/// memory is taken. The cost is that of `edf`.
#[tactic(auto, using(crate::proofs::InTime::none_overloaded))]
pub fn overload_of(jobs: &[Job], period: Time) -> Option<Overload>
    requires jobs { AreWellFormed jobs.now }
    requires order { NoCycle (jobs_of jobs.now) }
    requires period { period ≤ 1000000 }
    ensures { IsReport (tightened jobs.now) result }
{
    let mut windows = [Tight { release: 0, end: 0 }; MAX_POSITIONS];
    let mut ends = [0; MAX_POSITIONS];
    let mut releases = [0; MAX_POSITIONS];
    let mut left = [0; MAX_POSITIONS];
    let windows = &mut windows[..jobs.len()];
    let by_end = &mut ends[..jobs.len()];
    let by_release = &mut releases[..jobs.len()];
    let left = &mut left[..jobs.len()];
    rank_jobs(jobs, windows, by_end, by_release);
    start(jobs, left);
    let ranks = Ranks {
        jobs,
        windows,
        by_end,
        by_release,
    };
    let is_in_time = run_until(ranks, left, 0, period);
    let is_done = are_done(left);
    if is_in_time && is_done {
        return None;
    }
    find_overload(jobs, windows)
}

/// The schedule of earliest deadline first (Dertouzos 1974, Horn 1974) over the tightened windows: at each tick the released
/// position with work left and the least tightened end runs, of several the lowest. Each maximal interval in which one
/// position runs gives a dispatch until its end, and `End` comes last.
///
/// All of at most 128 jobs are present, with `release < end <= 1,000,000` and `1 <= worst <= 1,000,000`; predecessors make
/// no cycle. The period is at most 1,000,000, and each window ends within it.
///
/// `worst` accepts the schedule. `Overload` comes exactly where an interval is overloaded, which is exactly where no S
/// code whatever is accepted for these jobs; want of memory comes only where there is a schedule.
///
/// Beside the cost of `tighten` it sorts the positions by end and by release. Then it goes from event to event, an event
/// being a release or the end of a position's work, at a cost that doesn't depend on the number of jobs. Only where there is
/// no schedule is the interval searched for, in up to the cube of the number of jobs.
pub fn edf(alloc: Global, jobs: &[Job], period: Time) -> Result<Schedule, EdfFault>
    requires jobs { AreWellFormed jobs.now }
    requires order { NoCycle (jobs_of jobs.now) }
    requires period { period ≤ 1000000 }
    requires ends { EndWithin jobs.now period }
    ensures schedule { IfOk result (λ s. s.instrs ≡ edf_schedule jobs.now period) }
    ensures accepted { IfOk result (λ s. ScheduleIsAccepted jobs.now period s.instrs) }
    ensures short { IfOk result (λ s. length s.instrs ≤ period + 1) }
    ensures fits { OnOk result (NoOverload (tightened jobs.now)) }
    ensures fault { IfErr result (λ e. Explains jobs.now period e) }
{
    let mut windows = [Tight { release: 0, end: 0 }; MAX_POSITIONS];
    let mut left = [0; MAX_POSITIONS];
    let count = jobs.len();
    schedule(
        alloc,
        jobs,
        period,
        &mut windows[..count],
        &mut left[..count],
    )
}
