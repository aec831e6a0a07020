// The worst-case walk of a schedule.
ghost use Rattle.std.specs.Prelude.{◌≡◌, ◌≤◌, ◌<◌, ℕ, length, get_or, All, Some, IfSome, IfErr, IfNone, OnOk, OnErr};
ghost use Rattle.htl_walk.specs.Walk.{InForm, ScheduleIsAccepted, work, worst_cases, walk, finish as finish_of};
ghost use Rattle.htl_walk.specs.Following.{ArePending};
ghost use Rattle.htl_walk.specs.Misses.{IsFirstMiss};
ghost use Rattle.htl_walk.specs.Refinement.{HasWork};

use crate::departure::first_departure;
use crate::step::{Moment, step};
use crate::{Job, Miss, SInstr, Schedule};
use htl_base::Time;
use htl_base::limits::MAX_POSITIONS;
use htl_model::bits::with_bit;

// The work of present jobs with their worst cases: the positions with work left.
fn fill_worst(jobs: &[Job], left: &mut [Time]) -> u128
    requires few { length jobs.now ≤ 128 }
    requires same { length left.old ≡ length jobs.now }
    requires present { All HasWork jobs.now }
    ensures work { left.new ≡ work jobs.now (worst_cases jobs.now) }
    ensures pending { ArePending result left.new }
{
    let mut pending = 0u128;
    for p in 0..jobs.len() {
        left[p] = jobs[p].worst;
        pending = with_bit(pending, p as u32);
    }
    pending
}

// The lowest position that has work left.
fn first_open(left: &[Time]) -> Option<u16>
    requires { length left.now ≤ 128 }
    ensures none { IfNone result ((q : ℕ) → get_or left.now q 0 ≡ 0) }
    ensures left { IfSome result (λ p. 0 < get_or left.now p 0) }
    ensures lowest { IfSome result (λ p. (q : ℕ) → q < p → get_or left.now q 0 ≡ 0) }
{
    for p in 0..left.len() {
        if left[p] > 0 {
            return Some(p as u16);
        }
    }
    None
}

// The finish offsets of the worst-case walk of a schedule in form, or its first miss.
fn follow(
    jobs: &[Job],
    instrs: &[SInstr],
    period: Time,
    left: &mut [Time],
    finish: &mut [Time],
) -> Result<(), Miss>
    requires few { length jobs.now ≤ 128 }
    requires present { All HasWork jobs.now }
    requires same { length left.old ≡ length jobs.now }
    requires finishes { length finish.old ≡ length jobs.now }
    requires form { InForm (length jobs.now) period instrs.now }
    requires instrs { length instrs.now ≤ 4294967295 }
    ensures accepted { OnOk result (ScheduleIsAccepted jobs.now period instrs.now) }
    ensures finishes { OnOk result ((p : ℕ) → p < length jobs.now → finish_of (walk jobs.now (worst_cases jobs.now) instrs.now) p ≡ Some (get_or finish.new p 0)) }
    ensures missed { IfErr result (λ m. IsFirstMiss jobs.now period instrs.now m) }
    ensures refused { OnErr result (ScheduleIsAccepted jobs.now period instrs.now → ⊥) }
{
    let pending = fill_worst(jobs, left);
    let mut now = Moment { time: 0, pending };
    for k in 0..instrs.len() {
        match step(jobs, instrs[k], k as u32, now, left, finish) {
            Ok(next) => now = next,
            Err(miss) => return Err(miss),
        }
    }
    match first_open(left) {
        Some(position) => Err(Miss::Unfinished {
            position,
            left: left[position as usize],
        }),
        None => Ok(()),
    }
}

/// Follows the worst-case walk of a schedule over at most 128 present jobs, whose worst cases are at least 1. It has at
/// most 4,294,967,295 instructions, and there are as many finish offsets as jobs.
///
/// It answers Ok exactly where the schedule is accepted: it is in form, each position is done in its window, and at each
/// dispatch of a position, whether or not it runs, each of its predecessors is done. Then `finish` holds the offset at
/// which each position finishes.
///
/// Otherwise it answers the first miss, and the entries of `finish` may have changed. `Order` comes before all others: the
/// first instruction that is no dispatch of a known position and no idle until an offset within the period, `End` in
/// front of the last place, or the length where `End` lacks. In the order of the walk then come `Before`, with the lowest
/// predecessor that isn't done at a dispatch, and `Late`, for a position that finishes after its window. At the end of
/// the list comes `Unfinished`, for the lowest position that has work left.
///
/// Two passes over the instructions and one over the jobs; an instruction takes the same time for any number of jobs.
pub fn worst(jobs: &[Job], s: &Schedule, period: Time, finish: &mut [Time]) -> Result<(), Miss>
    requires few { length jobs.now ≤ 128 }
    requires present { All HasWork jobs.now }
    requires finishes { length finish.old ≡ length jobs.now }
    requires instrs { length s.now.instrs ≤ 4294967295 }
    ensures accepted { OnOk result (ScheduleIsAccepted jobs.now period s.now.instrs) }
    ensures finishes { OnOk result ((p : ℕ) → p < length jobs.now → finish_of (walk jobs.now (worst_cases jobs.now) s.now.instrs) p ≡ Some (get_or finish.new p 0)) }
    ensures missed { IfErr result (λ m. IsFirstMiss jobs.now period s.now.instrs m) }
    ensures refused { OnErr result (ScheduleIsAccepted jobs.now period s.now.instrs → ⊥) }
{
    let instrs = s.instrs.as_slice();
    if let Some(instr) = first_departure(instrs, jobs.len(), period) {
        return Err(Miss::Order { instr });
    }
    let mut left = [0; MAX_POSITIONS];
    follow(jobs, instrs, period, &mut left[..jobs.len()], finish)
}
