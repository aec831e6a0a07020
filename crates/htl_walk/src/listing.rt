//! The worst-case walk of one list of a path.
ghost use Rattle.std.specs.Prelude.{◌≡◌, ◌≤◌, ◌<◌, ℕ, length, IfSome, IfNone, IfOk, IfErr};
ghost use Rattle.htl_walk.specs.Walk.{InForm, last_point};
ghost use Rattle.htl_walk.specs.Following.{ArePending};
ghost use Rattle.htl_walk.specs.PathMisses.{IsOpen, IsListMiss, IsListClean};

use crate::departure::first_departure;
use crate::step::{Moment, step};
use crate::{Job, Miss, SInstr, Schedule};
use htl_base::Time;
use htl_model::bits::with_bit;

/// What a list of a path spans: the positions that it knows are the first `known`, and it goes from its start to the next, or to
/// the frame's end, in ticks from the frame's start.
#[derive(Clone, Copy)]
pub struct Span {
    pub known: usize,
    pub from: Time,
    pub until: Time,
}

// The lowest position that has work left and a window that ends by then.
fn first_open(jobs: &[Job], left: &[Time], until: Time) -> Option<u16>
    requires few { length left.now ≤ 128 }
    requires same { length left.now ≡ length jobs.now }
    ensures none { IfNone result ((t q : ℕ) → IsOpen jobs.now until (record { time = t; left = left.now }) q → ⊥) }
    ensures known { IfSome result (λ p. p < length left.now) }
    ensures open { IfSome result (λ p. (t : ℕ) → IsOpen jobs.now until (record { time = t; left = left.now }) p) }
    ensures lowest { IfSome result (λ p. (t q : ℕ) → q < p → IsOpen jobs.now until (record { time = t; left = left.now }) q → ⊥) }
{
    for p in 0..left.len() {
        if left[p] > 0 && jobs[p].end <= until {
            return Some(p as u16);
        }
    }
    None
}

// The positions with work left.
fn pending_of(left: &[Time]) -> u128
    requires { length left.now ≤ 128 }
    ensures { ArePending result left.now }
{
    let mut pending = 0u128;
    for p in 0..left.len() {
        if left[p] > 0 {
            pending = with_bit(pending, p as u32);
        }
    }
    pending
}

// Follows a list in form from a point to its end.
fn follow(
    jobs: &[Job],
    span: Span,
    instrs: &[SInstr],
    left: &mut [Time],
    finish: &mut [Time],
) -> Result<Time, Miss>
    requires few { length jobs.now ≤ 128 }
    requires known { span.known ≤ length jobs.now }
    requires same { length left.old ≡ length jobs.now }
    requires finishes { length finish.old ≡ length jobs.now }
    requires form { InForm span.known span.until instrs.now }
    requires instrs { length instrs.now ≤ 4294967295 }
    ensures clean { IfOk result (λ t. IsListClean span.known span.until jobs.now instrs.now (record { time = span.from; left = left.old })) }
    ensures point { IfOk result (λ t. record { time = t; left = left.new } ≡ last_point jobs.now instrs.now (record { time = span.from; left = left.old })) }
    ensures missed { IfErr result (λ m. IsListMiss span.known span.until jobs.now instrs.now (record { time = span.from; left = left.old }) m) }
{
    let pending = pending_of(left);
    let mut now = Moment {
        time: span.from,
        pending,
    };
    for k in 0..instrs.len() {
        match step(jobs, instrs[k], k as u32, now, left, finish) {
            Ok(next) => now = next,
            Err(miss) => return Err(miss),
        }
    }
    match first_open(jobs, left, span.until) {
        Some(position) => Err(Miss::Unfinished {
            position,
            left: left[position as usize],
        }),
        None => Ok(now.time),
    }
}

/// Follows one list of a path, which spans this, from its start with the work that the lists before it left. It answers the time after it, or the list's first miss.
pub fn worst_list(
    jobs: &[Job],
    span: Span,
    s: &Schedule,
    left: &mut [Time],
    finish: &mut [Time],
) -> Result<Time, Miss>
    requires few { length jobs.now ≤ 128 }
    requires known { span.known ≤ length jobs.now }
    requires same { length left.old ≡ length jobs.now }
    requires finishes { length finish.old ≡ length jobs.now }
    requires instrs { length s.now.instrs ≤ 4294967295 }
    ensures clean { IfOk result (λ t. IsListClean span.known span.until jobs.now s.now.instrs (record { time = span.from; left = left.old })) }
    ensures point { IfOk result (λ t. record { time = t; left = left.new } ≡ last_point jobs.now s.now.instrs (record { time = span.from; left = left.old })) }
    ensures missed { IfErr result (λ m. IsListMiss span.known span.until jobs.now s.now.instrs (record { time = span.from; left = left.old }) m) }
{
    let instrs = s.instrs.as_slice();
    if let Some(instr) = first_departure(instrs, span.known, span.until) {
        return Err(Miss::Order { instr });
    }
    follow(jobs, span, instrs, left, finish)
}
