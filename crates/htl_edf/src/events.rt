// The scheduler goes from event to event: a position's last tick, or a release.
ghost use Rattle.std.specs.Prelude.{◌≡◌, ℕ, ◌+◌, ◌<◌, ◌≤◌, length, cond, eqb, ltb, ◌&&◌, ◌||◌, IfSome};
ghost use Rattle.htl_model.specs.Bits.{has_bit};
ghost use Rattle.htl_edf.specs.Edf.{edf as edf_at};
ghost use Rattle.htl_edf.specs.Lists.{tightened, LeftAt, QuietFrom};
ghost use Rattle.htl_edf.specs.Ranks.{AreRanked, IsAhead, IsReleased};

use crate::bits::{next_bit, without_bit};
use crate::ranks::Ranks;
use htl_base::Time;
use htl_model::bits::with_bit;
use htl_walk::Job;

/// What is known at a time until the next release.
#[derive(Clone, Copy)]
pub struct Ahead {
    /// The next release, or the limit where none comes before it.
    pub until: Time,
    /// A bit for each rank whose position is released and has work left.
    pub ready: u128,
    /// How many positions are released.
    pub released: usize,
}

impl Ahead {
    /// Before any release is looked for.
    pub const START: Ahead = Ahead {
        until: 0,
        ready: 0,
        released: 0,
    };
}

/// Writes the ticks that each position has left at 0.
pub fn start(jobs: &[Job], left: &mut [Time])
    requires same { length left.old ≡ length jobs.now }
    ensures { LeftAt jobs.now left.new 0 }
{
    for q in 0..jobs.len() {
        left[q] = jobs[q].worst;
    }
}

// A row with one bit more, if so.
fn with_bit_if(row: u128, q: u32, is_more: bool) -> u128
    requires { q < 128 }
    ensures { (p : ℕ) → has_bit result p ≡ (has_bit row p || (eqb p q && is_more)) }
{
    if is_more { with_bit(row, q) } else { row }
}

// What is known once the positions that are released by t count as such; the next release isn't looked for.
fn release_by(ranks: Ranks<'_>, left: &[Time], t: Time, known: Ahead) -> Ahead
    requires ranked { AreRanked ranks.jobs.now ranks.by_end.now ranks.by_release.now }
    requires left_same { length left.now ≡ length ranks.jobs.now }
    requires known { IsAhead ranks.jobs.now ranks.by_end.now ranks.by_release.now left.now t known.until known.ready known.released }
    ensures { IsReleased ranks.entry.jobs.now ranks.entry.by_end.now ranks.entry.by_release.now left.now t result.ready result.released }
{
    let mut ready = known.ready;
    let mut n = known.released;
    while n < ranks.jobs.len() && ranks.release(n) <= t {
        let rank = ranks.rank_released(n);
        ready = with_bit_if(ready, rank as u32, left[ranks.position(rank)] > 0);
        n += 1;
    }
    Ahead {
        until: known.until,
        ready,
        released: n,
    }
}

/// The first release after t, or `limit` where none comes before it, and the positions that are ready at t. `known` is that
/// of an earlier time with what ran since, and is looked for anew only once its release is reached; then the positions that
/// are released by t and were not before are gone over.
pub fn horizon(ranks: Ranks<'_>, left: &[Time], t: Time, known: Ahead, limit: Time) -> Ahead
    requires ranked { AreRanked ranks.jobs.now ranks.by_end.now ranks.by_release.now }
    requires left_same { length left.now ≡ length ranks.jobs.now }
    requires early { t < limit }
    requires known_within { known.until ≤ limit }
    requires known { IsAhead ranks.jobs.now ranks.by_end.now ranks.by_release.now left.now t known.until known.ready known.released }
    ensures later { t < result.until }
    ensures within { result.until ≤ limit }
    ensures ahead { IsAhead ranks.entry.jobs.now ranks.entry.by_end.now ranks.entry.by_release.now left.now t result.until result.ready result.released }
{
    if t < known.until {
        return known;
    }
    let now = release_by(ranks, left, t, known);
    let until = if now.released < ranks.jobs.len() {
        ranks.release(now.released).min(limit)
    } else {
        limit
    };
    Ahead {
        until,
        ready: now.ready,
        released: now.released,
    }
}

// Which ranks are ready after that of k ran, which has these ticks left.
fn after_run(ready: u128, k: u32, left: Time) -> u128
    requires { k < 128 }
    ensures { (r : ℕ) → has_bit result r ≡ cond (eqb r k) (has_bit ready k && ltb 0 left) (has_bit ready r) }
{
    if left > 0 {
        ready
    } else {
        without_bit(ready, k)
    }
}

/// Runs from t to the next event: the position that ran, if any, and when the event is. The position is that of the lowest
/// rank that is ready.
pub fn advance(
    ranks: Ranks<'_>,
    left: &mut [Time],
    ahead: &mut Ahead,
    t: Time,
) -> (Option<usize>, Time)
    requires ranked { AreRanked ranks.jobs.now ranks.by_end.now ranks.by_release.now }
    requires left_same { length left.old ≡ length ranks.jobs.now }
    requires early { t < ahead.old.until }
    requires limit { ahead.old.until ≤ 1000000 }
    requires lefts { LeftAt ranks.jobs.now left.old t }
    requires ahead { IsAhead ranks.jobs.now ranks.by_end.now ranks.by_release.now left.old t ahead.old.until ahead.old.ready ahead.old.released }
    ensures later { t < result.1 }
    ensures within { result.1 ≤ ahead.old.until }
    ensures in_range { IfSome result.0 (λ p. p < length ranks.entry.jobs.now) }
    ensures runs { (i : ℕ) → t + i < result.1 → edf_at (tightened ranks.entry.jobs.now) (t + i) ≡ result.0 }
    ensures left_same { length left.new ≡ length left.old }
    ensures lefts { LeftAt ranks.entry.jobs.now left.new result.1 }
    ensures until { ahead.new.until ≡ ahead.old.until }
    ensures ahead { IsAhead ranks.entry.jobs.now ranks.entry.by_end.now ranks.entry.by_release.now left.new result.1 ahead.new.until ahead.new.ready ahead.new.released }
{
    let until = ahead.until;
    let rank = next_bit(ahead.ready, 0, ranks.jobs.len());
    if rank == ranks.jobs.len() {
        return (None, until);
    }
    let p = ranks.position(rank);
    let work = left[p];
    let event = if until - t < work { until } else { t + work };
    let rest = work - (event - t);
    left[p] = rest;
    ahead.ready = after_run(ahead.ready, rank as u32, rest);
    (Some(p), event)
}
