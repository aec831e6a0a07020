// The positions by rank: that with the least tightened end first, of those that end together the lower.
ghost use Rattle.std.specs.Prelude.{◌≡◌, ℕ, ◌+◌, ◌<◌, ◌≤◌, ◌^◌, true, length, get_or, pos, nat_abs, ◌+ℤ◌, ◌≤ℤ◌, IfSome};
ghost use Rattle.htl_walk.specs.WellFormed.{AreWellFormed};
ghost use Rattle.htl_edf.specs.Tight.{end_at};
ghost use Rattle.htl_edf.specs.Lists.{HoldsAfter, jobs_of};
ghost use Rattle.htl_edf.specs.Ranks.{item as item_of, number_of, time_of, end_time as end_time_of, release_time, AreInOrder, AreRanked};

use crate::{Tight, tighten};
use htl_base::Time;
use htl_walk::Job;

// More than the work of a chain of jobs takes from an end.
const OFFSET: i64 = 1 << 28;

/// Jobs with their tightened windows, their positions in the order of the tightened ends, and the ranks in that order in the
/// order of the tightened releases. An item is a time and a number below 128 in one: a position with its end, or a rank with
/// its release.
#[derive(Clone, Copy)]
pub struct Ranks<'a> {
    /// The jobs, by position.
    pub jobs: &'a [Job],
    /// Their tightened windows, by position.
    pub windows: &'a [Tight],
    /// The positions with their ends, by end.
    pub by_end: &'a [u64],
    /// The ranks with their releases, by release.
    pub by_release: &'a [u64],
}

impl Ranks<'_> {
    /// The position of a rank.
    pub fn position(self, rank: usize) -> usize
        requires ranked { AreRanked self.jobs.now self.by_end.now self.by_release.now }
        requires within { rank < length self.jobs.now }
        ensures is { result ≡ number_of self.entry.by_end.now rank }
        ensures within { result < length self.entry.jobs.now }
    {
        (self.by_end[rank] % 128) as usize
    }

    /// The rank of the n-th position to be released.
    pub fn rank_released(self, n: usize) -> usize
        requires ranked { AreRanked self.jobs.now self.by_end.now self.by_release.now }
        requires within { n < length self.jobs.now }
        ensures is { result ≡ number_of self.entry.by_release.now n }
        ensures within { result < length self.entry.jobs.now }
    {
        (self.by_release[n] % 128) as usize
    }

    /// The release of the n-th position to be released.
    pub fn release(self, n: usize) -> Time
        requires ranked { AreRanked self.jobs.now self.by_end.now self.by_release.now }
        requires within { n < length self.jobs.now }
        ensures { result ≡ time_of self.entry.by_release.now n }
    {
        self.by_release[n] / 128
    }

    /// Whether all ran in time so far, and what ran up to an event, if anything did, ran within its tightened window.
    pub fn stays_in_time(self, so_far: bool, runs: Option<usize>, event: Time) -> bool
        requires windows { HoldsAfter self.jobs.now self.windows.now (length self.jobs.now) }
        requires windows_same { length self.windows.now ≡ length self.jobs.now }
        requires within { IfSome runs (λ p. p < length self.jobs.now) }
        requires early { event ≤ 1000000 }
        ensures { result ≡ true → (so_far ≡ true) × IfSome runs (λ p. pos event ≤ℤ end_at (jobs_of self.entry.jobs.now) (length self.entry.jobs.now) p) }
    {
        match runs {
            Some(p) => so_far && event as i64 <= self.windows[p].end,
            None => so_far,
        }
    }
}

// A time and a number in one.
fn item(time: u64, number: usize) -> u64
    requires early { time < 2 ^ 32 }
    requires low { number < 128 }
    ensures { result ≡ item_of time number }
{
    time * 128 + number as u64
}

// An end from the instant on that is `OFFSET` before 0.
fn end_time(end: i64) -> u64
    requires least { pos 0 ≤ℤ (end +ℤ pos 268435456) }
    requires most { end ≤ℤ pos 1000000 }
    ensures is { result ≡ nat_abs (end +ℤ pos 268435456) }
    ensures small { result < 2 ^ 32 }
{
    (end + OFFSET) as u64
}

// Writes each position with its end.
fn fill_ends(jobs: &[Job], windows: &[Tight], items: &mut [u64])
    requires jobs { AreWellFormed jobs.now }
    requires at { HoldsAfter jobs.now windows.now (length jobs.now) }
    requires same { length windows.now ≡ length jobs.now }
    requires items_same { length items.old ≡ length jobs.now }
    ensures { (q : ℕ) → q < length jobs.now → get_or items.new q 0 ≡ item_of (end_time_of jobs.now q) q }
{
    for q in 0..jobs.len() {
        items[q] = item(end_time(windows[q].end), q);
    }
}

// Writes each rank with the release of its position.
fn fill_releases(jobs: &[Job], windows: &[Tight], by_end: &[u64], items: &mut [u64])
    requires jobs { AreWellFormed jobs.now }
    requires at { HoldsAfter jobs.now windows.now (length jobs.now) }
    requires same { length windows.now ≡ length jobs.now }
    requires ends { AreInOrder (length jobs.now) (end_time_of jobs.now) by_end.now }
    requires items_same { length items.old ≡ length jobs.now }
    ensures { (rank : ℕ) → rank < length jobs.now → get_or items.new rank 0 ≡ item_of (release_time jobs.now (number_of by_end.now rank)) rank }
{
    for rank in 0..jobs.len() {
        let q = (by_end[rank] % 128) as usize;
        items[rank] = item(windows[q].release as u64, rank);
    }
}

// Writes the positions by end and the ranks by release, as `Ranks` has them.
fn rank(jobs: &[Job], windows: &[Tight], by_end: &mut [u64], by_release: &mut [u64])
    requires jobs { AreWellFormed jobs.now }
    requires at { HoldsAfter jobs.now windows.now (length jobs.now) }
    requires same { length windows.now ≡ length jobs.now }
    requires ends_same { length by_end.old ≡ length jobs.now }
    requires releases_same { length by_release.old ≡ length jobs.now }
    ensures { AreRanked jobs.now by_end.new by_release.new }
{
    fill_ends(jobs, windows, by_end);
    by_end.sort_unstable();
    fill_releases(jobs, windows, by_end, by_release);
    by_release.sort_unstable();
}

/// Writes the tightened windows of jobs, and their positions by end and their ranks by release, as `Ranks` has them. Beside
/// the cost of `tighten` it takes the time of two sorts.
#[tactic(auto, using(crate::proofs::Jumps::holds_all))]
pub fn rank_jobs(jobs: &[Job], windows: &mut [Tight], by_end: &mut [u64], by_release: &mut [u64])
    requires jobs { AreWellFormed jobs.now }
    requires same { length windows.old ≡ length jobs.now }
    requires ends_same { length by_end.old ≡ length jobs.now }
    requires releases_same { length by_release.old ≡ length jobs.now }
    ensures windows { HoldsAfter jobs.now windows.new (length jobs.now) }
    ensures ranked { AreRanked jobs.now by_end.new by_release.new }
{
    tighten(jobs, windows);
    rank(jobs, windows, by_end, by_release);
}
