// Tightened windows.
ghost use Rattle.std.specs.Prelude.{◌≡◌, ◌≤◌, ◌<◌, ℕ, suc, true, false, length, get_or, pos};
ghost use Rattle.htl_model.specs.Bits.{cell};
ghost use Rattle.htl_edf.specs.Tight.{release_at, end_at};
ghost use Rattle.htl_edf.specs.Lists.{jobs_of, AreSuccessors, HoldsAfter, AgreeBelow, AreTightened, no_window};
ghost use Rattle.htl_walk.specs.Jobs.{absent_job};
ghost use Rattle.htl_walk.specs.WellFormed.{AreWellFormed};

use crate::bits::{next_bit, note_in_rows};
use crate::in_order::{fill_predecessors, tighten_in_order};
use htl_base::limits::MAX_POSITIONS;
use htl_walk::Job;

/// The tightened window of a position: each schedule that meets all windows, after all predecessors, gives the position
/// ticks of this window alone. Both are ticks from the start of the round or the frame; the end may be negative.
#[derive(Clone, Copy, PartialEq, Eq, Debug)]
pub struct Tight {
    /// The first tick that may be the position's own.
    pub release: i64,
    /// The end of the window, which isn't in it.
    pub end: i64,
}

// Notes for each position the positions that wait for it.
fn fill_successors(jobs: &[Job], successors: &mut [u128])
    requires few { length successors.old ≤ 128 }
    requires room { length jobs.now ≤ length successors.old }
    requires empty { (p q : ℕ) → cell successors.old p q ≡ false }
    ensures successors { AreSuccessors jobs.now successors.new }
    ensures len { length successors.new ≡ length successors.old }
{
    for q in 0..jobs.len() {
        note_in_rows(jobs[q].preds, q as u32, successors);
    }
}

/// The release of q after its predecessors, whose releases are those of `so_far`, over chains of at most k of them.
pub fn released(jobs: &[Job], so_far: &[Tight], q: usize, k: usize) -> i64
    requires jobs { AreWellFormed jobs.now }
    requires same { length so_far.now ≡ length jobs.now }
    requires q_in { q < length jobs.now }
    requires rounds { k ≤ 128 }
    requires at { (p : ℕ) → p < length jobs.now → (jobs_of jobs.now).before p q ≡ true → (get_or so_far.now p no_window).release ≡ pos (release_at (jobs_of jobs.now) k p) }
    ensures { result ≡ pos (release_at (jobs_of jobs.now) (suc k) q) }
{
    let mut latest = jobs[q].release as i64;
    let mut p = next_bit(jobs[q].preds, 0, jobs.len());
    while p < jobs.len() {
        latest = latest.max(so_far[p].release + jobs[p].worst as i64);
        p = next_bit(jobs[q].preds, p + 1, jobs.len());
    }
    latest
}

/// The end of p before its successors, whose ends are those of `so_far`, over chains of at most k of them.
pub fn ended(jobs: &[Job], successors: &[u128], so_far: &[Tight], p: usize, k: usize) -> i64
    requires jobs { AreWellFormed jobs.now }
    requires successors { AreSuccessors jobs.now successors.now }
    requires rows { length jobs.now ≤ length successors.now }
    requires same { length so_far.now ≡ length jobs.now }
    requires p_in { p < length jobs.now }
    requires rounds { k ≤ 128 }
    requires at { (q : ℕ) → q < length jobs.now → (jobs_of jobs.now).before p q ≡ true → (get_or so_far.now q no_window).end ≡ end_at (jobs_of jobs.now) k q }
    ensures { result ≡ end_at (jobs_of jobs.now) (suc k) p }
{
    let mut earliest = jobs[p].end as i64;
    let mut q = next_bit(successors[p], 0, jobs.len());
    while q < jobs.len() {
        earliest = earliest.min(so_far[q].end - jobs[q].worst as i64);
        q = next_bit(successors[p], q + 1, jobs.len());
    }
    earliest
}

// One round: each window from those of the round before.
fn round(jobs: &[Job], successors: &[u128], so_far: &[Tight], next: &mut [Tight], k: usize)
    requires jobs { AreWellFormed jobs.now }
    requires successors { AreSuccessors jobs.now successors.now }
    requires rows { length jobs.now ≤ length successors.now }
    requires same { length so_far.now ≡ length jobs.now }
    requires next_same { length next.old ≡ length jobs.now }
    requires rounds { k ≤ 128 }
    requires at { HoldsAfter jobs.now so_far.now k }
    ensures { HoldsAfter jobs.now next.new (suc k) }
{
    for q in 0..jobs.len() {
        next[q] = Tight {
            release: released(jobs, so_far, q, k),
            end: ended(jobs, successors, so_far, q, k),
        };
    }
}

// The windows as the jobs have them.
fn fill(jobs: &[Job], out: &mut [Tight])
    requires jobs { AreWellFormed jobs.now }
    requires same { length out.old ≡ length jobs.now }
    ensures { HoldsAfter jobs.now out.new 0 }
{
    for q in 0..jobs.len() {
        out[q] = Tight {
            release: jobs[q].release as i64,
            end: jobs[q].end as i64,
        };
    }
}

// Whether the windows are the same, position by position.
fn are_same(a: &[Tight], b: &[Tight]) -> bool
    requires { length a.now ≡ length b.now }
    ensures { result ≡ true → AgreeBelow (length a.now) a.now b.now }
{
    for q in 0..a.len() {
        if a[q].release != b[q].release || a[q].end != b[q].end {
            return false;
        }
    }
    true
}

// Writes the windows round by round, until a round changes none.
fn tighten_in_rounds(jobs: &[Job], successors: &[u128], out: &mut [Tight])
    requires jobs { AreWellFormed jobs.now }
    requires successors { AreSuccessors jobs.now successors.now }
    requires rows { length jobs.now ≤ length successors.now }
    requires same { length out.old ≡ length jobs.now }
    ensures { AreTightened jobs.now out.new }
{
    let mut last = [Tight { release: 0, end: 0 }; MAX_POSITIONS];
    fill(jobs, out);
    for k in 0..jobs.len() {
        let before = &mut last[..jobs.len()];
        before.copy_from_slice(out);
        round(jobs, successors, before, out, k);
        if are_same(before, out) {
            return;
        }
    }
}

// Whether no position waits for another.
fn are_free(jobs: &[Job]) -> bool
    ensures { result ≡ true → (q : ℕ) → q < length jobs.now → (get_or jobs.now q absent_job).preds ≡ 0 }
{
    jobs.iter().all(|job| job.preds == 0)
}

/// Writes the tightened windows of at most 128 jobs to `out`, which is as long as `jobs`. A release is the greatest of the
/// job's own and, over its direct predecessors, their tightened releases and worst cases together; an end is the least of
/// the job's own and, over its direct successors, their tightened ends less their worst cases (Blazewicz 1976; Chetto,
/// Silly and Bouchentouf 1990). Exactly the schedules that meet the jobs' windows meet the tightened ones: the laws
/// `tight_windows` and `tightening`.
///
/// All jobs are present, with `release < end <= 1,000,000` and `1 <= worst <= 1,000,000`. Predecessors that make a cycle
/// have no tightened windows; what is written then means nothing. A bit of `preds` at the number of jobs or above names no
/// position and is passed over.
///
/// Each way one pass over the positions and over the pairs of a position and a direct predecessor; where there is no such pair,
/// one pass over the positions. Only with a cycle there are such passes up to the number of jobs.
pub fn tighten(jobs: &[Job], out: &mut [Tight])
    requires jobs { AreWellFormed jobs.now }
    requires same { length out.old ≡ length jobs.now }
    ensures { AreTightened jobs.now out.new }
{
    if are_free(jobs) {
        fill(jobs, out);
        return;
    }
    let mut predecessors = [0u128; MAX_POSITIONS];
    let mut successors = [0u128; MAX_POSITIONS];
    fill_predecessors(jobs, &mut predecessors);
    fill_successors(jobs, &mut successors);
    if !tighten_in_order(jobs, &predecessors, &successors, out) {
        tighten_in_rounds(jobs, &successors, out);
    }
}
