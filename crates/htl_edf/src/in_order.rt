// Tightened windows in one pass each way, where predecessors make no cycle.
ghost use Rattle.std.specs.Prelude.{◌≡◌, ◌≤◌, ◌<◌, ℕ, true, length, get_or, pos};
ghost use Rattle.htl_edf.specs.Tight.{release_at, end_at};
ghost use Rattle.htl_walk.specs.WellFormed.{AreWellFormed};
ghost use Rattle.htl_edf.specs.Lists.{jobs_of, AreSuccessors, HoldsAfter, no_window};
ghost use Rattle.htl_edf.specs.Turns.{ArePredecessors};

use crate::rounds::{Tight, ended, released};
use crate::turns::Turns;
use htl_walk::Job;

/// Notes for each position the positions that it waits for.
pub fn fill_predecessors(jobs: &[Job], predecessors: &mut [u128])
    requires { length jobs.now ≤ length predecessors.old }
    ensures predecessors { ArePredecessors jobs.now predecessors.new }
    ensures len { length predecessors.new ≡ length predecessors.old }
{
    for q in 0..jobs.len() {
        predecessors[q] = jobs[q].preds;
    }
}

// Writes the tightened releases, each after those of the predecessors: whether all have one so.
fn fill_releases(
    jobs: &[Job],
    predecessors: &[u128],
    successors: &[u128],
    out: &mut [Tight],
) -> bool
    requires jobs { AreWellFormed jobs.now }
    requires predecessors { ArePredecessors jobs.now predecessors.now }
    requires rows { length jobs.now ≤ length predecessors.now }
    requires columns { length jobs.now ≤ length successors.now }
    requires same { length out.old ≡ length jobs.now }
    ensures same { length out.new ≡ length jobs.now }
    ensures releases { result ≡ true → (q : ℕ) → q < length jobs.now → (get_or out.new q no_window).release ≡ pos (release_at (jobs_of jobs.now) (length jobs.now) q) }
{
    let mut turns = Turns::new(predecessors, jobs.len());
    for k in 0..jobs.len() {
        let Some(q) = turns.take(predecessors, successors, jobs.len()) else {
            return false;
        };
        let release = released(jobs, out, q, k);
        out[q] = Tight {
            release,
            end: out[q].end,
        };
    }
    turns.waiting == 0
}

// Writes the tightened ends, each after those of the successors: whether all have one so.
fn fill_ends(jobs: &[Job], predecessors: &[u128], successors: &[u128], out: &mut [Tight]) -> bool
    requires jobs { AreWellFormed jobs.now }
    requires successors { AreSuccessors jobs.now successors.now }
    requires rows { length jobs.now ≤ length predecessors.now }
    requires columns { length jobs.now ≤ length successors.now }
    requires same { length out.old ≡ length jobs.now }
    ensures same { length out.new ≡ length jobs.now }
    ensures kept { (q : ℕ) → (get_or out.new q no_window).release ≡ (get_or out.old q no_window).release }
    ensures ends { result ≡ true → (p : ℕ) → p < length jobs.now → (get_or out.new p no_window).end ≡ end_at (jobs_of jobs.now) (length jobs.now) p }
{
    let mut turns = Turns::new(successors, jobs.len());
    for k in 0..jobs.len() {
        let Some(p) = turns.take(successors, predecessors, jobs.len()) else {
            return false;
        };
        let end = ended(jobs, successors, out, p, k);
        out[p] = Tight {
            release: out[p].release,
            end,
        };
    }
    turns.waiting == 0
}

/// Writes the tightened windows where predecessors make no cycle: whether they make none.
pub fn tighten_in_order(
    jobs: &[Job],
    predecessors: &[u128],
    successors: &[u128],
    out: &mut [Tight],
) -> bool
    requires jobs { AreWellFormed jobs.now }
    requires predecessors { ArePredecessors jobs.now predecessors.now }
    requires successors { AreSuccessors jobs.now successors.now }
    requires rows { length jobs.now ≤ length predecessors.now }
    requires columns { length jobs.now ≤ length successors.now }
    requires same { length out.old ≡ length jobs.now }
    ensures same { length out.new ≡ length jobs.now }
    ensures holds { result ≡ true → HoldsAfter jobs.now out.new (length jobs.now) }
{
    fill_releases(jobs, predecessors, successors, out)
        && fill_ends(jobs, predecessors, successors, out)
}
