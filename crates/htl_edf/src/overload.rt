// The search for an overloaded interval (the processor demand test: Baruah, Rosier and Howell 1990).
ghost use Rattle.std.specs.Prelude.{◌≡◌, ◌≤◌, ◌<◌, length, IfSome};
ghost use Rattle.htl_edf.specs.Faults.{IsReport};
ghost use Rattle.htl_edf.specs.Tight.{NoCycle};
ghost use Rattle.htl_walk.specs.WellFormed.{AreWellFormed};
ghost use Rattle.htl_edf.specs.Lists.{jobs_of, tightened, HoldsAfter};
ghost use Rattle.htl_edf.specs.Search.{demand_below, over, any_below, last_of, first_of_end};

use crate::Tight;
use htl_base::Time;
use htl_walk::Job;

/// An overloaded interval, in ticks from the start of the round or the frame, and the sum of the worst cases in it.
#[derive(Clone, Copy)]
pub struct Overload {
    pub from: Time,
    pub to: Time,
    pub demand: u64,
}

// The worst cases of the positions whose windows lie between the release of p and the end of q.
fn demand(jobs: &[Job], windows: &[Tight], p: usize, q: usize) -> u64
    requires jobs { AreWellFormed jobs.now }
    requires at { HoldsAfter jobs.now windows.now (length jobs.now) }
    requires same { length windows.now ≡ length jobs.now }
    requires p_in { p < length jobs.now }
    requires q_in { q < length jobs.now }
    ensures is { result ≡ demand_below jobs.now p q (length jobs.now) }
    ensures small { result ≤ 128000000 }
{
    let mut sum = 0u64;
    for r in 0..jobs.len() {
        if windows[p].release <= windows[r].release && windows[r].end <= windows[q].end {
            sum += jobs[r].worst;
        }
    }
    sum
}

// Whether that interval is overloaded.
fn is_over(jobs: &[Job], windows: &[Tight], p: usize, q: usize) -> bool
    requires jobs { AreWellFormed jobs.now }
    requires at { HoldsAfter jobs.now windows.now (length jobs.now) }
    requires same { length windows.now ≡ length jobs.now }
    requires p_in { p < length jobs.now }
    requires q_in { q < length jobs.now }
    ensures { result ≡ over jobs.now p q }
{
    let sum = demand(jobs, windows, p, q);
    sum > 0 && windows[q].end < windows[p].release + sum as i64
}

// Whether some interval up to the end of q is overloaded.
fn any_over(jobs: &[Job], windows: &[Tight], q: usize) -> bool
    requires jobs { AreWellFormed jobs.now }
    requires at { HoldsAfter jobs.now windows.now (length jobs.now) }
    requires same { length windows.now ≡ length jobs.now }
    requires q_in { q < length jobs.now }
    ensures { result ≡ any_below (λ p. over jobs.now p q) (length jobs.now) }
{
    let mut found = false;
    for p in 0..jobs.len() {
        found = found || is_over(jobs, windows, p, q);
    }
    found
}

// The position whose end is the greatest of an overloaded interval.
fn last_end(jobs: &[Job], windows: &[Tight]) -> Option<usize>
    requires jobs { AreWellFormed jobs.now }
    requires at { HoldsAfter jobs.now windows.now (length jobs.now) }
    requires same { length windows.now ≡ length jobs.now }
    ensures is { result ≡ last_of jobs.now (length jobs.now) }
    ensures in_range { IfSome result (λ q. q < length jobs.now) }
{
    let mut best = None;
    for q in 0..jobs.len() {
        if any_over(jobs, windows, q) {
            best = match best {
                None => Some(q),
                Some(p) => if windows[p].end < windows[q].end {
                    Some(q)
                } else {
                    Some(p)
                },
            };
        }
    }
    best
}

// The position whose release is the least of an overloaded interval up to the end of q.
fn first_release(jobs: &[Job], windows: &[Tight], q: usize) -> Option<usize>
    requires jobs { AreWellFormed jobs.now }
    requires at { HoldsAfter jobs.now windows.now (length jobs.now) }
    requires same { length windows.now ≡ length jobs.now }
    requires q_in { q < length jobs.now }
    ensures is { result ≡ first_of_end jobs.now q (length jobs.now) }
    ensures in_range { IfSome result (λ p. p < length jobs.now) }
{
    let mut best = None;
    for p in 0..jobs.len() {
        if is_over(jobs, windows, p, q) {
            best = match best {
                None => Some(p),
                Some(r) => if windows[p].release < windows[r].release {
                    Some(p)
                } else {
                    Some(r)
                },
            };
        }
    }
    best
}

/// The overloaded interval with the greatest end, and of those the one with the least release; None exactly where no
/// interval is overloaded.
pub fn find_overload(jobs: &[Job], windows: &[Tight]) -> Option<Overload>
    requires jobs { AreWellFormed jobs.now }
    requires order { NoCycle (jobs_of jobs.now) }
    requires at { HoldsAfter jobs.now windows.now (length jobs.now) }
    requires same { length windows.now ≡ length jobs.now }
    ensures { IsReport (tightened jobs.now) result }
{
    let q = last_end(jobs, windows)?;
    let p = first_release(jobs, windows, q)?;
    Some(Overload {
        from: windows[p].release as Time,
        to: windows[q].end as Time,
        demand: demand(jobs, windows, p, q),
    })
}
