// A schedule for each node of a frame.
ghost use Rattle.std.specs.Prelude.{◌≡◌, ◌≤◌, ◌<◌, ℕ, true, length, pos, None, IfOk, OnOk, IfErr, MatchOption};
ghost use Rattle.htl_model.specs.Frames.{frame_limit, starts as starts_of, paths as paths_of, nodes as nodes_of_frame};
ghost use Rattle.htl_model.specs.FrameRules.{KeptApart};
ghost use Rattle.htl_model.specs.FrameTables.{IsFrame};
ghost use Rattle.htl_walk.specs.PathJobs.{path_jobs as path_jobs_of};
ghost use Rattle.htl_walk.specs.WellFormed.{AreWellFormed};
ghost use Rattle.htl_walk.specs.Feasible.{AreFeasible};
ghost use Rattle.htl_walk.specs.NodeWalks.{instrs_of as lists_in};
ghost use Rattle.htl_edf.specs.Windows.{NoOverload, Reported};
ghost use Rattle.htl_edf.specs.Lists.{tightened, LeftAt, HoldsAfter};
ghost use Rattle.htl_edf.specs.Ranks.{AreRanked};
ghost use Rattle.htl_edf.specs.NodePlans.{AreReady, ArePlannedTo, AreNodeLists, ExplainsNodes};
ghost use Rattle.htl_edf.specs.Faults.{IsReport};

use crate::events::start;
pub use crate::overload::Overload;
use crate::overload::find_overload;
use crate::parts::{are_done, run_part, run_until};
use crate::ranks::{Ranks, rank_jobs};
use crate::scheduler::overload_of;
use crate::{PlanFault, Tight};
use htl_base::limits::MAX_POSITIONS;
use htl_base::{Seq, Time};
use htl_model::Tables;
use htl_model::frame::Frame;
use htl_walk::node_walk::{fork, node};
use htl_walk::{Job, Schedule, frame_jobs};
use std::alloc::{AllocError, Global};

// The interval that is reported for a path, if one is overloaded.
fn path_overload(t: &Tables, f: &Frame, path: u32) -> Option<Overload>
    requires frame { IsFrame t.now f.now }
    requires ready { AreReady t.now }
    requires path { path < paths_of t.now }
    ensures { IsReport (tightened (path_jobs_of t.now path)) result }
{
    let mut jobs = [Job::ABSENT; MAX_POSITIONS];
    let count = frame_jobs(t, f, path, &mut jobs);
    overload_of(&jobs[..count], f.starts[f.count])
}

// A path of a frame, and the first of its lists that it doesn't share with the path before it.
#[derive(Clone, Copy)]
struct Path<'a> {
    tables: &'a Tables,
    frame: &'a Frame,
    number: u32,
    first: usize,
}

// Makes the lists of a path that it doesn't share, from its jobs with their worst cases left: whether all work is done in time.
fn plan_lists(
    alloc: Global,
    path: Path<'_>,
    ranks: Ranks<'_>,
    left: &mut [Time],
    v: &mut Vec<Schedule>,
) -> Result<bool, AllocError>
    requires frame { IsFrame path.tables.now path.frame.now }
    requires ready { AreReady path.tables.now }
    requires path { path.number < paths_of path.tables.now }
    requires first { path.first ≤ length (starts_of path.tables.now) }
    requires planned { ArePlannedTo path.tables.now v.old.items path.number path.first }
    requires jobs { ranks.jobs.now ≡ path_jobs_of path.tables.now path.number }
    requires ranked { AreRanked ranks.jobs.now ranks.by_end.now ranks.by_release.now }
    requires windows { HoldsAfter ranks.jobs.now ranks.windows.now (length ranks.jobs.now) }
    requires windows_same { length ranks.windows.now ≡ length ranks.jobs.now }
    requires left_same { length left.old ≡ length ranks.jobs.now }
    requires lefts { LeftAt ranks.jobs.now left.old 0 }
    ensures planned { OnOk result (ArePlannedTo path.entry.tables.now v.new.items path.entry.number (length (starts_of path.entry.tables.now))) }
    ensures fits { IfOk result (λ b. b ≡ true → NoOverload (tightened (path_jobs_of path.entry.tables.now path.entry.number))) }
{
    let starts = path.frame.starts;
    let mut is_in_time = run_until(ranks, left, 0, starts[path.first]);
    for j in path.first..path.frame.count {
        let part = run_part(alloc, ranks, left, starts[j], starts[j + 1], is_in_time)?;
        is_in_time = part.is_in_time;
        v[node(path.tables, path.frame, path.number, j) as usize] = Schedule {
            instrs: Seq::new(part.instrs),
        };
    }
    let is_done = are_done(left);
    Ok(is_in_time && is_done)
}

// Makes the lists of a path that it doesn't share, and finds the interval that is reported for it, if one is overloaded.
fn plan_path(
    alloc: Global,
    path: Path<'_>,
    v: &mut Vec<Schedule>,
) -> Result<Option<Overload>, AllocError>
    requires frame { IsFrame path.tables.now path.frame.now }
    requires ready { AreReady path.tables.now }
    requires path { path.number < paths_of path.tables.now }
    requires first { path.first ≤ length (starts_of path.tables.now) }
    requires planned { ArePlannedTo path.tables.now v.old.items path.number path.first }
    ensures planned { OnOk result (ArePlannedTo path.entry.tables.now v.new.items path.entry.number (length (starts_of path.entry.tables.now))) }
    ensures overload { IfOk result (IsReport (tightened (path_jobs_of path.entry.tables.now path.entry.number))) }
{
    let mut room = [Job::ABSENT; MAX_POSITIONS];
    let count = frame_jobs(path.tables, path.frame, path.number, &mut room);
    let jobs = &room[..count];
    let mut windows = [Tight { release: 0, end: 0 }; MAX_POSITIONS];
    let mut ends = [0; MAX_POSITIONS];
    let mut releases = [0; MAX_POSITIONS];
    let mut left = [0; MAX_POSITIONS];
    let windows = &mut windows[..count];
    let by_end = &mut ends[..count];
    let by_release = &mut releases[..count];
    let left = &mut left[..count];
    rank_jobs(jobs, windows, by_end, by_release);
    start(jobs, left);
    let ranks = Ranks {
        jobs,
        windows,
        by_end,
        by_release,
    };
    if plan_lists(alloc, path, ranks, left, v)? {
        return Ok(None);
    }
    Ok(find_overload(jobs, windows))
}

// As many empty schedules.
fn empty_lists(alloc: Global, n: u32) -> Result<Vec<Schedule>, AllocError>
    ensures { IfOk result (λ v. length v.items ≡ n) }
{
    let mut v = Vec::new(alloc);
    let mut k = 0;
    while k < n {
        v.push(Schedule {
            instrs: Seq::new(Vec::new(alloc)),
        })?;
        k += 1;
    }
    Ok(v)
}

/// The first path that is overloaded, with the interval that `edf` reports for its jobs; None where none is.
///
/// The numbers are those of the tables' frame, and the jobs of every path are as the scheduler asks: windows of some ticks
/// within the frame, small numbers, and predecessors without a cycle. So they are where the form rules are kept, by the law
/// `ready`, and then with any worst case of a task, by the law `ready_with_worst`.
///
/// Each path up to the one that is found is run through the whole frame, as `edf` does; no list is made and no memory taken.
pub fn first_overload(t: &Tables, f: &Frame) -> Option<(u32, Overload)>
    requires frame { IsFrame t.now f.now }
    requires ready { AreReady t.now }
    ensures { MatchOption result ((k : ℕ) → k < paths_of t.now → NoOverload (tightened (path_jobs_of t.now k)))
        (λ o. (o.0 < paths_of t.now) × ((k : ℕ) → k < o.0 → NoOverload (tightened (path_jobs_of t.now k))) × Reported (tightened (path_jobs_of t.now o.0)) o.1.from (pos o.1.to) o.1.demand) }
{
    for path in 0..f.paths {
        if let Some(interval) = path_overload(t, f, path) {
            return Some((path, interval));
        }
    }
    None
}

// The fault where memory is short: the first path that is overloaded, and else want of memory.
fn without_memory(t: &Tables, f: &Frame) -> PlanFault
    requires frame { IsFrame t.now f.now }
    requires ready { AreReady t.now }
    ensures { ExplainsNodes t.now result }
{
    match first_overload(t, f) {
        Some((path, interval)) => overloaded(path, interval),
        None => PlanFault::Memory,
    }
}

// The fault of an overloaded path.
fn overloaded(path: u32, interval: Overload) -> PlanFault
    ensures { result ≡ PlanFault.Overload path interval.from interval.to interval.demand }
{
    PlanFault::Overload {
        selection: path,
        from: interval.from,
        to: interval.to,
        demand: interval.demand,
    }
}

/// The schedules of earliest deadline first for the nodes, as `edf_nodes` gives them, of tables that keep the limits of
/// frames and whose jobs are as `first_overload` asks.
pub fn plan_nodes(alloc: Global, t: &Tables) -> Result<Vec<Schedule>, PlanFault>
    requires limits { frame_limit t.now ≡ None }
    requires ready { AreReady t.now }
    ensures count { IfOk result (λ v. length v.items ≡ nodes_of_frame t.now) }
    ensures lists { IfOk result (λ v. AreNodeLists t.now (lists_in v.items)) }
    ensures accepted { IfOk result (λ v. AreFeasible t.now (lists_in v.items)) }
    ensures fits { OnOk result ((path : ℕ) → path < paths_of t.now → NoOverload (tightened (path_jobs_of t.now path))) }
    ensures fault { IfErr result (λ e. ExplainsNodes t.now e) }
{
    let f = Frame::survey(t);
    let Ok(mut v) = empty_lists(alloc, f.nodes) else {
        return Err(without_memory(t, &f));
    };
    for number in 0..f.paths {
        let first = if number == 0 {
            0
        } else {
            fork(t, &f, number - 1)
        };
        let path = Path {
            tables: t,
            frame: &f,
            number,
            first,
        };
        match plan_path(alloc, path, &mut v) {
            Ok(None) => {}
            Ok(Some(interval)) => return Err(overloaded(number, interval)),
            Err(_) => return Err(without_memory(t, &f)),
        }
    }
    Ok(v)
}

/// The schedules of earliest deadline first for the nodes, in their order. The tables keep the form rules 1 and 3 to 12 and
/// the limits of frames.
///
/// A node has the part of `edf`'s schedule of the jobs of each path through it, from its start to the next one or to the
/// frame's end, with intervals cut at the starts; all these paths give the same part. Every path accepts the lists of its
/// nodes. `Overload` comes exactly where a path is overloaded, and names the first; then no lists whatever are accepted.
/// Want of memory comes only where none is.
///
/// Each path is run once through the whole frame, as `edf` does: up to where it leaves the path before it without a list, and
/// from there on with a list for each of its further nodes. The run tells whether the path is overloaded, and the interval is
/// searched for at one path at most. Memory is taken for lists alone; where it is short, the paths are gone over once more
/// without lists, for the first that is overloaded.
#[tactic(auto, using(crate::proofs::PathOrder::ready))]
pub fn edf_nodes(alloc: Global, t: &Tables) -> Result<Vec<Schedule>, PlanFault>
    requires limits { frame_limit t.now ≡ None }
    requires formed { KeptApart t.now 12 }
    ensures count { IfOk result (λ v. length v.items ≡ nodes_of_frame t.now) }
    ensures lists { IfOk result (λ v. AreNodeLists t.now (lists_in v.items)) }
    ensures accepted { IfOk result (λ v. AreFeasible t.now (lists_in v.items)) }
    ensures fits { OnOk result ((path : ℕ) → path < paths_of t.now → NoOverload (tightened (path_jobs_of t.now path))) }
    ensures fault { IfErr result (λ e. ExplainsNodes t.now e) }
{
    t.keeps_ranges();
    plan_nodes(alloc, t)
}
