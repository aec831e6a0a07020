// The worst-case walk of a path.
ghost use Rattle.std.specs.Prelude.{◌≡◌, ◌≤◌, ◌<◌, ℕ, length, get_or, None, map, sum};
ghost use Rattle.std.specs.List.{All};
ghost use Rattle.htl_model.specs.FrameTables.{IsFrame};
ghost use Rattle.htl_model.specs.Frames.{paths as paths_of, nodes as nodes_of_frame, path_places};
ghost use Rattle.htl_walk.specs.NodeWalks.{AreWalkable, instrs_of, reached};
ghost use Rattle.htl_walk.specs.PathJobs.{path_jobs as path_jobs_of};
ghost use Rattle.htl_walk.specs.Walk.{work, worst_cases};
ghost use Rattle.htl_times.specs.BareJobs.{bare, IsShort};
ghost use Rattle.htl_times.specs.Busy.{busy as busy_of};
ghost use Rattle.htl_times.specs.Noting.{AreEmpty, AreWorstFinishes};

use crate::bare_jobs::fill_bare;
use crate::finishes::follow;
use crate::path_places::Survey;
use htl_base::Time;
use htl_base::limits::MAX_POSITIONS;
use htl_model::Tables;
use htl_model::frame::{Frame, Place};
use htl_walk::node_walk::node;
use htl_walk::{Job, Schedule};

/// A path, with the lists of all nodes.
#[derive(Clone, Copy)]
pub struct PathLists<'a> {
    pub t: &'a Tables,
    pub f: &'a Frame,
    pub survey: &'a Survey,
    pub lists: &'a [Schedule],
    pub path: u32,
}

// The work of each job at its worst case.
fn fill_work(jobs: &[Job], left: &mut [Time])
    requires { length left.old ≡ length jobs.now }
    ensures { left.new ≡ work jobs.now (worst_cases jobs.now) }
{
    for k in 0..jobs.len() {
        left[k] = if jobs[k].present { jobs[k].worst } else { 0 };
    }
}

// Follows the lists of a path, one after another.
fn walk_lists(p: PathLists<'_>, jobs: &[Job], left: &mut [Time], finish: &mut [Option<Time>])
    requires frame { IsFrame p.t.now p.f.now }
    requires path { p.path < paths_of p.t.now }
    requires lists { length p.lists.now ≡ nodes_of_frame p.t.now }
    requires jobs { jobs.now ≡ map bare (path_jobs_of p.t.now p.path) }
    requires left { left.old ≡ work jobs.now (worst_cases jobs.now) }
    requires same { length finish.old ≡ length jobs.now }
    requires empty { AreEmpty finish.old }
    ensures finishes { AreWorstFinishes p.entry.t.now (instrs_of p.entry.lists.now) p.entry.path finish.new }
    ensures len { length finish.new ≡ length finish.old }
{
    for j in 0..p.f.count {
        let list = &p.lists[node(p.t, p.f, p.path, j) as usize];
        follow(jobs, list.instrs.as_slice(), p.f.starts[j], left, finish);
    }
}

// Notes nothing.
fn clear(finish: &mut [Option<Time>])
    ensures empty { AreEmpty finish.new }
    ensures len { length finish.new ≡ length finish.old }
{
    for k in 0..finish.len() {
        finish[k] = None;
    }
}

// The sum of the worst cases, in ticks.
fn sum_worst(jobs: &[Job]) -> u64
    requires few { length jobs.now ≤ 128 }
    requires short { All IsShort jobs.now }
    ensures { result ≡ sum (worst_cases jobs.now) }
{
    let mut ticks = 0u64;
    for k in 0..jobs.len() {
        ticks += jobs[k].worst;
    }
    ticks
}

/// Notes when each position of a path finishes in its worst-case walk, in ticks from the frame's start, and answers how many ticks the
/// path is busy. `places` are its positions, and whatever stood in `finish` is gone.
///
/// It takes no memory. A path takes passes over its positions, one of them with their reads, and one over the instructions of its lists.
pub fn path_finishes(p: PathLists<'_>, places: &[Place], finish: &mut [Option<Time>]) -> u64
    requires frame { IsFrame p.t.now p.f.now }
    requires walkable { AreWalkable p.t.now }
    requires path { p.path < paths_of p.t.now }
    requires lists { length p.lists.now ≡ nodes_of_frame p.t.now }
    requires places { places.now ≡ path_places p.t.now p.path }
    requires same { length finish.old ≡ length places.now }
    ensures finishes { AreWorstFinishes p.entry.t.now (instrs_of p.entry.lists.now) p.entry.path finish.new }
    ensures busy { result ≡ busy_of p.entry.t.now p.entry.path }
    ensures len { length finish.new ≡ length finish.old }
{
    clear(finish);
    let count = places.len();
    let mut jobs = [Job::ABSENT; MAX_POSITIONS];
    fill_bare(p.t, places, &mut jobs);
    let mut left = [0; MAX_POSITIONS];
    fill_work(&jobs[..count], &mut left[..count]);
    walk_lists(p, &jobs[..count], &mut left[..count], finish);
    sum_worst(&jobs[..count])
}
