// The worst-case walk of all paths, node by node.
ghost use Rattle.std.specs.Prelude.{◌≡◌, ◌≤◌, ◌<◌, ◌+◌, ◌*◌, ℕ, All, length, take, get_or, min, None, OnOk, OnErr, IfErr};
ghost use Rattle.htl_model.specs.Frames.{frame_limit, starts as starts_of, node as node_of_path, paths as paths_of, nodes as nodes_of_frame, path_places};
ghost use Rattle.htl_model.specs.FrameRules.{KeptApart};
ghost use Rattle.htl_model.specs.FrameTables.{IsFrame};
ghost use Rattle.htl_walk.specs.Extents.{AreExtents};
ghost use Rattle.htl_walk.specs.Feasible.{AreFeasible};
ghost use Rattle.htl_walk.specs.PathJobs.{path_jobs as path_jobs_of};
ghost use Rattle.htl_walk.specs.PathMisses.{counted as counted_of};
ghost use Rattle.htl_walk.specs.NodeWalks.{AreWalkable, AreWalkedTo, AreResumed, ShareNodes, MissesAt, IsFirstFailing, instrs_of, count_to, list_at, reached};

use crate::extents::{Extents, put_path};
use crate::listing::{Span, worst_list};
use crate::placed::placed_jobs;
use crate::{Job, Miss, Schedule};
use htl_base::Time;
use htl_base::limits::{MAX_POSITIONS, MAX_STARTS};
use htl_model::Tables;
use htl_model::frame::{Frame, Place};
use htl_model::places::known_by;

/// What a path has left after each of its lists.
type States = [[Time; MAX_POSITIONS]; MAX_STARTS];

// A path, with the lists of all nodes.
#[derive(Clone, Copy)]
struct PathLists<'a> {
    t: &'a Tables,
    f: &'a Frame,
    lists: &'a [Schedule],
    extents: &'a Extents,
    path: u32,
}

// The positions of a path, and their jobs.
#[derive(Clone, Copy)]
struct Positions<'a> {
    places: &'a [Place],
    jobs: &'a [Job],
}

/// The node of a path after start `j`.
pub fn node(t: &Tables, f: &Frame, path: u32, j: usize) -> u32
    requires frame { IsFrame t.now f.now }
    requires path { path < paths_of t.now }
    requires start { j < length (starts_of t.now) }
    ensures node { result ≡ node_of_path t.now path j }
    ensures within { result < nodes_of_frame t.now }
{
    f.node(t, path, j)
}

/// A start up to which a path and the next one take the same nodes, so that what was found for these need not be found
/// again: the first at which they take different ones. A lower one would be as right, and costs more work.
pub fn fork(t: &Tables, f: &Frame, path: u32) -> usize
    requires frame { IsFrame t.now f.now }
    requires path { path + 1 < paths_of t.now }
    ensures within { result ≤ length (starts_of t.now) }
    ensures shared { ShareNodes t.now path (path + 1) result }
{
    for j in 0..f.count {
        if node(t, f, path, j) != node(t, f, path + 1, j) {
            return j;
        }
    }
    f.count
}

// How many instructions the lists of a path have before list `n`.
fn count_before(p: PathLists<'_>, n: usize) -> u64
    requires frame { IsFrame p.t.now p.f.now }
    requires path { p.path < paths_of p.t.now }
    requires lists { length p.lists.now ≡ nodes_of_frame p.t.now }
    requires instrs { All (λ s. length s.instrs ≤ 4294967295) p.lists.now }
    requires start { n ≤ length (starts_of p.t.now) }
    ensures count { result ≡ count_to (list_at p.entry.t.now (instrs_of p.entry.lists.now) p.entry.path) n }
    ensures few { result ≤ 32 * 4294967295 }
{
    let mut sum = 0u64;
    for j in 0..n {
        sum += p.lists[node(p.t, p.f, p.path, j) as usize]
            .instrs
            .as_slice()
            .len() as u64;
    }
    sum
}

// A miss whose places count from the first list on.
fn counted(n: u64, miss: Miss) -> Miss
    requires { n ≤ 32 * 4294967295 }
    ensures { result ≡ counted_of n miss }
{
    match miss {
        Miss::Order { instr } => Miss::Order {
            instr: (n + instr as u64).min(4_294_967_295) as u32,
        },
        Miss::Before {
            position,
            predecessor,
            at,
        } => Miss::Before {
            position,
            predecessor,
            at: (n + at as u64).min(4_294_967_295) as u32,
        },
        Miss::Late {
            position,
            finish,
            window_end,
        } => Miss::Late {
            position,
            finish,
            window_end,
        },
        Miss::Unfinished { position, left } => Miss::Unfinished { position, left },
    }
}

// What is left before a list: of what has begun before what was saved, of the rest the worst cases.
fn resume(jobs: &[Job], saved: &[Time; 128], known: usize, left: &mut [Time; 128])
    requires few { length jobs.now ≤ 128 }
    ensures left { AreResumed jobs.now saved.now known left.new (length jobs.now) }
{
    for k in 0..jobs.len() {
        left[k] = if k < known { saved[k] } else { jobs[k].worst };
    }
}

// What is left before list `first` of a path.
fn begin_left(
    p: PathLists<'_>,
    first: usize,
    at: Positions<'_>,
    states: &States,
    left: &mut [Time; 128],
)
    requires frame { IsFrame p.t.now p.f.now }
    requires walkable { AreWalkable p.t.now }
    requires path { p.path < paths_of p.t.now }
    requires first { first ≤ length (starts_of p.t.now) }
    requires places { at.places.now ≡ path_places p.t.now p.path }
    requires jobs { at.jobs.now ≡ path_jobs_of p.t.now p.path }
    requires few { length at.jobs.now ≤ 128 }
    requires walked { AreWalkedTo p.t.now (instrs_of p.lists.now) p.path first states.now }
    requires room { length states.now ≡ 32 }
    ensures { take (length at.entry.jobs.now) left.new ≡ (reached p.entry.t.now (instrs_of p.entry.lists.now) p.entry.path first).left }
{
    if first == 0 {
        resume(at.jobs, &states[0], 0, left);
        return;
    }
    let known = known_by(at.places, p.f.starts[first - 1]);
    resume(at.jobs, &states[first - 1], known, left);
}

// Saves what is left.
fn save(left: &[Time], out: &mut [Time; 128])
    requires { length left.now ≤ 128 }
    ensures { (k : ℕ) → k < length left.now → get_or out.new k 0 ≡ get_or left.now k 0 }
{
    for k in 0..left.len() {
        out[k] = left[k];
    }
}

// Walks the lists of a path, whose positions and jobs these are, from list `first` on.
fn walk_jobs(
    p: PathLists<'_>,
    first: usize,
    at: Positions<'_>,
    left: &mut [Time],
    finish: &mut [Time],
    states: &mut States,
) -> Result<(), Miss>
    requires frame { IsFrame p.t.now p.f.now }
    requires walkable { AreWalkable p.t.now }
    requires path { p.path < paths_of p.t.now }
    requires lists { length p.lists.now ≡ nodes_of_frame p.t.now }
    requires instrs { All (λ s. length s.instrs ≤ 4294967295) p.lists.now }
    requires first { first ≤ length (starts_of p.t.now) }
    requires places { at.places.now ≡ path_places p.t.now p.path }
    requires jobs { at.jobs.now ≡ path_jobs_of p.t.now p.path }
    requires left { left.old ≡ (reached p.t.now (instrs_of p.lists.now) p.path first).left }
    requires finish { length finish.old ≡ length at.jobs.now }
    requires walked { AreWalkedTo p.t.now (instrs_of p.lists.now) p.path first states.old }
    requires room { length states.old ≡ 32 }
    ensures walked { OnOk result (AreWalkedTo p.entry.t.now (instrs_of p.entry.lists.now) p.entry.path (length (starts_of p.entry.t.now)) states.new) }
    ensures missed { IfErr result (λ m. MissesAt p.entry.t.now (instrs_of p.entry.lists.now) p.entry.path m) }
    ensures room { length states.new ≡ 32 }
{
    let PathLists {
        t,
        f,
        lists,
        path,
        ..
    } = p;
    for j in first..f.count {
        let known = known_by(at.places, f.starts[j]);
        let list = &lists[node(t, f, path, j) as usize];
        let span = Span {
            known,
            from: f.starts[j],
            until: f.starts[j + 1],
        };
        match worst_list(at.jobs, span, list, left, finish) {
            Ok(_) => save(left, &mut states[j]),
            Err(miss) => return Err(counted(count_before(p, j), miss)),
        }
    }
    Ok(())
}

// Walks the lists of a path from list `first` on.
fn walk_on(p: PathLists<'_>, first: usize, states: &mut States) -> Result<(), Miss>
    requires frame { IsFrame p.t.now p.f.now }
    requires walkable { AreWalkable p.t.now }
    requires path { p.path < paths_of p.t.now }
    requires lists { length p.lists.now ≡ nodes_of_frame p.t.now }
    requires instrs { All (λ s. length s.instrs ≤ 4294967295) p.lists.now }
    requires first { first ≤ length (starts_of p.t.now) }
    requires extents { AreExtents p.t.now p.extents.now }
    requires walked { AreWalkedTo p.t.now (instrs_of p.lists.now) p.path first states.old }
    requires room { length states.old ≡ 32 }
    ensures walked { OnOk result (AreWalkedTo p.entry.t.now (instrs_of p.entry.lists.now) p.entry.path (length (starts_of p.entry.t.now)) states.new) }
    ensures missed { IfErr result (λ m. MissesAt p.entry.t.now (instrs_of p.entry.lists.now) p.entry.path m) }
    ensures room { length states.new ≡ 32 }
{
    let PathLists { t, f, path, .. } = p;
    t.keeps_ranges();
    let mut places = [Place { inv: None, at: 0 }; MAX_POSITIONS];
    let rounds = &f.rounds[..f.round_count];
    let count = put_path(t, p.extents, rounds, f.paths, path, &mut places);
    let mut jobs = [Job::ABSENT; MAX_POSITIONS];
    placed_jobs(t, &places[..count], &mut jobs);
    let mut left = [0; MAX_POSITIONS];
    let mut finish = [0; MAX_POSITIONS];
    let at = Positions {
        places: &places[..count],
        jobs: &jobs[..count],
    };
    begin_left(p, first, at, states, &mut left);
    walk_jobs(
        p,
        first,
        at,
        &mut left[..count],
        &mut finish[..count],
        states,
    )
}

// Walks all paths.
fn walk_paths(t: &Tables, lists: &[Schedule]) -> Result<(), (u32, Miss)>
    requires limits { frame_limit t.now ≡ None }
    requires walkable { AreWalkable t.now }
    requires lists { length lists.now ≡ nodes_of_frame t.now }
    requires instrs { All (λ s. length s.instrs ≤ 4294967295) lists.now }
    ensures accepted { OnOk result (AreFeasible t.now (instrs_of lists.now)) }
    ensures missed { IfErr result (λ e. IsFirstFailing t.now (instrs_of lists.now) e.0 e.1) }
    ensures refused { OnErr result (AreFeasible t.now (instrs_of lists.now) → ⊥) }
{
    let f = Frame::survey(t);
    let extents = Extents::survey(t);
    let mut states = [[0; MAX_POSITIONS]; MAX_STARTS];
    for path in 0..f.paths {
        let first = if path == 0 { 0 } else { fork(t, &f, path - 1) };
        let here = PathLists {
            t,
            f: &f,
            lists,
            extents: &extents,
            path,
        };
        if let Err(miss) = walk_on(here, first, &mut states) {
            return Err((path, miss));
        }
    }
    Ok(())
}

/// Whether every path through the frame accepts the lists of its nodes, of which there is one for each node, in their
/// order. The tables keep the form rules 1 and 3 to 12 and the limits of frames; each list has at most 4,294,967,295
/// instructions.
///
/// It answers Ok exactly where for every path the lists of its nodes are in form, every position is done in its window,
/// and at each dispatch of a position, whether or not it runs, each of its predecessors is done. Otherwise it answers the
/// first path that fails, with its first miss; `instr` and `at` count over the lists of the path, up to 4,294,967,295.
pub fn worst_all(t: &Tables, lists: &[Schedule]) -> Result<(), (u32, Miss)>
    requires limits { frame_limit t.now ≡ None }
    requires formed { KeptApart t.now 12 }
    requires lists { length lists.now ≡ nodes_of_frame t.now }
    requires instrs { All (λ s. length s.instrs ≤ 4294967295) lists.now }
    ensures accepted { OnOk result (AreFeasible t.now (instrs_of lists.now)) }
    ensures missed { IfErr result (λ e. IsFirstFailing t.now (instrs_of lists.now) e.0 e.1) }
    ensures refused { OnErr result (AreFeasible t.now (instrs_of lists.now) → ⊥) }
{
    t.keeps_ranges();
    walk_paths(t, lists)
}
