// The lines of a frame, list by list: each list begins with the work that those before it left.
ghost use Rattle.std.specs.Prelude.{◌≡◌, ◌≤◌, ◌<◌, length, IfOk};
ghost use Rattle.std.specs.List.{All};
ghost use Rattle.htl_edge.specs.Content.{Puts};
ghost use Rattle.htl_model.specs.Frames.{paths, path_places, starts};
ghost use Rattle.htl_model.specs.FrameTables.{IsFrame};
ghost use Rattle.htl_plan.specs.Plans.{finishes, frame_text, walk_text};
ghost use Rattle.htl_walk.specs.Feasible.{lists_of};
ghost use Rattle.htl_walk.specs.Following.{IsKnown};
ghost use Rattle.htl_walk.specs.NodeWalks.{instrs_of, list_at as list_at_start};
ghost use Rattle.htl_walk.specs.PathJobs.{legs};
ghost use Rattle.htl_walk.specs.Paths.{end_to_end, walk_path};
ghost use Rattle.htl_walk.specs.Walk.{work, worst_cases};

use crate::plan_walk::{fill_work, follow};
use htl_base::Time;
use htl_base::limits::MAX_POSITIONS;
use htl_console::line_plan;
use htl_edge::{Failed, Sink};
use htl_load::Loaded;
use htl_model::frame::Frame;
use htl_walk::{Job, SInstr};

// The list of a path's node after a start.
fn list_at<'a>(l: &'a Loaded, f: &Frame, path: u32, j: usize) -> &'a [SInstr]
    requires frame { IsFrame l.now.tables f.now }
    requires path { path < paths l.now.tables }
    requires start { j < length (starts l.now.tables) }
    ensures list { result.now ≡ list_at_start l.now.tables (instrs_of l.now.schedules) path j }
    ensures few { length result.now ≤ 4294967295 }
    ensures known { All (IsKnown (length (path_places l.now.tables path))) result.now }
{
    let node = f.node(l.tables(), path, j);
    l.schedules()[node as usize].instrs.as_slice()
}

// What was told: how many positions finished, and how many instructions were left.
#[derive(Clone, Copy)]
struct Told {
    finished: u64,
    count: u64,
}

// Writes the lines of the lists of a path one after another, with the work left in place.
fn follow_lists<W: Sink>(
    out: &mut W,
    l: &Loaded,
    f: &Frame,
    path: u32,
    jobs: &[Job],
    left: &mut [Time],
) -> Result<Told, Failed>
    requires frame { IsFrame l.now.tables f.now }
    requires path { path < paths l.now.tables }
    requires jobs { length jobs.now ≡ length (path_places l.now.tables path) }
    requires same { length left.old ≡ length jobs.now }
    requires work { left.old ≡ work jobs.now (worst_cases jobs.now) }
    ensures finished { IfOk result (λ r. r.finished ≡ finishes (end_to_end (walk_path jobs.now (worst_cases jobs.now) (lists_of l.now.tables (instrs_of l.now.schedules) path) (legs l.now.tables path)))) }
    ensures count { IfOk result (λ r. r.count ≡ length (end_to_end (walk_path jobs.now (worst_cases jobs.now) (lists_of l.now.tables (instrs_of l.now.schedules) path) (legs l.now.tables path)))) }
    ensures put { Puts (W.written out.old) (W.written out.new) (W.faults out.old) (W.faults out.new)
        (walk_text l.now.tables jobs.now (end_to_end (walk_path jobs.now (worst_cases jobs.now) (lists_of l.now.tables (instrs_of l.now.schedules) path) (legs l.now.tables path)))) result }
{
    let mut finished = 0u64;
    let mut count = 0u64;
    for j in 0..f.count {
        let instrs = list_at(l, f, path, j);
        match follow(out, l.tables(), jobs, instrs, f.starts[j], left) {
            Ok(more) => {
                finished += more;
                count += instrs.len() as u64;
            }
            Err(failed) => return Err(failed),
        }
    }
    Ok(Told { finished, count })
}

/// Writes the lines of the lists of a path over jobs that take their worst cases, and the last line of a plan. It takes no memory.
/// After `Failed` a prefix was written.
pub(crate) fn write_frame<W: Sink>(
    out: &mut W,
    l: &Loaded,
    f: &Frame,
    path: u32,
    jobs: &[Job],
    end: Time,
) -> Result<(), Failed>
    requires frame { IsFrame l.now.tables f.now }
    requires path { path < paths l.now.tables }
    requires jobs { length jobs.now ≡ length (path_places l.now.tables path) }
    requires few { length jobs.now ≤ 128 }
    ensures { Puts (W.written out.old) (W.written out.new) (W.faults out.old) (W.faults out.new)
        (frame_text l.now.tables end jobs.now (end_to_end (walk_path jobs.now (worst_cases jobs.now) (lists_of l.now.tables (instrs_of l.now.schedules) path) (legs l.now.tables path)))) result }
{
    let mut left = [0; MAX_POSITIONS];
    fill_work(jobs, &mut left[..jobs.len()]);
    match follow_lists(out, l, f, path, jobs, &mut left[..jobs.len()]) {
        Ok(told) => line_plan(out, end, told.finished, told.count),
        Err(failed) => Err(failed),
    }
}
