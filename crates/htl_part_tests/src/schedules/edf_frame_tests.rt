// A schedule for each node of tables with two root periods.
ghost use Rattle.std.specs.Prelude.{◌≡◌, ◌≤◌, length, leb};
ghost use Rattle.std.specs.List.{list_all};
ghost use Rattle.htl_model.specs.Ranges.{IsSpan};
ghost use Rattle.htl_edf.specs.FrameSamples.{IsFramed};

use crate::asserts::same;
use crate::schedules::frame_tables::tables;
use htl_base::Seq;
use htl_base::limits::MAX_POSITIONS;
use htl_edf::{PlanFault, edf_nodes};
use htl_model::Tables;
use htl_model::frame::Frame;
use htl_walk::{Job, Miss, SInstr, Schedule, path_jobs, worst_all};
use std::alloc::{AllocError, Global};

fn are_short(lists: &[Schedule]) -> bool
    ensures { result ≡ list_all (λ s. leb (length s.instrs) 1000) lists.now }
{
    lists
        .iter()
        .all(|list| list.instrs.as_slice().len() <= 1000)
}

// The lists of the nodes, or the fault.
fn plan(alloc: Global, t: &Tables) -> Result<Vec<Schedule>, PlanFault>
    requires { IsFramed t.now }
{
    edf_nodes(alloc, t)
}

// Whether the paths accept the lists; None where there are more or fewer of them than nodes.
fn verdict(t: &Tables, lists: &[Schedule]) -> Option<Result<(), (u32, Miss)>>
    requires { IsFramed t.now }
{
    if lists.len() != Frame::survey(t).nodes as usize || !are_short(lists) {
        return None;
    }
    Some(worst_all(t, lists))
}

// The jobs of path 0.
fn jobs(alloc: Global, t: &Tables) -> Result<Vec<Job>, AllocError>
    requires { IsFramed t.now }
{
    let mut room = [Job::ABSENT; MAX_POSITIONS];
    let count = path_jobs(t, 0, &mut room);
    let mut jobs = Vec::new(alloc);
    jobs.extend_from_slice(&room[..count])?;
    Ok(jobs)
}

fn run(position: u16, until: u32) -> SInstr {
    SInstr::Dispatch { position, until }
}

// A job whose window is a whole period.
fn whole(inv: u16, release: u64, end: u64, worst: u64) -> Job {
    Job {
        present: true,
        inv,
        release,
        end,
        worst,
        preds: 0,
    }
}

// A schedule of these instructions.
fn schedule(alloc: Global, instrs: &[SInstr]) -> Option<Schedule> {
    let mut list = Vec::new(alloc);
    list.extend_from_slice(instrs).ok()?;
    Some(Schedule {
        instrs: Seq::new(list),
    })
}

// Two lists.
fn lists(alloc: Global, first: &[SInstr], second: &[SInstr]) -> Option<Vec<Schedule>> {
    let mut lists = Vec::new(alloc);
    for instrs in [first, second] {
        lists.push(schedule(alloc, instrs)?).ok()?;
    }
    Some(lists)
}

fn judged_lists(alloc: Global, lists: &[Schedule]) -> Option<Result<(), (u32, Miss)>> {
    let t = tables(alloc, 9)?;
    verdict(&t, lists)
}

// What the paths say of two lists.
fn judged(alloc: Global, first: &[SInstr], second: &[SInstr]) -> Option<Result<(), (u32, Miss)>> {
    let lists = lists(alloc, first, second)?;
    judged_lists(alloc, lists.as_slice())
}

fn are(lists: &[Schedule], first: &[SInstr], second: &[SInstr]) -> bool {
    match lists {
        [a, b] => a.instrs.as_slice() == first && b.instrs.as_slice() == second,
        _ => false,
    }
}

fn are_planned_of(alloc: Global, t: &Tables, first: &[SInstr], second: &[SInstr]) -> Option<bool>
    requires { IsFramed t.now }
{
    let lists = plan(alloc, t).ok()?;
    Some(are(lists.as_slice(), first, second))
}

// Whether the nodes have these two lists.
fn are_planned(alloc: Global, first: &[SInstr], second: &[SInstr]) -> Option<bool> {
    let t = tables(alloc, 9)?;
    are_planned_of(alloc, &t, first, second)
}

fn has_jobs_of(alloc: Global, t: &Tables, wanted: &[Job]) -> Option<bool>
    requires { IsFramed t.now }
{
    let found = jobs(alloc, t).ok()?;
    Some(found.as_slice() == wanted)
}

// Whether path 0 has these jobs.
fn has_jobs(alloc: Global, wanted: &[Job]) -> Option<bool> {
    let t = tables(alloc, 9)?;
    has_jobs_of(alloc, &t, wanted)
}

// The fault of the scheduler where the second task has this worst case.
fn overload_at(alloc: Global, worst: u32) -> Option<PlanFault>
    requires span { IsSpan worst }
    requires small { worst ≤ 20 }
{
    let t = tables(alloc, worst)?;
    plan(alloc, &t).err()
}

#[test]
fn each_node_has_a_list(rt: HostRuntime) {
    let first = [run(0, 3), run(1, 10), SInstr::End];
    let second = [run(1, 12), run(2, 15), SInstr::End];
    same(&rt, are_planned(rt.alloc(), &first, &second), Some(true));
}

#[test]
fn a_path_has_the_jobs_of_its_rounds(rt: HostRuntime) {
    let wanted = [whole(0, 0, 10, 3), whole(1, 0, 20, 9), whole(0, 10, 20, 3)];
    same(&rt, has_jobs(rt.alloc(), &wanted), Some(true));
}

#[test]
fn paths_accept_lists_or_miss(rt: HostRuntime) {
    let first = [run(0, 3), run(1, 10), SInstr::End];
    let second = [run(1, 12), run(2, 15), SInstr::End];
    let cut = [run(1, 11), run(2, 14), SInstr::End];
    let left = Miss::Unfinished {
        position: 1,
        left: 1,
    };
    same(&rt, judged(rt.alloc(), &first, &second), Some(Ok(())));
    same(
        &rt,
        judged(rt.alloc(), &second, &first),
        Some(Err((0, Miss::Order { instr: 0 }))),
    );
    same(&rt, judged(rt.alloc(), &first, &cut), Some(Err((0, left))));
}

#[test]
fn an_overload_is_that_of_a_whole_frame(rt: HostRuntime) {
    let over = PlanFault::Overload {
        selection: 0,
        from: 0,
        to: 20,
        demand: 21,
    };
    same(&rt, overload_at(rt.alloc(), 15), Some(over));
}
