// The slack of tasks of two root modules, whose periods are 10 and 20.
ghost use Rattle.htl_model.specs.FunctionCode.{AreCode};
ghost use Rattle.htl_edf.specs.FrameSamples.{IsFramed};

use crate::asserts::same;
use crate::schedules::frame_tables::tables;
use htl_edf::edf_nodes;
use htl_model::Tables;
use htl_slack::{Above, SlackReport, is_root_task, slack};
use std::alloc::Global;

fn report(alloc: Global, t: &Tables, task: u16) -> Option<SlackReport>
    requires framed { IsFramed t.now }
    requires code { AreCode t.now }
{
    if !is_root_task(t, task) {
        return None;
    }
    match edf_nodes(alloc, t) {
        Ok(_) => slack(alloc, t, task).ok(),
        Err(_) => None,
    }
}

// The greatest worst case of a task, and what stands above it.
fn answer(alloc: Global, task: u16) -> Option<(u32, Option<Above>)> {
    let t = tables(alloc, 9)?;
    let report = report(alloc, &t, task)?;
    Some((report.greatest, report.above))
}

#[test]
fn a_task_of_two_rounds_counts_twice(rt: HostRuntime) {
    let above = Above {
        selection: 0,
        from: 0,
        to: 20,
        demand: 21,
    };
    same(&rt, answer(rt.alloc(), 0), Some((5, Some(above))));
    same(&rt, answer(rt.alloc(), 1), Some((14, Some(above))));
}
