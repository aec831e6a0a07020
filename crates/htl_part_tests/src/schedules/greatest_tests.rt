// The slack of tasks of one module with one mode.
ghost use Rattle.htl_model.specs.FunctionCode.{AreCode};

use crate::asserts::same;
use crate::made::{is_formed, made_of};
use htl_edf::edf_nodes;
use htl_model::Tables;
use htl_samples::pieces::Text;
use htl_slack::{Above, SlackReport, is_root_task, slack};
use htl_walk::SInstr;
use std::alloc::Global;

// A task of worst case 4, with a window of 10 ticks.
const SINGLE: &str = "program P {
  sensor int s period 10 init 0;
  communicator int u period 10 init 0;
  module M start m {
    task dbl input (int x) output (int y = x) worst 4;
    mode m period 20 { invoke dbl input ((s, 0)) output ((u, 1)); }
  }
}";

// Tasks of worst cases 7 and 3, with windows from 0 to 10 and from 2 to 6.
const PAIR: &str = "program P {
  communicator int x period 2 init 0;
  communicator int y period 2 init 0;
  communicator int z period 10 init 0;
  module M start m {
    task a input (int i) output (int o = i) worst 7;
    task b input (int i) output (int o = i) worst 3;
    mode m period 10 {
      invoke a input ((x, 0)) output ((z, 1));
      invoke b input ((x, 1)) output ((y, 3));
    }
  }
}";

// The slack of a task; None where it is not asked for one.
fn report_of(alloc: Global, t: &Tables, task: u16) -> Option<SlackReport>
    requires { AreCode t.now }
{
    if !is_formed(t) {
        return None;
    }
    if !is_root_task(t, task) {
        return None;
    }
    match edf_nodes(alloc, t) {
        Ok(_) => slack(alloc, t, task).ok(),
        Err(_) => None,
    }
}

fn report(alloc: Global, text: Text, task: u16) -> Option<SlackReport> {
    let t = made_of(alloc, text)?;
    report_of(alloc, &t, task)
}

// The greatest worst case, and what stands above it.
fn answer(alloc: Global, text: Text, task: u16) -> Option<(u32, Option<Above>)> {
    let report = report(alloc, text, task)?;
    Some((report.greatest, report.above))
}

// Whether there is one schedule, of these instructions.
fn has_list(alloc: Global, text: Text, task: u16, instrs: &[SInstr]) -> Option<bool> {
    let report = report(alloc, text, task)?;
    match report.lists.as_slice() {
        [list] => Some(list.instrs.as_slice() == instrs),
        _ => Some(false),
    }
}

// The interval that is overloaded with one tick more.
const ABOVE: Above = Above {
    selection: 0,
    from: 0,
    to: 10,
    demand: 11,
};

// A text, a task, its greatest worst case and what stands above.
const SLACKS: [(Text, u16, Option<(u32, Option<Above>)>); 5] = [
    // a window
    (Text::Whole(SINGLE), 0, Some((10, Some(ABOVE)))),
    // no such task
    (Text::Whole(SINGLE), 1, None),
    // nothing stands above the period
    (
        Text::Edited(SINGLE, &[("period 20", "period 10")]),
        0,
        Some((10, None)),
    ),
    // another task
    (Text::Whole(PAIR), 1, Some((3, Some(ABOVE)))),
    (Text::Whole(PAIR), 0, Some((7, Some(ABOVE)))),
];

#[test]
fn what_stands_above(rt: HostRuntime) {
    for (text, task, wanted) in SLACKS {
        same(&rt, answer(rt.alloc(), text, task), wanted);
    }
}

const LIST: [SInstr; 2] = [
    SInstr::Dispatch {
        position: 0,
        until: 10,
    },
    SInstr::End,
];

#[test]
fn the_schedule_of_the_greatest_worst_case(rt: HostRuntime) {
    let list = has_list(rt.alloc(), Text::Whole(SINGLE), 0, &LIST);
    same(&rt, list, Some(true));
}
