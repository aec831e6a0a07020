// The slack of a task.
ghost use Rattle.std.specs.Prelude.{◌≡◌, length, None, IfOk};
ghost use Rattle.htl_model.specs.FrameRules.{KeptApart};
ghost use Rattle.htl_model.specs.Frames.{frame_limit, nodes};
ghost use Rattle.htl_model.specs.FunctionCode.{AreCode};
ghost use Rattle.htl_walk.specs.Feasible.{AreFeasible};
ghost use Rattle.htl_walk.specs.NodeWalks.{instrs_of as lists_in};
ghost use Rattle.htl_edf.specs.Greatest.{with_worst, IsGreatest};
ghost use Rattle.htl_edf.specs.NodePlans.{AreNodeLists};
ghost use Rattle.htl_slack.specs.RootTasks.{IsRootTask, limit_of};
ghost use Rattle.htl_slack.specs.Slack.{NoneOverloaded, StandsAbove};

use crate::SlackReport;
use crate::search::search;
use crate::tasks::module_period;
use htl_base::{Memory, Seq};
use htl_edf::{PlanFault, plan_nodes};
use htl_model::Tables;
use htl_model::frame::Frame;
use std::alloc::Global;

/// How far the worst case of a task can be raised, all else being the same: the greatest one, up to the period of the
/// task's module, for which no path is overloaded.
///
/// All functions are code, the tables keep the form rules 1 and 3 to 12 and the limits of frames, no path is overloaded, and
/// the task is invoked in a root module: `is_root_task`. Root modules may have different periods.
///
/// The lists are those of `edf_nodes` for tables with the greatest worst case, and every path accepts the lists of its nodes,
/// as `worst_all` judges them. `above` is None exactly where the greatest is the module's period; else it is the first path
/// that one tick more overloads, with the interval that `edf_nodes` reports for it. Want of memory alone is answered by
/// `Memory`.
///
/// More work keeps every overload, so the number is searched for by halves: at most 20 tries on one copy of the tables, each
/// with a run of each path through the whole frame. The lists are made once, at the end.
pub fn slack(alloc: Global, t: &Tables, task: u16) -> Result<SlackReport, Memory>
    requires code { AreCode t.now }
    requires formed { KeptApart t.now 12 }
    requires limits { frame_limit t.now ≡ None }
    requires fits { NoneOverloaded t.now }
    requires invoked { IsRootTask t.now task }
    ensures greatest { IfOk result (λ r. IsGreatest t.now task (limit_of t.now task) r.greatest) }
    ensures above { IfOk result (λ r. StandsAbove t.now task (limit_of t.now task) r.greatest r.above) }
    ensures count { IfOk result (λ r. length r.lists ≡ nodes t.now) }
    ensures lists { IfOk result (λ r. AreNodeLists (with_worst t.now task r.greatest) (lists_in r.lists)) }
    ensures accepted { IfOk result (λ r. AreFeasible (with_worst t.now task r.greatest) (lists_in r.lists)) }
{
    t.keeps_ranges();
    let copy = t.copy(alloc)?;
    let frame = Frame::survey(t);
    let limit = module_period(t, task);
    let found = search(copy, &frame, task, limit);
    match plan_nodes(alloc, &found.tables) {
        Ok(lists) => Ok(SlackReport {
            greatest: found.greatest,
            lists: Seq::new(lists),
            above: found.above,
        }),
        Err(PlanFault::Memory) => Err(Memory),
        Err(PlanFault::Overload { .. }) => unreachable!(),
    }
}
