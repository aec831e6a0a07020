// The search for the greatest worst case of a task.
ghost use Rattle.std.specs.Prelude.{◌≡◌, ◌≤◌, ◌<◌, length, MatchOption};
ghost use Rattle.htl_model.specs.FrameTables.{IsFrame};
ghost use Rattle.htl_model.specs.Tables.{task_worst as task_worst_of};
ghost use Rattle.htl_edf.specs.Greatest.{with_worst as with_worst_of, IsGreatest};
ghost use Rattle.htl_edf.specs.NodePlans.{AreReady};
ghost use Rattle.htl_slack.specs.Slack.{NoneOverloaded, IsFirstOverload, StandsAbove};

use crate::Above;
use crate::raising::with_worst;
use htl_edf::first_overload;
use htl_model::Tables;
use htl_model::frame::Frame;
use htl_model::lookup::task_worst;

/// What the search found.
pub struct Found {
    /// The tables with the greatest worst case.
    pub tables: Tables,
    pub greatest: u32,
    pub above: Option<Above>,
}

impl Drop for Found {
    fn drop(self) {
        let Self {
            tables: _,
            greatest: _,
            above: _,
        } = self;
    }
}

// The first path of the tables that is overloaded.
fn overload_in(t: &Tables, frame: &Frame) -> Option<Above>
    requires frame { IsFrame t.now frame.now }
    requires ready { AreReady t.now }
    ensures { MatchOption result (NoneOverloaded t.now) (λ a. IsFirstOverload t.now a) }
{
    let (selection, interval) = first_overload(t, frame)?;
    Some(Above {
        selection,
        from: interval.from,
        to: interval.to,
        demand: interval.demand,
    })
}

/// The greatest worst case of a task up to a limit for which no path is overloaded, on tables whose own one is such.
///
/// It is searched for by halves between the own one and the limit: at most 20 tries, each with a run of each path through the
/// whole frame. No memory is taken.
pub fn search(t: Tables, frame: &Frame, task: u16, limit: u32) -> Found
    requires frame { IsFrame t frame.now }
    requires ready { AreReady t }
    requires fits { NoneOverloaded t }
    requires task { task < length t.tasks }
    requires some { 0 < task_worst_of t task }
    requires own { task_worst_of t task ≤ limit }
    requires limit { limit ≤ 1000000 }
    ensures greatest { IsGreatest t task limit result.greatest }
    ensures above { StandsAbove t task limit result.greatest result.above }
    ensures tables { result.tables ≡ with_worst_of t task result.greatest }
    ensures some { 0 < result.greatest }
{
    let mut low = task_worst(&t, task);
    let mut high = limit + 1;
    let mut above = None;
    let mut tables = t;
    while low + 1 < high {
        let worst = low + (high - low) / 2;
        tables = with_worst(tables, task, worst);
        match overload_in(&tables, frame) {
            None => low = worst,
            Some(found) => {
                high = worst;
                above = Some(found);
            }
        }
    }
    Found {
        tables: with_worst(tables, task, low),
        greatest: low,
        above,
    }
}
