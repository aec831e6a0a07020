// A schedule for each root selection.
ghost use Rattle.std.specs.Prelude.{IfOk, IfErr};
ghost use Rattle.htl_model.specs.Broken.{KeptTo, KeepsLimits};
ghost use Rattle.htl_model.specs.Selections.{selection_count};
ghost use Rattle.htl_walk.specs.EqualPeriods.{RootsHaveOnePeriod};
ghost use Rattle.htl_edf.specs.Plan.{ArePlanned, ExplainsPlan};

use crate::edf_nodes;
use htl_base::Time;
use htl_model::Tables;
use htl_walk::Schedule;
use std::alloc::Global;

/// Why there are no schedules.
#[derive(Clone, Copy, PartialEq, Eq, Debug)]
pub enum PlanFault {
    /// The first path whose jobs are overloaded, with the interval that `edf` reports for them. Where root modules have one
    /// period it is the first root selection.
    Overload {
        selection: u32,
        from: Time,
        to: Time,
        demand: u64,
    },
    /// No memory was left.
    Memory,
}

/// The schedule of earliest deadline first for each root selection, in the order of the selections.
///
/// The tables keep the form rules 1 to 12 and the limits on selections and positions, and their root modules have one
/// period. So a frame is one round, and these are the lists that `edf_nodes` gives for its nodes, at the same cost.
///
/// Each schedule is accepted by the worst-case walk of its selection. `Overload` comes exactly where a selection is
/// overloaded, and names the first; no S code whatever is accepted for it.
pub fn edf_all(alloc: Global, t: &Tables) -> Result<Vec<Schedule>, PlanFault>
    requires formed { KeptTo t.now 12 }
    requires one_period { RootsHaveOnePeriod t.now }
    requires limits { KeepsLimits t.now }
    ensures planned { IfOk result (λ v. ArePlanned t.now (selection_count t.now) v.items) }
    ensures fault { IfErr result (λ e. ExplainsPlan t.now e) }
{
    t.keeps_ranges();
    edf_nodes(alloc, t)
}
