//! A selection of running modes, as lines of a script say it, and the plan of the frame in which all modules stay in it.
#![tactic(auto)]

mod plan;
mod plan_lists;
mod plan_walk;
mod selection;
mod selection_judge;
mod selection_lookup;
mod staying;

pub use plan::{no_modes, write_plan};
pub use selection::read_selection;
