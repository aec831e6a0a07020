//! Earliest deadline first on tightened windows, and exact refusal.
#![tactic(auto)]

mod bits;
mod events;
mod in_order;
pub mod laws;
pub mod nodes;
mod overload;
pub mod parts;
mod plan;
mod ranks;
mod rounds;
mod scheduler;
mod turns;

pub use nodes::{edf_nodes, first_overload, plan_nodes};
pub use plan::{PlanFault, edf_all};
pub use rounds::{Tight, tighten};
pub use scheduler::{EdfFault, edf};
