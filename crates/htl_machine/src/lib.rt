//! The machine: both machines together.
#![tactic(auto)]

mod beginning;
mod changes;
mod close;
mod instant_records;
pub mod laws;
mod lengths;
mod machine;
mod marks;
mod memory;
mod noted;
mod numbering;
mod open;
mod path;
mod records;
mod sensors;
mod steps;
mod tally;
mod tell;
mod works;

pub use machine::{Machine, Totals};
pub use numbering::ListAt;
pub use tally::Tally;
