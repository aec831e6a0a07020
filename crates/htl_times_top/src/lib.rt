//! The program `times`: the latest finishes of an accepted object, printed.
#![tactic(auto)]

mod answer;
mod fault_line;
pub mod laws;
mod lines;
mod outcome;
pub mod program;
mod text;
mod top;

pub use outcome::{Outcome, status};
pub use top::times;
