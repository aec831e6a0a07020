//! Names: from the tree of a source to its flat tables, and the first name rule that a source breaks.
#![tactic(auto)]

mod fault;
mod functions;
mod invocations;
mod items;
mod key;
mod laws;
mod limits;
mod order;
mod place;
mod programs;
mod recorder;
mod resolving;
mod rows;
mod rules;
mod switches;
mod symbols;
mod tables;
mod walk;

pub use fault::NameFault;
pub use laws::{one_name_fault, source_trees_meet_bounds};
pub use resolving::resolve;
use std::alloc::AllocError;

/// What fails where no memory is left, and gives nothing.
type Done = Result<(), AllocError>;
