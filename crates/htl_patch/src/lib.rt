//! The refinement of one mode replaced by another: the patched program keeps the deadlines of the old one.
#![tactic(auto)]

mod fault;
mod finding;
mod finishing;
mod functions;
mod joining;
pub mod laws;
mod limits;
mod lists;
mod matching;
mod mode_items;
mod numbers;
mod order;
mod owned;
mod owners;
mod patching;
mod places;
mod replacement;
mod tables;
mod unit_items;

pub use fault::{PatchFault, PatchStop};
pub use patching::patch;
