//! The form rules 1 to 12: the first that tables break.
#![tactic(auto)]

mod abstract_ports;
mod answer;
mod apart;
mod cycles;
mod ends;
mod frame_rule;
mod instances;
pub mod laws;
mod overview;
mod owners;
mod paths;
mod periods;
mod ports;
pub mod ranges;
pub mod rows;
mod rule;
mod survey;
mod taken;
mod trial;
mod windows;
mod writers;

pub use answer::form;
pub use frame_rule::frames;
