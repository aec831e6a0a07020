//! The E machine: values, buffers, modes and triggers.
#![tactic(auto)]

mod agenda;
mod buffers;
mod calls;
mod contender;
mod emach;
mod ends;
mod entries;
mod first_world;
mod index;
mod jobs;
pub mod laws;
mod tournament;
mod trigger;
mod world;
mod writers;

pub use emach::EMach;
pub use trigger::{Block, EDone, Trigger};
pub use world::World;
