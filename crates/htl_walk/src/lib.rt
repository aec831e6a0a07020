//! Jobs, schedules, and the worst-case walk of a schedule, or of the lists of a path.
#![tactic(auto)]

mod departure;
pub mod dispatch;
mod equal_periods;
mod extents;
mod job;
mod jobs;
pub mod laws;
pub mod listing;
mod miss;
pub mod node_walk;
mod pending;
mod placed;
mod schedule;
mod step;
mod worst_case;
mod writers;

pub use equal_periods::roots_have_one_period;
pub use job::Job;
pub use jobs::{abstract_jobs, fill_jobs};
pub use miss::Miss;
pub use node_walk::worst_all;
pub use placed::{frame_jobs, path_jobs, placed_jobs};
pub use schedule::{SInstr, Schedule};
pub use worst_case::worst;
