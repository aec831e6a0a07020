//! Worst-case response times: when at the latest each job of an accepted object finishes, and how long its paths keep the processor busy.
#![tactic(auto)]

mod bare_jobs;
mod finishes;
mod greatest;
mod latest;
pub mod laws;
mod path_places;
mod path_walk;
mod root;
mod rows;

pub use greatest::Greatest;
pub use latest::latest_finishes;
pub use root::root_of;
