//! How far the worst case of a root task can be raised before a path is overloaded.
#![tactic(auto)]

mod greatest;
mod raising;
mod report;
mod search;
mod tasks;

pub use greatest::slack;
pub use report::{Above, SlackReport};
pub use tasks::is_root_task;
