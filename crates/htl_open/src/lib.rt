//! Files as accepted objects: fetched from a shelf, decoded and tested, and the lines that tell why one isn't had.
#![tactic(auto)]

mod fault_line;
pub mod fetch;
pub mod line;
mod lookups;
pub mod object;
mod place;
mod stop;

pub use fault_line::{field_line, object_line};
pub use lookups::{mode_name, module_name, task_name};
pub use stop::{FetchStop, OpenStop, ShelfCause};
