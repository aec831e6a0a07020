//! Platform files: the worst cases of tasks on a platform, read from TOML, and tables with them.
#![tactic(auto)]

mod applying;
mod entries;
mod fault;
mod judging;
mod keys;
mod platform;
mod reading;
mod search;
mod table;

pub use applying::apply;
pub use fault::{PlatformFault, PlatformStop};
pub use platform::Platform;
pub use reading::read_platform;
