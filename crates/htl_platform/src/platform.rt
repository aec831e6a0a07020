// A platform: its name, and the worst cases of tasks on it.
use htl_base::{Name, Seq};

/// A platform, as far as the tasks of some tables go.
pub struct Platform {
    pub name: Name,
    /// The worst-case execution time of each task, by the tasks' numbers. Those that `read_platform` gives are from 1 to
    /// 1,000,000 ticks.
    pub worst: Seq<u32>,
}

impl Drop for Platform {
    fn drop(self) {
        let Self { name: _, worst: _ } = self;
    }
}
