// What an instant works on, and what it goes by.
use crate::noted::Noted;
use crate::tally::Tally;
use htl_console::Shown;
use htl_ecode::ECode;
use htl_emach::{EMach, World};
use htl_model::Tables;
use htl_smach::SMach;
use htl_walk::{Job, Schedule};

/// What the records of a list change: the S machine, the world and the counts.
pub struct Works {
    pub s_machine: SMach,
    pub world: World,
    pub tally: Tally,
}

impl Drop for Works {
    fn drop(self) {
        let Self {
            s_machine: _,
            world: _,
            tally: _,
        } = self;
    }
}

/// What an instant changes: the E machine, what records change, and what was noted before the instant.
pub struct Machines {
    pub emach: EMach,
    pub works: Works,
    pub noted: Noted,
}

impl Drop for Machines {
    fn drop(self) {
        let Self {
            emach: _,
            works: _,
            noted: _,
        } = self;
    }
}

/// What runs, and what of it is shown.
#[derive(Clone, Copy)]
pub struct Program<'a> {
    pub tables: &'a Tables,
    pub code: &'a ECode,
    /// The schedules, by node.
    pub schedules: &'a [Schedule],
    pub show: Shown,
}

/// The list of the processor that stands: the jobs of the frame so far, its instructions and its node.
#[derive(Clone, Copy)]
pub struct StandingList<'a> {
    pub jobs: &'a [Job],
    pub schedule: &'a Schedule,
    pub node: u32,
}
