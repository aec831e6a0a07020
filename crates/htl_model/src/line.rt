// The lines of values and modes.
use htl_base::{Time, Value};

/// A line that tells of a value or a mode at an instant.
#[derive(Clone, Copy)]
pub enum Line {
    /// A communicator's value: of each at instant 0, later of one whose value isn't that of the instant before.
    ValueLine {
        at: Time,
        comm: u16,
        x: Value,
    },
    /// A module's mode, where it isn't that of the instant before; None where the module is inactive.
    ModeLine {
        at: Time,
        module: u16,
        mode: Option<u16>,
    },
}
