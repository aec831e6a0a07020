// Why a schedule is not accepted.
use htl_base::Time;

/// The first miss of the worst-case walk of a schedule, or of the lists of a path. Times are ticks from the start of the
/// round, or of the frame. Instructions are counted over all lists of the path, up to 4,294,967,295.
#[derive(Clone, Copy, PartialEq, Eq, Debug)]
pub enum Miss {
    /// The position finishes after the end of its window.
    Late {
        position: u16,
        finish: Time,
        window_end: Time,
    },
    /// At the end of a list the position, the lowest such, has this work left; in a path of several lists only a position
    /// whose window ends by the next start or the frame's end.
    Unfinished {
        position: u16,
        left: Time,
    },
    /// Instruction `at` dispatches the position while the predecessor, the lowest such, isn't done.
    Before {
        position: u16,
        predecessor: u16,
        at: u32,
    },
    /// A list departs from its form at this instruction, or at its length where `End` lacks.
    Order {
        instr: u32,
    },
}
