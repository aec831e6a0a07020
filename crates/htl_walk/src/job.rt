// The jobs of a round, and of a path.
use htl_base::Time;

/// The job of a position. All times are ticks from the beginning: of a root selection from the round's start, of a path
/// from the frame's.
#[derive(Clone, Copy, PartialEq, Eq, Debug)]
pub struct Job {
    /// Whether an invocation stands for the position; where none does, every other field is 0.
    pub present: bool,
    /// The invocation.
    pub inv: u16,
    /// The release, the start of the half-open window.
    pub release: Time,
    /// The end of the window.
    pub end: Time,
    /// The worst-case execution time.
    pub worst: Time,
    /// Bit p says that position p is a predecessor: one whose port the job reads.
    pub preds: u128,
}

impl Job {
    /// The job of a position for which no invocation stands.
    pub const ABSENT: Job = Job {
        present: false,
        inv: 0,
        release: 0,
        end: 0,
        worst: 0,
        preds: 0,
    };
}
