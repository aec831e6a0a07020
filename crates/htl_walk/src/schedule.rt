// S code: schedule-carrying code.
use htl_base::Seq;

/// An instruction for the processor (schedule-carrying code: Henzinger, Kirsch, Matic, EMSOFT 2003).
#[derive(Clone, Copy, PartialEq, Eq)]
pub enum SInstr {
    /// Waits for the release of the position, at most until the instant `until`, and then runs it until it is
    /// done or the time is `until`. It is left at once where the position is absent or done, or the time is
    /// at least `until`.
    Dispatch { position: u16, until: u32 },
    /// Waits until the instant `until`; it is left at once where the time is at least `until`.
    Idle { until: u32 },
    /// The list is over.
    End,
}

/// A list of S code: dispatches and idles, and then `End`. A node of a frame has one, and so has a root selection where
/// root modules have one period. Instants are ticks from the frame's start, which then is the round's.
#[derive(Drop)]
pub struct Schedule {
    /// At most 4,294,967,295 instructions.
    pub instrs: Seq<SInstr>,
}
