// The events of a script.
use htl_base::{Time, Value};

/// One line of a script.
#[derive(Clone, Copy, PartialEq, Eq)]
pub enum Event {
    /// A clock reading, in ticks, 0 to 1,000,000,000; what follows belongs to it.
    At(Time),
    /// From the reading on a sensor shows `x`; the communicator takes it at its next instance.
    Sense { comm: u16, x: Value },
    /// From the reading on the jobs of an invocation that are released take `length` ticks, from 1 to the
    /// worst case.
    Took { inv: u16, length: Time },
    /// The run ends with this instant, 0 to 1,000,000,000.
    End(Time),
}
