// The states of a run, instant by instant.
use htl_base::{Seq, Time, Value};

/// The mode in which a module is, and the instant at which its round began.
#[derive(Clone, Copy)]
pub struct Stay {
    pub mode: u16,
    pub start: Time,
}

/// One instant: the value of each communicator, and where each module is; None where it is inactive.
pub struct State {
    pub values: Seq<Value>,
    pub stays: Seq<Option<Stay>>,
}

impl Drop for State {
    fn drop(self) {
        let Self {
            values: _,
            stays: _,
        } = self;
    }
}

/// A write that is due: the place of an output of an invocation in the round that began at `start`.
#[derive(Clone, Copy)]
pub struct Write {
    pub inv: u16,
    pub start: Time,
    pub output: u16,
}
