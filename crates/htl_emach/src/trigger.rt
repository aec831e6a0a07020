// Triggers, blocks and what is told of an instruction.
use htl_base::Time;
use htl_ecode::EInstr;

/// A block that is to begin.
#[derive(Clone, Copy)]
pub struct Trigger {
    /// The instant at which it is due, in ticks.
    pub at: Time,
    /// The address of its first instruction.
    pub target: u32,
}

/// A block that has begun and hasn't returned.
#[derive(Clone, Copy)]
pub struct Block {
    /// The module in which it runs.
    pub module: u16,
    /// The address of its next instruction.
    pub address: u32,
    /// The instant at which it began, in ticks.
    pub at: Time,
}

/// An instruction that was done.
#[derive(Clone, Copy)]
pub struct EDone {
    /// Its address.
    pub address: u32,
    /// The instruction at the address.
    pub instr: EInstr,
    /// The module in which it ran.
    pub module: u16,
}
