//! Times, values, names, lists and limits, of which every crate of the tool speaks.
#![tactic(auto)]

pub mod limits;
mod name;
mod operator;
mod seq;

pub use name::Name;
pub use operator::{BinOp, UnOp};
pub use seq::Seq;

/// An instant, an offset in a round or a length, in ticks.
pub type Time = u64;

/// A communicator's value, in 64-bit two's complement; of type bool it is 0 or 1.
pub type Value = i64;

/// The type of a value.
#[derive(Clone, Copy, PartialEq, Eq, Debug)]
pub enum Ty {
    /// A 64-bit signed number.
    Int,
    /// 0 or 1.
    Bool,
}

/// No memory was left.
#[derive(Clone, Copy, PartialEq, Eq, Debug)]
pub struct Memory;
