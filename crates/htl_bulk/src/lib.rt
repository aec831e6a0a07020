//! The generated program: its tree and its source. How much of it there is one number says, so that the cost of compiling, of
//! checking and of running can be measured.
#![tactic(auto)]

mod source;

pub use source::bulk_source;
