//! The function machine: a verifier of function code, and the machine that runs what it passes.
#![tactic(auto)]

mod machine;
mod operation;
mod type_stack;
pub mod typing;
mod value_stack;
mod verifier;

pub use machine::eval;
pub use verifier::{Verified, verify};
