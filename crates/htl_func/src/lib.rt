//! The function compiler: expressions into function code.
#![tactic(auto)]

mod compiler;
mod depth;
mod emit;
mod law;
mod types;

pub use compiler::{FnFault, compile_fn};
pub use law::code_means_expression;
