//! E code: its instructions, what tables require of it, and the code that is made for them.
#![tactic(auto)]

mod blocks;
pub mod calls;
pub mod decisions;
mod ecode;
mod fault;
mod instr;
pub mod laws;
mod layout;
pub mod mode_invs;
pub mod modes;
pub mod offsets;
mod phase;

pub use ecode::ECode;
pub use fault::{EFault, EKind};
pub use instr::EInstr;
pub use layout::generate_e;
pub use phase::Phase;
