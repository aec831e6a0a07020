//! The job lines of a run beside the latest finishes of its object.
#![tactic(auto)]

pub mod laws;
