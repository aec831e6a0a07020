//! What a run of a patched object shows beside one of the old object.
#![tactic(auto)]

pub mod laws;
