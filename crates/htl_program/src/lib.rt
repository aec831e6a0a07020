//! What the program does with its words, files and streams, and the status with which it ends.
#![tactic(auto)]

pub mod program;
