//! What tests of several crates work on: sources, objects as bytes, texts in pieces, and a shelf of two files.
#![tactic(auto)]

pub mod files;
pub mod object_bytes;
pub mod pieces;
pub mod samples;
