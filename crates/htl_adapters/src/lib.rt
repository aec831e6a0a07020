//! Real files and streams behind the traits of the outside, and the words of a command line: what each program of the repository is
//! run on.
#![tactic(auto)]

pub mod folder;
pub mod input;
pub mod output;
pub mod words;
