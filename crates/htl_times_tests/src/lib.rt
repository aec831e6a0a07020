//! Tests of `times` and of its program. It is compiled for tests alone.
#![tactic(auto)]

#[cfg(test)]
mod asserts;
#[cfg(test)]
mod call_tests;
#[cfg(test)]
mod calls;
#[cfg(test)]
mod objects;
#[cfg(test)]
mod program_tests;
