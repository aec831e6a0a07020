//! Tests of the crates below the top call, a folder a layer. It is compiled for tests alone.
#![tactic(auto)]

#[cfg(test)]
mod asserts;
#[cfg(test)]
mod code;
#[cfg(test)]
mod language;
#[cfg(test)]
mod made;
#[cfg(test)]
mod objects;
#[cfg(test)]
mod runs;
#[cfg(test)]
mod schedules;
#[cfg(test)]
mod tables;
#[cfg(test)]
mod texts;
