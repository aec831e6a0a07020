//! What a run is: its values, records, frames and lists, the instants that join them, the lines that it shows, and its laws. There is
//! no code in it: the crates above follow a run, and judge one.
#![tactic(auto)]

pub mod laws;
