//! The program.
#![tactic(auto)]

use htl_times_top::program::ended;
use std::env;
use std::process::ExitCode;

fn main(rt: HostRuntime) -> ExitCode {
    ended(env::args(&rt), &rt)
}
