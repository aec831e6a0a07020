// The end of a round, read from E code.
ghost use Rattle.std.specs.Prelude.{◌≡◌, ◌≤◌, length};
ghost use Rattle.htl_ecode.specs.Chains.{test_of, tests_of, asks_of};
ghost use Rattle.htl_ecode.specs.Departure.{fault_of};
ghost use Rattle.htl_espell.specs.Checks.{next_of, decide_read};

use crate::chains::Instrs;
use crate::needs::{ask, test};
use crate::resolving::arrive;
use htl_ecode::decisions::branch_target;
use htl_ecode::{EFault, EInstr};
use htl_model::lookup::{mode_module, parent_of};
use htl_model::{Switch, Tables};

// Reads what asks whether the mode's module goes on: the address where it does.
fn need_asks(code: &mut Instrs<'_>, at: u32, t: &Tables, mode: u16) -> Result<u32, EFault>
    requires { length code.old ≤ 4294967295 }
    ensures read { result ≡ next_of code.old at (asks_of t.now mode) }
    ensures same { code.new ≡ code.old }
{
    match parent_of(t, mode_module(t, mode)) {
        Some(q) => ask(code, at, q),
        None => Ok(at),
    }
}

/// Where the rounds of a mode begin, and where each mode is entered.
#[derive(Clone, Copy)]
pub struct Rounds<'a> {
    pub mode: u16,
    pub begin: u32,
    pub enters: &'a [u32],
}

// Reads the test of a switch, where it is one of the mode's.
fn need_test(
    code: &mut Instrs<'_>,
    at: u32,
    rounds: &Rounds<'_>,
    k: u16,
    switch: &Switch,
) -> Result<u32, EFault>
    requires { length code.old ≤ 4294967295 }
    ensures next { result ≡ next_of code.old at (test_of rounds.now.begin rounds.now.enters.now rounds.now.mode (k, switch.now)) }
    ensures same { code.new ≡ code.old }
{
    if switch.mode == rounds.mode {
        let anchor = branch_target(rounds.begin, rounds.enters, rounds.mode, switch.target);
        test(code, at, k, anchor)
    } else {
        Ok(at)
    }
}

// Reads the tests of a mode's switches.
fn need_tests(
    code: &mut Instrs<'_>,
    at: u32,
    t: &Tables,
    rounds: &Rounds<'_>,
) -> Result<u32, EFault>
    requires { length code.old ≤ 4294967295 }
    ensures next { result ≡ next_of code.old at (tests_of t.now rounds.now.begin rounds.now.enters.now rounds.now.mode) }
    ensures same { code.new ≡ code.old }
{
    let switches = t.parts().switches.as_slice();
    let mut place = at;
    for k in 0..switches.len() {
        let switch = &switches[k];
        place = need_test(code, place, rounds, k as u16, switch)?;
    }
    Ok(place)
}

/// Reads the end of a round of a mode.
pub fn check_decide(
    code: &mut Instrs<'_>,
    at: u32,
    t: &Tables,
    rounds: &Rounds<'_>,
) -> Result<(), EFault>
    requires { length code.old ≤ 4294967295 }
    ensures fault { fault_of result ≡ fault_of (decide_read code.old t.now rounds.now.begin rounds.now.enters.now rounds.now.mode at) }
    ensures same { code.new ≡ code.old }
{
    let place = need_asks(code, at, t, rounds.mode)?;
    let end = need_tests(code, place, t, rounds)?;
    arrive(code, end, rounds.begin, end)
}
