// The code of a source with one invocation, and departures of changed code.
ghost use Rattle.std.specs.Prelude.{◌≡◌, ◌≤◌, length, true};

use crate::asserts::same;
use crate::made::{keeps_offsets, made};
use htl_base::Seq;
use htl_ecode::{ECode, EFault, EInstr, EKind, generate_e};
use htl_espell::spells;
use htl_model::Tables;
use std::alloc::Global;

// In each 20 ticks `dbl` reads s at 0 and writes u at 10.
const ONE_INVOCATION: &str = "program P {
  sensor int s period 10 init 0;
  communicator int u period 10 init 0;
  module M start m {
    task dbl input () output () worst 4;
    mode m period 20 { invoke dbl input ((s, 0)) output ((u, 1)); }
  }
}";

fn generated(alloc: Global, t: &Tables) -> Option<ECode> {
    if !keeps_offsets(t) {
        return None;
    }
    generate_e(alloc, t).ok()
}

// The code of the tables.
fn code_of(alloc: Global, text: &str) -> Option<ECode> {
    let t = made(alloc, text)?;
    generated(alloc, &t)
}

const MADE: [EInstr; 11] = [
    EInstr::Enter { mode: 0 },
    EInstr::Future {
        delay: 10,
        phase: 1,
        target: 5,
    },
    EInstr::Future {
        delay: 0,
        phase: 3,
        target: 7,
    },
    EInstr::Future {
        delay: 20,
        phase: 2,
        target: 10,
    },
    EInstr::Return,
    EInstr::CallWrite { inv: 0, output: 0 },
    EInstr::Return,
    EInstr::CallRead { inv: 0, input: 0 },
    EInstr::Release { inv: 0 },
    EInstr::Return,
    EInstr::Jump { target: 1 },
];

fn address(alloc: Global, x: u32) -> Option<Seq<u32>> {
    let items = vec![in alloc; x].ok()?;
    Some(Seq::new(items))
}

// These instructions with the addresses of the code of the tables.
fn with_addresses(alloc: Global, instrs: Vec<EInstr>) -> Option<ECode> {
    Some(ECode {
        enter: address(alloc, 0)?,
        begin: address(alloc, 1)?,
        decide: address(alloc, 10)?,
        instrs: Seq::new(instrs),
    })
}

// Whether code has an address of each kind for each mode, and no more instructions than an object.
fn has_size(t: &Tables, code: &ECode) -> bool
    ensures enter { result ≡ true → length code.now.enter ≡ length t.now.modes }
    ensures begin { result ≡ true → length code.now.begin ≡ length t.now.modes }
    ensures decide { result ≡ true → length code.now.decide ≡ length t.now.modes }
    ensures instrs { result ≡ true → length code.now.instrs ≤ 4294967295 }
{
    let modes = t.parts().modes.as_slice().len();
    code.enter.as_slice().len() == modes
        && code.begin.as_slice().len() == modes
        && code.decide.as_slice().len() == modes
        && code.instrs.as_slice().len() <= 65_535
}

fn verdict(t: &Tables, code: &ECode) -> Option<Result<(), EFault>> {
    if !keeps_offsets(t) || !has_size(t, code) {
        return None;
    }
    Some(spells(t, code))
}

fn verdict_on(alloc: Global, code: &ECode) -> Option<Result<(), EFault>> {
    let t = made(alloc, ONE_INVOCATION)?;
    verdict(&t, code)
}

// What is answered of these instructions.
fn answer(alloc: Global, instrs: Vec<EInstr>) -> Option<Result<(), EFault>> {
    let code = with_addresses(alloc, instrs)?;
    verdict_on(alloc, &code)
}

// The same with one instruction of the code changed.
fn changed(alloc: Global, place: usize, i: EInstr) -> Option<Result<(), EFault>> {
    let mut instrs = MADE;
    if place >= instrs.len() {
        return None;
    }
    instrs[place] = i;
    answer(alloc, instrs.to_vec(alloc).ok()?)
}

// The same where 65,522 plain jumps lead from the start of the round to its first instruction, which is `last`.
fn chained(alloc: Global, last: EInstr) -> Option<Result<(), EFault>> {
    let mut front = MADE;
    front[1] = EInstr::Jump { target: 11 };
    let mut instrs = front.to_vec(alloc).ok()?;
    for target in 12..65_533u32 {
        instrs.push(EInstr::Jump { target }).ok()?;
    }
    instrs.push(last).ok()?;
    instrs.push(EInstr::Jump { target: 2 }).ok()?;
    answer(alloc, instrs)
}

fn is_made(code: &ECode) -> bool {
    code.enter.as_slice() == [0].as_slice()
        && code.begin.as_slice() == [1].as_slice()
        && code.decide.as_slice() == [10].as_slice()
        && code.instrs.as_slice() == MADE.as_slice()
}

fn has_made(alloc: Global, text: &str) -> Option<bool> {
    let code = code_of(alloc, text)?;
    Some(is_made(&code))
}

#[test]
fn the_code_of_one_invocation(rt: HostRuntime) {
    same(&rt, has_made(rt.alloc(), ONE_INVOCATION), Some(true));
}

const DEPARTURES: [(usize, EInstr, u32, EKind); 8] = [
    (
        1,
        EInstr::Future {
            delay: 11,
            phase: 1,
            target: 5,
        },
        1,
        EKind::Delay,
    ),
    (
        1,
        EInstr::Future {
            delay: 10,
            phase: 2,
            target: 5,
        },
        1,
        EKind::Action,
    ),
    (
        3,
        EInstr::Future {
            delay: 20,
            phase: 2,
            target: 9,
        },
        3,
        EKind::Branch,
    ),
    (
        3,
        EInstr::Future {
            delay: 19,
            phase: 2,
            target: 9,
        },
        3,
        EKind::Delay,
    ),
    (10, EInstr::Jump { target: 10 }, 10, EKind::Endless),
    (6, EInstr::Leave, 6, EKind::Action),
    (
        2,
        EInstr::Future {
            delay: 0,
            phase: 3,
            target: 11,
        },
        11,
        EKind::Target,
    ),
    (0, EInstr::Jump { target: 0 }, 0, EKind::Endless),
];

#[test]
fn first_departures(rt: HostRuntime) {
    same(&rt, changed(rt.alloc(), 4, EInstr::Return), Some(Ok(())));
    for (place, i, address, kind) in DEPARTURES {
        let fault = EFault { address, kind };
        same(&rt, changed(rt.alloc(), place, i), Some(Err(fault)));
    }
}

#[test]
fn long_chains_of_jumps(rt: HostRuntime) {
    let first = EInstr::Future {
        delay: 10,
        phase: 1,
        target: 5,
    };
    same(&rt, chained(rt.alloc(), first), Some(Ok(())));
    let late = EFault {
        address: 65_532,
        kind: EKind::Action,
    };
    same(&rt, chained(rt.alloc(), EInstr::Return), Some(Err(late)));
    let round = EFault {
        address: 1,
        kind: EKind::Endless,
    };
    same(
        &rt,
        chained(rt.alloc(), EInstr::Jump { target: 11 }),
        Some(Err(round)),
    );
}
