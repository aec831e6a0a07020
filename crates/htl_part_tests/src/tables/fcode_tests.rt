// Code that is verified, code that isn't, and values.
ghost use Rattle.std.specs.Prelude.{◌≡◌, [], IfOk};

use crate::asserts::{same, same_in};
use htl_base::{Seq, Ty, Value};
use htl_fcode::{eval, verify};
use htl_model::{Code, FInstr};
use std::alloc::{AllocError, Global};

fn code(alloc: Global, args: &[Ty], want: Ty, instrs: &[FInstr]) -> Result<Code, AllocError> {
    Ok(Code {
        args: Seq::new(Vec::from_slice(alloc, args)?),
        want,
        instrs: Seq::new(Vec::from_slice(alloc, instrs)?),
    })
}

// So many ones, and one `add` fewer.
fn sum(alloc: Global, ones: u32) -> Result<Code, AllocError>
    ensures { IfOk result (λ code. code.args ≡ []) }
{
    let mut instrs = Vec::new(alloc);
    for _ in 0..ones {
        instrs.push(FInstr::Int { x: 1 })?;
    }
    for _ in 1..ones {
        instrs.push(FInstr::Add)?;
    }
    Ok(Code {
        args: Seq::new(Vec::new(alloc)),
        want: Ty::Int,
        instrs: Seq::new(instrs),
    })
}

// A one, and so many `neg`.
fn negated(alloc: Global, times: u32) -> Result<Code, AllocError> {
    let mut instrs = Vec::new(alloc);
    instrs.push(FInstr::Int { x: 1 })?;
    for _ in 0..times {
        instrs.push(FInstr::Neg)?;
    }
    Ok(Code {
        args: Seq::new(Vec::new(alloc)),
        want: Ty::Int,
        instrs: Seq::new(instrs),
    })
}

// The value of code without arguments; None where it isn't verified.
fn value_of(code: &Code) -> Option<Value>
    requires { code.now.args ≡ [] }
{
    match verify(code) {
        Some(verified) => Some(eval(verified, &[])),
        None => None,
    }
}

// Whether the code is verified.
fn passes(code: &Code) -> bool {
    verify(code).is_some()
}

const ONE: FInstr = FInstr::Int { x: 1 };

const YES: FInstr = FInstr::Bool { x: 1 };

// Code of an int and a bool, its result, and whether it is right.
const CODES: [(&[FInstr], Ty, bool); 18] = [
    (&[], Ty::Int, false),
    (&[ONE], Ty::Int, true),
    (&[ONE], Ty::Bool, false),
    (&[YES], Ty::Bool, true),
    (&[FInstr::Bool { x: 0 }], Ty::Bool, true),
    (&[FInstr::Bool { x: 2 }], Ty::Bool, false),
    (&[FInstr::Arg { k: 1 }], Ty::Bool, true),
    (&[FInstr::Arg { k: 2 }], Ty::Bool, false),
    (&[ONE, ONE], Ty::Int, false),
    (&[FInstr::Neg], Ty::Int, false),
    (&[ONE, FInstr::Neg], Ty::Int, true),
    (&[ONE, FInstr::Not], Ty::Bool, false),
    (&[ONE, FInstr::Add], Ty::Int, false),
    (&[ONE, YES, FInstr::Eq], Ty::Bool, false),
    (&[YES, YES, FInstr::Eq], Ty::Bool, true),
    (&[YES, ONE, ONE, FInstr::Choose], Ty::Int, true),
    (&[ONE, ONE, ONE, FInstr::Choose], Ty::Int, false),
    (&[YES, ONE, YES, FInstr::Choose], Ty::Int, false),
];

#[test]
fn wrong_code_is_refused(rt: HostRuntime) {
    let codes = CODES;
    for row in 0..codes.len() {
        let (instrs, want, right) = codes[row];
        let code = code(rt.alloc(), &[Ty::Int, Ty::Bool], want, instrs).expect(&rt, "memory");
        same_in(&rt, row, passes(&code), right);
    }
}

#[test]
fn limits_are_kept(rt: HostRuntime) {
    for (ones, times, right) in [(64, 511, true), (65, 512, false)] {
        let sum = sum(rt.alloc(), ones).expect(&rt, "memory");
        let negated = negated(rt.alloc(), times).expect(&rt, "memory");
        same(&rt, [passes(&sum), passes(&negated)], [right, right]);
    }
}

fn value_of_sum(alloc: Global, ones: u32) -> Result<Option<Value>, AllocError> {
    let code = sum(alloc, ones)?;
    Ok(value_of(&code))
}

#[test]
fn sums_are_evaluated(rt: HostRuntime) {
    same(&rt, value_of_sum(rt.alloc(), 64), Ok(Some(64)));
}
