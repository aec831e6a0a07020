// One thing that is required.
ghost use Rattle.std.specs.Prelude.{◌≡◌, ◌≤◌, ◌<◌, ◌∷◌, [], length, IfSome};
ghost use Rattle.htl_ecode.specs.Chains.{Exactly, NextBlock, EndOfRound, SwitchJump, ModeJump};
ghost use Rattle.htl_ecode.specs.Instructions.{target_in as target_in_of, delay_in as delay_in_of};
ghost use Rattle.htl_ecode.specs.Steps.{reach, met_by, leaving};
ghost use Rattle.htl_ecode.specs.Departure.{fault_of};
ghost use Rattle.htl_ecode.specs.Phases.{number_of};
ghost use Rattle.htl_espell.specs.Checks.{next_of, ends_of, waited, next_met, ends_met};

use crate::chains::Instrs;
use crate::resolving::{arrive, resolve};
use htl_base::Time;
use htl_ecode::{EFault, EInstr, EKind, Phase};

// The address that a trigger or a conditional jump names.
fn target_in(i: EInstr) -> u32
    ensures { result ≡ target_in_of i }
{
    match i {
        EInstr::Future { target, .. } => target,
        EInstr::JumpIf { target, .. } => target,
        EInstr::IfMode { target, .. } => target,
        _ => 0,
    }
}

// The delay of a trigger.
fn delay_in(i: EInstr) -> u32
    ensures { result ≡ delay_in_of i }
{
    match i {
        EInstr::Future { delay, .. } => delay,
        _ => 0,
    }
}

// Whether the instruction at a place is the one that is required: the address after it.
fn need_at(place: u32, i: EInstr, want: EInstr) -> Result<u32, EFault>
    requires { place < 4294967295 }
    ensures { result ≡ next_met (met_by [] (Exactly want) place i) }
{
    if want != i {
        return Err(EFault {
            address: place,
            kind: EKind::Action,
        });
    }
    Ok(place + 1)
}

/// Reads one required instruction: the address after it.
pub fn need(code: &mut Instrs<'_>, at: u32, want: EInstr) -> Result<u32, EFault>
    requires { length code.old ≤ 4294967295 }
    ensures read { result ≡ next_of code.old at (Exactly want ∷ []) }
    ensures same { code.new ≡ code.old }
{
    let place = resolve(code, at)?;
    need_at(place, code.at(place), want)
}

// Whether the instruction at a place sets a trigger of the phase with this delay: the address after it, and its target.
fn wait_at(place: u32, i: EInstr, delay: Time, phase: Phase) -> Result<(u32, u32), EFault>
    requires { place < 4294967295 }
    ensures { result ≡ ends_met (met_by [] (NextBlock delay (number_of phase)) place i) }
{
    let target = target_in(i);
    let set = delay_in(i);
    let want = EInstr::Future {
        delay: set,
        phase: phase.number(),
        target,
    };
    let next = need_at(place, i, want)?;
    if delay != set as Time {
        return Err(EFault {
            address: place,
            kind: EKind::Delay,
        });
    }
    Ok((next, target))
}

// Reads a trigger of a phase with a delay: the address after it, and its target.
fn wait(code: &mut Instrs<'_>, at: u32, delay: Time, phase: Phase) -> Result<(u32, u32), EFault>
    requires { length code.old ≤ 4294967295 }
    ensures read { result ≡ ends_of (reach code.old at (NextBlock delay (number_of phase))) }
    ensures same { code.new ≡ code.old }
{
    let place = resolve(code, at)?;
    wait_at(place, code.at(place), delay, phase)
}

/// Reads the trigger for a further offset, where there is one: the address after it, and its target.
pub fn wait_for(
    code: &mut Instrs<'_>,
    at: u32,
    from: Time,
    phase: Phase,
    next: Option<Time>,
) -> Result<(u32, Option<u32>), EFault>
    requires code { length code.old ≤ 4294967295 }
    requires later { IfSome next (λ o. from ≤ o) }
    ensures read { result ≡ waited code.old at from (number_of phase) next }
    ensures same { code.new ≡ code.old }
{
    match next {
        Some(o) => {
            let (after, target) = wait(code, at, o - from, phase)?;
            Ok((after, Some(target)))
        }
        None => Ok((at, None)),
    }
}

// Whether the instruction at a place sets the trigger of a round's end, and its target arrives at the anchor: the address after it.
fn turn_at(
    code: &mut Instrs<'_>,
    place: u32,
    i: EInstr,
    delay: Time,
    anchor: u32,
) -> Result<u32, EFault>
    requires place { place < 4294967295 }
    ensures next { result ≡ next_met (met_by code.old (EndOfRound delay anchor) place i) }
    ensures same { code.new ≡ code.old }
{
    let target = target_in(i);
    let round = delay_in(i);
    let want = EInstr::Future {
        delay: round,
        phase: Phase::Switch.number(),
        target,
    };
    let next = need_at(place, i, want)?;
    if delay != round as Time {
        return Err(EFault {
            address: place,
            kind: EKind::Delay,
        });
    }
    arrive(code, place, anchor, target)?;
    Ok(next)
}

/// Reads the trigger of a round's end, whose target arrives at an anchor: the address after it.
pub fn turn(code: &mut Instrs<'_>, at: u32, delay: Time, anchor: u32) -> Result<u32, EFault>
    requires code { length code.old ≤ 4294967295 }
    ensures next { result ≡ next_of code.old at (EndOfRound delay anchor ∷ []) }
    ensures same { code.new ≡ code.old }
{
    let place = resolve(code, at)?;
    let i = code.at(place);
    turn_at(code, place, i, delay, anchor)
}

// Whether the instruction at a place is the jump of a switch, and its target arrives at the anchor: the address after it.
fn test_at(
    code: &mut Instrs<'_>,
    place: u32,
    i: EInstr,
    switch: u16,
    anchor: u32,
) -> Result<u32, EFault>
    requires place { place < 4294967295 }
    ensures next { result ≡ next_met (met_by code.old (SwitchJump switch 0 anchor) place i) }
    ensures same { code.new ≡ code.old }
{
    let target = target_in(i);
    let want = EInstr::JumpIf { switch, target };
    let next = need_at(place, i, want)?;
    arrive(code, place, anchor, target)?;
    Ok(next)
}

/// Reads the jump of a switch, whose target arrives at an anchor: the address after it.
pub fn test(code: &mut Instrs<'_>, at: u32, switch: u16, anchor: u32) -> Result<u32, EFault>
    requires code { length code.old ≤ 4294967295 }
    ensures next { result ≡ next_of code.old at (SwitchJump switch 0 anchor ∷ []) }
    ensures same { code.new ≡ code.old }
{
    let place = resolve(code, at)?;
    let i = code.at(place);
    test_at(code, place, i, switch, anchor)
}

// Whether `Leave` and `Return` are read from an address.
fn leave(code: &mut Instrs<'_>, at: u32) -> Result<(), EFault>
    requires { length code.old ≤ 4294967295 }
    ensures read { fault_of result ≡ fault_of (leaving code.old at) }
    ensures same { code.new ≡ code.old }
{
    let after = need(code, at, EInstr::Leave)?;
    need(code, after, EInstr::Return)?;
    Ok(())
}

// Whether the instruction at a place is the jump where a mode runs, with `Leave` and `Return` behind it: its target.
fn ask_at(code: &mut Instrs<'_>, place: u32, i: EInstr, mode: u16) -> Result<u32, EFault>
    requires code { length code.old ≤ 4294967295 }
    requires place { place < 4294967295 }
    ensures read { result ≡ next_met (met_by code.old (ModeJump mode) place i) }
    ensures same { code.new ≡ code.old }
{
    let target = target_in(i);
    let want = EInstr::IfMode { mode, target };
    let next = need_at(place, i, want)?;
    leave(code, next)?;
    Ok(target)
}

/// Reads the jump where a mode runs, and behind it `Leave` and `Return`: its target.
pub fn ask(code: &mut Instrs<'_>, at: u32, mode: u16) -> Result<u32, EFault>
    requires { length code.old ≤ 4294967295 }
    ensures read { result ≡ next_of code.old at (ModeJump mode ∷ []) }
    ensures same { code.new ≡ code.old }
{
    let place = resolve(code, at)?;
    let i = code.at(place);
    ask_at(code, place, i, mode)
}
