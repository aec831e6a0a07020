// What is done at an offset, read from E code.
ghost use Rattle.std.specs.Prelude.{◌≡◌, ◌≤◌, length};
ghost use Rattle.htl_model.specs.Lists.{joined, numbered};
ghost use Rattle.htl_ecode.specs.Chains.{all_do, calls_of, release_of, calls as calls_at};
ghost use Rattle.htl_ecode.specs.ModeInvs.{AreInvsOf};
ghost use Rattle.htl_ecode.specs.Phases.{number_of};
ghost use Rattle.htl_espell.specs.Checks.{next_of};
ghost use Rattle.htl_espell.specs.Parts.{end_wants, call_wants, release_wants};

use crate::chains::Instrs;
use crate::needs::need;
use htl_base::Time;
use htl_ecode::calls::call;
use htl_ecode::mode_invs::ModeInvs;
use htl_ecode::offsets::{counts, ends_in, meets};
use htl_ecode::{EFault, EInstr, Phase};
use htl_model::window::release;
use htl_model::{End, Inv, Tables};

/// What is done at an offset in a phase of the rounds of a mode.
#[derive(Clone, Copy)]
pub struct Block<'a> {
    pub t: &'a Tables,
    /// The invocations of the mode.
    pub run: ModeInvs,
    pub phase: Phase,
    /// From the start of a round, in ticks.
    pub offset: Time,
}

// Reads the call of an end of an invocation, where it meets a communicator at the offset: the address after it.
fn need_end(
    code: &mut Instrs<'_>,
    at: u32,
    block: &Block<'_>,
    inv: u16,
    k: u16,
    end: End,
) -> Result<u32, EFault>
    requires { length code.old ≤ 4294967295 }
    ensures read { result ≡ next_of code.old at (end_wants block.now.t.now (number_of block.now.phase) block.now.offset inv (k, end)) }
    ensures same { code.new ≡ code.old }
{
    if meets(block.t, block.offset, end) {
        need(code, at, call(block.phase, inv, k))
    } else {
        Ok(at)
    }
}

// Reads the calls of some ends.
fn need_ends(
    code: &mut Instrs<'_>,
    at: u32,
    block: &Block<'_>,
    inv: u16,
    ends: &[End],
) -> Result<u32, EFault>
    requires code { length code.old ≤ 4294967295 }
    requires few { length ends.now ≤ 256 }
    ensures read { result ≡ next_of code.old at (joined (end_wants block.now.t.now (number_of block.now.phase) block.now.offset inv) (numbered 0 ends.now)) }
    ensures same { code.new ≡ code.old }
{
    let mut place = at;
    for k in 0..ends.len() {
        place = need_end(code, place, block, inv, k as u16, ends[k])?;
    }
    Ok(place)
}

// Reads the calls of an invocation.
fn need_inv(
    code: &mut Instrs<'_>,
    at: u32,
    block: &Block<'_>,
    k: u16,
    inv: &Inv,
) -> Result<u32, EFault>
    requires code { length code.old ≤ 4294967295 }
    requires reads { length inv.now.reads ≤ 256 }
    requires writes { length inv.now.writes ≤ 256 }
    ensures read { result ≡ next_of code.old at (call_wants block.now.t.now block.now.run.mode (number_of block.now.phase) block.now.offset (k, inv.now)) }
    ensures same { code.new ≡ code.old }
{
    if !counts(block.t, block.run.mode, inv) {
        return Ok(at);
    }
    need_ends(code, at, block, k, ends_in(inv, block.phase))
}

// Reads the calls of all invocations of the mode.
fn need_invs(code: &mut Instrs<'_>, at: u32, block: &Block<'_>) -> Result<u32, EFault>
    requires invs { AreInvsOf block.now.t.now block.now.run }
    requires code { length code.old ≤ 4294967295 }
    ensures read { result ≡ next_of code.old at (joined (call_wants block.now.t.now block.now.run.mode (number_of block.now.phase) block.now.offset) (numbered 0 block.now.t.now.invs)) }
    ensures same { code.new ≡ code.old }
{
    let invs = block.t.parts().invs.as_slice();
    let mut place = at;
    for k in block.run.start..block.run.end {
        let inv = &invs[k];
        place = need_inv(code, place, block, k as u16, inv)?;
    }
    Ok(place)
}

// Reads the release of an invocation, where it is at the offset.
fn need_release(
    code: &mut Instrs<'_>,
    at: u32,
    block: &Block<'_>,
    k: u16,
    inv: &Inv,
) -> Result<u32, EFault>
    requires { length code.old ≤ 4294967295 }
    ensures read { result ≡ next_of code.old at (release_wants block.now.t.now block.now.run.mode block.now.offset (k, inv.now)) }
    ensures same { code.new ≡ code.old }
{
    if counts(block.t, block.run.mode, inv) && release(block.t, inv) == block.offset {
        need(code, at, EInstr::Release { inv: k })
    } else {
        Ok(at)
    }
}

// Reads the releases at an offset.
fn need_releases(code: &mut Instrs<'_>, at: u32, block: &Block<'_>) -> Result<u32, EFault>
    requires invs { AreInvsOf block.now.t.now block.now.run }
    requires code { length code.old ≤ 4294967295 }
    ensures read { result ≡ next_of code.old at (joined (release_wants block.now.t.now block.now.run.mode block.now.offset) (numbered 0 block.now.t.now.invs)) }
    ensures same { code.new ≡ code.old }
{
    let invs = block.t.parts().invs.as_slice();
    let mut place = at;
    for k in block.run.start..block.run.end {
        let inv = &invs[k];
        place = need_release(code, place, block, k as u16, inv)?;
    }
    Ok(place)
}

/// Reads what is done at an offset in a phase: the address after it.
pub fn need_calls(code: &mut Instrs<'_>, at: u32, block: &Block<'_>) -> Result<u32, EFault>
    requires invs { AreInvsOf block.now.t.now block.now.run }
    requires code { length code.old ≤ 4294967295 }
    ensures read { result ≡ next_of code.old at (all_do (calls_at block.now.t.now block.now.run.mode (number_of block.now.phase) block.now.offset)) }
    ensures same { code.new ≡ code.old }
{
    let place = need_invs(code, at, block)?;
    match block.phase {
        Phase::Write => Ok(place),
        Phase::Switch | Phase::Read => need_releases(code, place, block),
    }
}
