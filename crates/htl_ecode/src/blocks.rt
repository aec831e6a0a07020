// The blocks of a phase.
ghost use Rattle.std.specs.Prelude.{◌≡◌, ◌≤◌, ◌+◌, ◌++◌, ℕ, length, OnOk, IfOk};
ghost use Rattle.htl_ecode.specs.Offsets.{OffsetsFit, next_offset as next_offset_of};
ghost use Rattle.htl_ecode.specs.Chains.{block_chain};
ghost use Rattle.htl_ecode.specs.Layout.{block_code, phase_code as phase_code_of};
ghost use Rattle.htl_ecode.specs.Generation.{trigger, IsLater, end_size};
ghost use Rattle.htl_ecode.specs.ModeInvs.{AreInvsOf};
ghost use Rattle.htl_ecode.specs.Phases.{number_of};

use crate::calls::{Moment, put_calls};
use crate::mode_invs::ModeInvs;
use crate::offsets::next_offset;
use crate::{EInstr, Phase};
use htl_base::Time;
use htl_model::Tables;
use std::alloc::{AllocError, Global};

/// How many instructions there are.
pub fn address(instrs: &Vec<EInstr>) -> u32
    requires { length instrs.now.items ≤ 4294967295 }
    ensures { result ≡ length instrs.now.items }
{
    instrs.len() as u32
}

/// Puts the trigger of a phase, where there is a further offset.
pub fn put_trigger(
    instrs: &mut Vec<EInstr>,
    from: Time,
    phase: Phase,
    next: Option<Time>,
    target: u32,
) -> Result<(), AllocError>
    requires { IsLater from next }
    ensures { OnOk result (instrs.new.items ≡ instrs.old.items ++ trigger from (number_of phase) target next) }
{
    if let Some(o) = next {
        instrs.push(EInstr::Future {
            delay: (o - from) as u32,
            phase: phase.number(),
            target,
        })?;
    }
    Ok(())
}

/// How long the end of a block is.
pub fn size_of_end(next: Option<Time>) -> u32
    ensures { result ≡ end_size next }
{
    match next {
        Some(_) => 2,
        None => 1,
    }
}

// Puts the block at an offset; the instructions begin at the address `base`, and `next` is the next offset.
fn put_block(
    instrs: &mut Vec<EInstr>,
    t: &Tables,
    run: ModeInvs,
    at: Moment,
    next: Option<Time>,
    base: u32,
) -> Result<(), AllocError>
    requires invs { AreInvsOf t.now run }
    requires later { IsLater at.offset next }
    requires next { next ≡ next_offset_of t.now run.mode (number_of at.phase) (at.offset + 1) }
    requires room { base + length instrs.old.items + length (block_chain t.now run.mode (number_of at.phase) at.offset) ≤ 4294967295 }
    ensures { OnOk result (instrs.new.items ≡ instrs.old.items ++ block_code t.now run.mode (number_of at.phase) (base + length instrs.old.items) at.offset) }
{
    put_calls(instrs, t, run, at.phase, at.offset)?;
    let behind = base + address(instrs) + size_of_end(next);
    put_trigger(instrs, at.offset, at.phase, next, behind)?;
    instrs.push(EInstr::Return)?;
    Ok(())
}

/// The blocks of a phase of the mode with these invocations, to stand at the address `base`.
pub fn phase_code(
    alloc: Global,
    t: &Tables,
    run: ModeInvs,
    phase: Phase,
    base: u32,
) -> Result<Vec<EInstr>, AllocError>
    requires invs { AreInvsOf t.now run }
    requires offsets { OffsetsFit t.now }
    requires room { base + length (phase_code_of t.now run.mode (number_of phase) base) ≤ 4294967295 }
    ensures { IfOk result (λ v. v.items ≡ phase_code_of t.now run.mode (number_of phase) base) }
{
    let mut instrs = Vec::new(alloc);
    let mut at = next_offset(t, run, phase, 0);
    while let Some(offset) = at {
        let next = next_offset(t, run, phase, offset + 1);
        put_block(&mut instrs, t, run, Moment { phase, offset }, next, base)?;
        at = next;
    }
    Ok(instrs)
}
