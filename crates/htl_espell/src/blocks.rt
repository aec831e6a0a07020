// The start of a round and the blocks of a phase, read from E code.
ghost use Rattle.std.specs.Prelude.{◌≡◌, ◌≤◌, ◌+◌, length, IfSome};
ghost use Rattle.htl_ecode.specs.Offsets.{OffsetsFit};
ghost use Rattle.htl_ecode.specs.Departure.{fault_of};
ghost use Rattle.htl_ecode.specs.ModeInvs.{AreInvsOf};
ghost use Rattle.htl_ecode.specs.Phases.{number_of};
ghost use Rattle.htl_espell.specs.Checks.{block_of as block_of_both, block_read, begin_read, phase_departure};

use crate::calls::{Block, need_calls};
use crate::chains::Instrs;
use crate::needs::{need, turn, wait_for};
use htl_base::Time;
use htl_ecode::mode_invs::ModeInvs;
use htl_ecode::offsets::next_offset;
use htl_ecode::{EFault, EInstr, Phase};
use htl_model::Tables;
use htl_model::lookup::mode_period;

// Reads the start of a round, which ends at the address `decide`: where its first triggers of writes and of reads lead.
pub fn check_begin(
    code: &mut Instrs<'_>,
    at: u32,
    t: &Tables,
    run: ModeInvs,
    decide: u32,
) -> Result<(Option<u32>, Option<u32>), EFault>
    requires invs { AreInvsOf t.now run }
    requires code { length code.old ≤ 4294967295 }
    ensures targets { result ≡ begin_read code.old t.now decide run.mode at }
    ensures same { code.new ≡ code.old }
{
    let (place, writes) = wait_for(
        code,
        at,
        0,
        Phase::Write,
        next_offset(t, run, Phase::Write, 0),
    )?;
    let (place, reads) = wait_for(
        code,
        place,
        0,
        Phase::Read,
        next_offset(t, run, Phase::Read, 0),
    )?;
    let place = turn(code, place, mode_period(t, run.mode) as Time, decide)?;
    need(code, place, EInstr::Return)?;
    Ok((writes, reads))
}

// Reads a block, where `next` is the next offset: where its trigger leads.
fn check_block(
    code: &mut Instrs<'_>,
    at: u32,
    block: &Block<'_>,
    next: Option<Time>,
) -> Result<Option<u32>, EFault>
    requires invs { AreInvsOf block.now.t.now block.now.run }
    requires code { length code.old ≤ 4294967295 }
    requires later { IfSome next (λ o. block.now.offset ≤ o) }
    ensures read { result ≡ block_read code.old block.now.t.now block.now.run.mode (number_of block.now.phase) block.now.offset next at }
    ensures same { code.new ≡ code.old }
{
    let place = need_calls(code, at, block)?;
    let (end, target) = wait_for(code, place, block.offset, block.phase, next)?;
    need(code, end, EInstr::Return)?;
    Ok(target)
}

// A block: its offset and its address, where both are there.
fn block_of(next: Option<Time>, at: Option<u32>) -> Option<(Time, u32)>
    ensures { result ≡ block_of_both next at }
{
    match (next, at) {
        (Some(o), Some(a)) => Some((o, a)),
        _ => None,
    }
}

/// Reads the blocks of a phase from the first on, which the start of a round names.
pub fn check_phase(
    code: &mut Instrs<'_>,
    t: &Tables,
    run: ModeInvs,
    phase: Phase,
    first: Option<u32>,
) -> Result<(), EFault>
    requires invs { AreInvsOf t.now run }
    requires code { length code.old ≤ 4294967295 }
    requires offsets { OffsetsFit t.now }
    ensures fault { fault_of result ≡ phase_departure t.now code.old run.mode (number_of phase) first }
    ensures same { code.new ≡ code.old }
{
    let mut block = block_of(next_offset(t, run, phase, 0), first);
    while let Some((offset, at)) = block {
        let next = next_offset(t, run, phase, offset + 1);
        let here = Block {
            t,
            run,
            phase,
            offset,
        };
        let target = check_block(code, at, &here, next)?;
        block = block_of(next, target);
    }
    Ok(())
}
