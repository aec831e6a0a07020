// The check of E code.
ghost use Rattle.std.specs.Prelude.{◌≡◌, ◌↔◌, ◌≤◌, ◌<◌, length, IsOk};
ghost use Rattle.htl_ecode.specs.Conditions.{KeepsOffsets};
ghost use Rattle.htl_ecode.specs.Offsets.{OffsetsFit};
ghost use Rattle.htl_ecode.specs.Departure.{fault_of, entered, block_begun, decided, mode_fault, departure};
ghost use Rattle.htl_ecode.specs.ModeInvs.{AreInvsOf};
ghost use Rattle.htl_ecode.specs.Spelling.{Spells};

use crate::blocks::{check_begin, check_phase};
use crate::chains::Instrs;
use crate::endings::{Rounds, check_decide};
use crate::entries::check_enter;
use htl_ecode::mode_invs::{ModeInvs, mode_invs};
use htl_ecode::{ECode, EFault, Phase};
use htl_model::Tables;

// The addresses of a mode: what enters it, what begins its rounds, and what ends them.
#[derive(Clone, Copy)]
struct Addresses {
    enter: u32,
    begin: u32,
    decide: u32,
}

// Reads the lists of a mode, which stand at these addresses.
fn check_mode(
    t: &Tables,
    code: &ECode,
    instrs: &mut Instrs<'_>,
    run: ModeInvs,
    at: Addresses,
) -> Result<(), EFault>
    requires invs { AreInvsOf t.now run }
    requires instrs { instrs.old ≡ code.now.instrs }
    requires code { length code.now.instrs ≤ 4294967295 }
    requires offsets { OffsetsFit t.now }
    requires enter { at.enter ≡ entered code.now run.mode }
    requires begin { at.begin ≡ block_begun code.now run.mode }
    requires decide { at.decide ≡ decided code.now run.mode }
    ensures fault { fault_of result ≡ mode_fault t.now code.now run.mode }
    ensures same { instrs.new ≡ instrs.old }
{
    check_enter(instrs, at.enter, t, run.mode, at.begin)?;
    let (writes, reads) = check_begin(instrs, at.begin, t, run, at.decide)?;
    check_phase(instrs, t, run, Phase::Write, writes)?;
    check_phase(instrs, t, run, Phase::Read, reads)?;
    let rounds = Rounds {
        mode: run.mode,
        begin: at.begin,
        enters: code.enter.as_slice(),
    };
    check_decide(instrs, at.decide, t, &rounds)
}

// Reads the lists of all modes.
fn check_modes(t: &Tables, code: &ECode) -> Result<(), EFault>
    requires form { KeepsOffsets t.now }
    requires enter { length code.now.enter ≡ length t.now.modes }
    requires begin { length code.now.begin ≡ length t.now.modes }
    requires decide { length code.now.decide ≡ length t.now.modes }
    requires instrs { length code.now.instrs ≤ 4294967295 }
    ensures { fault_of result ≡ departure t.now code.now }
{
    let modes = t.parts().modes.as_slice();
    let enter = code.enter.as_slice();
    let begin = code.begin.as_slice();
    let decide = code.decide.as_slice();
    let mut instrs = Instrs::new(code.instrs.as_slice());
    let mut start = 0;
    for m in 0..modes.len() {
        let at = Addresses {
            enter: enter[m],
            begin: begin[m],
            decide: decide[m],
        };
        let run = mode_invs(t, m as u16, start);
        check_mode(t, code, &mut instrs, run, at)?;
        start = run.end;
    }
    Ok(())
}

/// Whether E code spells tables, or its first departure from them: modes in order, of each what enters it, what begins its
/// rounds, its blocks of writes and then of reads, each followed to where its trigger leads, and what ends its rounds.
///
/// The tables keep form rule 4; the code has an address for each mode in each of its lists of addresses, and at most
/// 4,294,967,295 instructions. No memory is taken. Every list is read once. Each required instruction is reached over at most as
/// many plain jumps as there are instructions, and so is each anchor that an address has to arrive at. Of long chains up to 2,048
/// places are held, 4,096 jumps apart: as long as they find room, a further chain passes fewer than 8,192 jumps that were passed
/// before. Only more anchors on long chains than are held are followed anew each time.
pub fn spells(t: &Tables, code: &ECode) -> Result<(), EFault>
    requires form { KeepsOffsets t.now }
    requires enter { length code.now.enter ≡ length t.now.modes }
    requires begin { length code.now.begin ≡ length t.now.modes }
    requires decide { length code.now.decide ≡ length t.now.modes }
    requires instrs { length code.now.instrs ≤ 4294967295 }
    ensures spelled { IsOk result ↔ Spells t.now code.now }
    ensures first { fault_of result ≡ departure t.now code.now }
{
    check_modes(t, code)
}
