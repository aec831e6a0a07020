// The code of one mode.
ghost use Rattle.std.specs.Prelude.{◌≡◌, ◌≤◌, ◌+◌, ◌++◌, length, map, OnOk, IfOk};
ghost use Rattle.htl_ecode.specs.Offsets.{OffsetsFit, next_offset as next_offset_of};
ghost use Rattle.htl_ecode.specs.declared.instr.EInstr.TheVariants.{Fork};
ghost use Rattle.htl_ecode.specs.Chains.{children, enter_calls, begin_chain};
ghost use Rattle.htl_ecode.specs.Chains as chains;
ghost use Rattle.htl_ecode.specs.Layout.{laid, first_block, mode_code as mode_code_of};
ghost use Rattle.htl_ecode.specs.Generation.{IsModeCode};
ghost use Rattle.htl_ecode.specs.ModeInvs.{AreInvsOf};

use crate::blocks::{address, phase_code, put_trigger, size_of_end};
use crate::decisions::put_decide;
use crate::mode_invs::ModeInvs;
use crate::offsets::next_offset;
use crate::{EInstr, Phase};
use htl_base::Time;
use htl_model::lookup::mode_period;
use htl_model::{Module, Tables};
use std::alloc::{AllocError, Global};

/// Whether a module belongs to the refinement of a mode.
pub fn is_child(mode: u16, module: &Module) -> bool
    ensures { result ≡ chains.is_child mode «module».now }
{
    match module.parent {
        Some(q) => q == mode,
        None => false,
    }
}

// Puts the start of each module of a mode's refinement.
fn put_children(instrs: &mut Vec<EInstr>, t: &Tables, mode: u16) -> Result<(), AllocError>
    ensures { OnOk result (instrs.new.items ≡ instrs.old.items ++ map (λ k. Fork k) (children t.now mode)) }
{
    let modules = t.parts().modules.as_slice();
    for k in 0..modules.len() {
        if is_child(mode, &modules[k]) {
            instrs.push(EInstr::Fork { module: k as u16 })?;
        }
    }
    Ok(())
}

// The addresses at which the phases of a mode's round begin.
#[derive(Clone, Copy)]
struct PhaseStarts {
    writes: u32,
    reads: u32,
    decide: u32,
}

// Puts the start of a round: its first triggers, and the one of its end.
fn put_begin(
    instrs: &mut Vec<EInstr>,
    t: &Tables,
    mode: u16,
    first_write: Option<Time>,
    first_read: Option<Time>,
    starts: PhaseStarts,
) -> Result<(), AllocError>
    requires offsets { OffsetsFit t.now }
    requires write { first_write ≡ next_offset_of t.now mode 1 0 }
    requires read { first_read ≡ next_offset_of t.now mode 3 0 }
    ensures { OnOk result (instrs.new.items ≡ instrs.old.items ++ laid (first_block starts.writes starts.reads) 0 (begin_chain t.now starts.decide mode)) }
{
    put_trigger(instrs, 0, Phase::Write, first_write, starts.writes)?;
    put_trigger(instrs, 0, Phase::Read, first_read, starts.reads)?;
    instrs.push(EInstr::Future {
        delay: mode_period(t, mode),
        phase: Phase::Switch.number(),
        target: starts.decide,
    })?;
    instrs.push(EInstr::Return)?;
    Ok(())
}

/// The code of a mode, and where its rounds begin and end.
pub(crate) struct ModeCode {
    pub begin: u32,
    pub decide: u32,
    pub instrs: Vec<EInstr>,
}

impl Drop for ModeCode {
    fn drop(self) {
        let Self {
            begin: _,
            decide: _,
            instrs: _,
        } = self;
    }
}

// Puts the start of a mode: it, and the modules of its refinement.
fn put_enter(instrs: &mut Vec<EInstr>, t: &Tables, mode: u16) -> Result<(), AllocError>
    ensures { OnOk result (instrs.new.items ≡ instrs.old.items ++ enter_calls t.now mode) }
{
    instrs.push(EInstr::Enter { mode })?;
    put_children(instrs, t, mode)
}

/// The code of the mode with these invocations, to stand at the address `base`; `enters` has the addresses at which modes
/// are entered, and 0 stands in for those that it lacks.
pub(crate) fn mode_code(
    alloc: Global,
    t: &Tables,
    run: ModeInvs,
    enters: &[u32],
    base: u32,
) -> Result<ModeCode, AllocError>
    requires invs { AreInvsOf t.now run }
    requires offsets { OffsetsFit t.now }
    requires room { base + length (mode_code_of t.now enters.now base run.mode) + 3 ≤ 4294967295 }
    ensures { IfOk result (λ x. IsModeCode t.now enters.now base run.mode x.begin x.decide x.instrs.items) }
{
    let mode = run.mode;
    let first_write = next_offset(t, run, Phase::Write, 0);
    let first_read = next_offset(t, run, Phase::Read, 0);
    let mut instrs = Vec::new(alloc);
    put_enter(&mut instrs, t, mode)?;
    let begin = base + address(&instrs);
    let at_writes = begin + size_of_end(first_write) + size_of_end(first_read);
    let writes = phase_code(alloc, t, run, Phase::Write, at_writes)?;
    let at_reads = at_writes + address(&writes);
    let reads = phase_code(alloc, t, run, Phase::Read, at_reads)?;
    let decide = at_reads + address(&reads);
    let starts = PhaseStarts {
        writes: at_writes,
        reads: at_reads,
        decide,
    };
    put_begin(&mut instrs, t, mode, first_write, first_read, starts)?;
    instrs.extend_from_slice(writes.as_slice())?;
    instrs.extend_from_slice(reads.as_slice())?;
    put_decide(&mut instrs, t, begin, enters, mode, decide)?;
    Ok(ModeCode {
        begin,
        decide,
        instrs,
    })
}
