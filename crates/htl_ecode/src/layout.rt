// The code of all modes.
ghost use Rattle.std.specs.Prelude.{◌≡◌, length, IfOk};
ghost use Rattle.htl_ecode.specs.Conditions.{KeepsOffsets};
ghost use Rattle.htl_ecode.specs.Offsets.{OffsetsFit};
ghost use Rattle.htl_ecode.specs.Spelling.{Spells};
ghost use Rattle.htl_ecode.specs.Layout.{enter_places, layout as layout_of};

use crate::blocks::address;
use crate::mode_invs::mode_invs;
use crate::modes::mode_code;
use crate::{ECode, EInstr};
use htl_base::{Memory, Seq};
use htl_model::Tables;
use std::alloc::{AllocError, Global};

// The addresses at which the modes are entered.
fn mode_places(alloc: Global, t: &Tables) -> Result<Vec<u32>, AllocError>
    requires { OffsetsFit t.now }
    ensures { IfOk result (λ v. v.items ≡ enter_places t.now (length t.now.modes)) }
{
    let modes = t.parts().modes.as_slice();
    let mut enters = Vec::new(alloc);
    let mut place = 0u32;
    let mut start = 0;
    for m in 0..modes.len() {
        enters.push(place)?;
        let run = mode_invs(t, m as u16, start);
        let code = mode_code(alloc, t, run, enters.as_slice(), place)?;
        place += address(&code.instrs);
        start = run.end;
    }
    Ok(enters)
}

// The code of all modes, one after another.
fn layout(alloc: Global, t: &Tables) -> Result<ECode, AllocError>
    requires { KeepsOffsets t.now }
    ensures { IfOk result (λ code. code ≡ layout_of t.now) }
{
    let modes = t.parts().modes.as_slice();
    let enters = mode_places(alloc, t)?;
    let mut begins = Vec::new(alloc);
    let mut decides = Vec::new(alloc);
    let mut instrs: Vec<EInstr> = Vec::new(alloc);
    let mut start = 0;
    for m in 0..modes.len() {
        let run = mode_invs(t, m as u16, start);
        let code = mode_code(alloc, t, run, enters.as_slice(), address(&instrs))?;
        begins.push(code.begin)?;
        decides.push(code.decide)?;
        instrs.extend_from_slice(code.instrs.as_slice())?;
        start = run.end;
    }
    Ok(ECode {
        enter: Seq::new(enters),
        begin: Seq::new(begins),
        decide: Seq::new(decides),
        instrs: Seq::new(instrs),
    })
}

/// The E code of tables: for each mode in order what enters it, what begins its rounds, its blocks of writes and then of
/// reads by offset, and what ends its rounds. The tables keep form rule 4, so that delays fit; of the other form rules none is needed.
pub fn generate_e(alloc: Global, t: &Tables) -> Result<ECode, Memory>
    requires { KeepsOffsets t.now }
    ensures layout { IfOk result (λ code. code ≡ layout_of t.now) }
    ensures spells { IfOk result (λ code. Spells t.now code) }
{
    layout(alloc, t).map_err(|_| Memory)
}
