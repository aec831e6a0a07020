// The end of a round: whether the module leaves, and where its switches lead.
ghost use Rattle.std.specs.Prelude.{◌≡◌, ◌≤◌, ◌+◌, ◌++◌, ◌∷◌, [], OnOk};
ghost use Rattle.htl_ecode.specs.Chains.{branch_target, test_of, asks_of};
ghost use Rattle.htl_ecode.specs.Chains as chains;
ghost use Rattle.htl_ecode.specs.Layout.{laid};
ghost use Rattle.htl_ecode.specs.declared.instr.EInstr.TheVariants.{Jump};

use crate::EInstr;
use htl_model::lookup::{mode_module, parent_of};
use htl_model::{Switch, Tables};
use std::alloc::AllocError;

/// Where a switch of a mode leads: the start of a round where the mode stays.
pub fn branch_target(begin: u32, enters: &[u32], mode: u16, target: u16) -> u32
    ensures { result ≡ branch_target begin enters.now mode target }
{
    if target == mode {
        begin
    } else if (target as usize) < enters.len() {
        enters[target as usize]
    } else {
        0
    }
}

// Puts what asks whether the mode's module goes on, at the address `place`.
fn put_asks(instrs: &mut Vec<EInstr>, t: &Tables, mode: u16, place: u32) -> Result<(), AllocError>
    requires { place + 3 ≤ 4294967295 }
    ensures { OnOk result (instrs.new.items ≡ instrs.old.items ++ laid (λ p. 0) place (asks_of t.now mode)) }
{
    if let Some(q) = parent_of(t, mode_module(t, mode)) {
        instrs.push(EInstr::IfMode {
            mode: q,
            target: place + 3,
        })?;
        instrs.push(EInstr::Leave)?;
        instrs.push(EInstr::Return)?;
    }
    Ok(())
}

// Puts the test of a switch, where it is one of the mode's.
fn put_test(
    instrs: &mut Vec<EInstr>,
    begin: u32,
    enters: &[u32],
    mode: u16,
    k: u16,
    switch: &Switch,
) -> Result<(), AllocError>
    ensures { OnOk result (instrs.new.items ≡ instrs.old.items ++ laid (λ p. 0) 0 (test_of begin enters.now mode (k, switch.now))) }
{
    if switch.mode == mode {
        instrs.push(EInstr::JumpIf {
            switch: k,
            target: branch_target(begin, enters, mode, switch.target),
        })?;
    }
    Ok(())
}

// Puts the tests of a mode's switches.
fn put_tests(
    instrs: &mut Vec<EInstr>,
    t: &Tables,
    begin: u32,
    enters: &[u32],
    mode: u16,
) -> Result<(), AllocError>
    ensures { OnOk result (instrs.new.items ≡ instrs.old.items ++ laid (λ p. 0) 0 (chains.tests_of t.now begin enters.now mode)) }
{
    let switches = t.parts().switches.as_slice();
    for k in 0..switches.len() {
        let switch = &switches[k];
        put_test(instrs, begin, enters, mode, k as u16, switch)?;
    }
    Ok(())
}

/// Puts the end of a round at the address `place`, and the jump to the start of the next.
pub(crate) fn put_decide(
    instrs: &mut Vec<EInstr>,
    t: &Tables,
    begin: u32,
    enters: &[u32],
    mode: u16,
    place: u32,
) -> Result<(), AllocError>
    requires { place + 3 ≤ 4294967295 }
    ensures { OnOk result (instrs.new.items ≡ instrs.old.items ++ (laid (λ p. 0) place (asks_of t.now mode ++ chains.tests_of t.now begin enters.now mode) ++ Jump begin ∷ [])) }
{
    put_asks(instrs, t, mode, place)?;
    put_tests(instrs, t, begin, enters, mode)?;
    instrs.push(EInstr::Jump { target: begin })?;
    Ok(())
}
