// The texts of instructions in a line.
ghost use Rattle.std.specs.Prelude.{◌≡◌, ◌≤◌, ◌+◌, ◌++◌, length, decimal, codes};
ghost use Rattle.htl_base.specs.declared.limits.TheConstants as limit;
ghost use Rattle.htl_ecode.specs.Phases.{number_of};
ghost use Rattle.htl_console.specs.Names.{inv_name, mode_text, module_text};
ghost use Rattle.htl_console.specs.Instrs.{phase_word as phase_word_of, instr_text, step_text};

use crate::names::{put_inv, put_mode, put_module};
use htl_ecode::{EInstr, Phase};
use htl_edge::LineBuffer;
use htl_model::Tables;
use htl_walk::SInstr;

// A copy of an input or an output.
fn put_call(line: &mut LineBuffer, t: &Tables, word: &[u8], inv: u16, place: u16)
    requires word { length word.now ≤ 11 }
    requires room { length line.old + 178 ≤ limit.MAX_LINE }
    ensures bytes { line.new ≡ line.old ++ (word.now ++ (inv_name t.now inv ++ (codes " " ++ decimal place))) }
    ensures len { length line.new ≤ length line.old + 178 }
{
    line.text(word);
    put_inv(line, t, inv);
    line.text(b" ");
    line.number(place as u64);
}

fn phase_word(phase: Phase) -> &'static [u8]
    ensures word { result.now ≡ phase_word_of (number_of phase) }
    ensures short { length result.now ≤ 6 }
{
    match phase {
        Phase::Write => b"write",
        Phase::Switch => b"switch",
        Phase::Read => b"read",
    }
}

fn put_future(line: &mut LineBuffer, delay: u32, phase: Phase, target: u32)
    requires room { length line.old + 178 ≤ limit.MAX_LINE }
    ensures bytes { line.new ≡ line.old ++ (codes "future " ++ (decimal delay ++ (codes " " ++ (phase_word_of (number_of phase) ++ (codes " " ++ decimal target))))) }
    ensures len { length line.new ≤ length line.old + 178 }
{
    line.text(b"future ");
    line.number(delay as u64);
    line.text(b" ");
    line.text(phase_word(phase));
    line.text(b" ");
    line.number(target as u64);
}

// A test of a switch.
fn put_jump_if(line: &mut LineBuffer, switch: u16, target: u32)
    requires room { length line.old + 178 ≤ limit.MAX_LINE }
    ensures bytes { line.new ≡ line.old ++ (codes "jumpif " ++ (decimal switch ++ (codes " " ++ decimal target))) }
    ensures len { length line.new ≤ length line.old + 178 }
{
    line.text(b"jumpif ");
    line.number(switch as u64);
    line.text(b" ");
    line.number(target as u64);
}

// A test of a mode.
fn put_if_mode(line: &mut LineBuffer, t: &Tables, mode: u16, target: u32)
    requires room { length line.old + 178 ≤ limit.MAX_LINE }
    ensures bytes { line.new ≡ line.old ++ (codes "ifmode " ++ (mode_text t.now mode ++ (codes " " ++ decimal target))) }
    ensures len { length line.new ≤ length line.old + 178 }
{
    line.text(b"ifmode ");
    put_mode(line, t, mode);
    line.text(b" ");
    line.number(target as u64);
}

/// Adds an instruction of E code.
pub fn put_instr(line: &mut LineBuffer, t: &Tables, instr: &EInstr)
    requires room { length line.old + 178 ≤ limit.MAX_LINE }
    ensures bytes { line.new ≡ line.old ++ instr_text t.now instr.now }
    ensures len { length line.new ≤ length line.old + 178 }
{
    match *instr {
        EInstr::CallWrite { inv, output } => put_call(line, t, b"call write ", inv, output),
        EInstr::CallRead { inv, input } => put_call(line, t, b"call read ", inv, input),
        EInstr::Release { inv } => {
            line.text(b"release ");
            put_inv(line, t, inv);
        }
        EInstr::Future {
            delay,
            phase,
            target,
        } => put_future(line, delay, Phase::of(phase), target),
        EInstr::JumpIf { switch, target } => put_jump_if(line, switch, target),
        EInstr::Jump { target } => {
            line.text(b"jump ");
            line.number(target as u64);
        }
        EInstr::IfMode { mode, target } => put_if_mode(line, t, mode, target),
        EInstr::Enter { mode } => {
            line.text(b"enter ");
            put_mode(line, t, mode);
        }
        EInstr::Leave => line.text(b"leave"),
        EInstr::Fork { module } => {
            line.text(b"fork ");
            put_module(line, t, module);
        }
        EInstr::Return => line.text(b"return"),
    }
}

// Adds an instruction of S code.
fn put_step(line: &mut LineBuffer, instr: &SInstr)
    requires room { length line.old + 56 ≤ limit.MAX_LINE }
    ensures bytes { line.new ≡ line.old ++ step_text instr.now }
    ensures len { length line.new ≤ length line.old + 56 }
{
    match *instr {
        SInstr::Dispatch { position, until } => {
            line.text(b"dispatch ");
            line.number(position as u64);
            line.text(b" until ");
            line.number(until as u64);
        }
        SInstr::Idle { until } => {
            line.text(b"idle until ");
            line.number(until as u64);
        }
        SInstr::End => line.text(b"end"),
    }
}

/// Ends a line with an instruction of S code, behind the number of its schedule and its place there.
pub fn put_placed_step(line: &mut LineBuffer, selection: u64, place: u64, instr: &SInstr)
    requires room { length line.old + 99 ≤ limit.MAX_LINE }
    ensures bytes { line.new ≡ line.old ++ (decimal selection ++ (codes ":" ++ (decimal place ++ (codes " " ++ (step_text instr.now ++ codes "\n"))))) }
    ensures len { length line.new ≤ length line.old + 99 }
{
    line.number(selection);
    line.text(b":");
    line.number(place);
    line.text(b" ");
    put_step(line, instr);
    line.text(b"\n");
}
