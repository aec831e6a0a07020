// The lines of the listing. That each is one piece is tested.
ghost use Rattle.std.specs.Prelude.{◌≡◌, ◌≤◌, ◌+◌, [], ◌++◌, length, cond, codes};
ghost use Rattle.htl_base.specs.declared.limits.TheConstants as limit;
ghost use Rattle.htl_edge.specs.Content.{Puts};
ghost use Rattle.htl_model.specs.Tables.{fun_of, task_is_abstract};
ghost use Rattle.htl_console.specs.Listing.{type_word as type_word_of, parent_mode, parent_inv, platform_line, comm_line, module_line, mode_line, inv_line, function_line, code_line, schedule_line};

use crate::instrs::{put_instr, put_placed_step};
use crate::names::{mode_name, module_name, put_full_inv, put_inv, put_mode};
use htl_base::limits::MAX_LINE;
use htl_base::{Name, Ty};
use htl_ecode::EInstr;
use htl_edge::{Failed, LineBuffer, Sink, put_all};
use htl_model::lookup::{is_concrete, task_worst};
use htl_model::window::{release, window_end};
use htl_model::{Comm, Function, Inv, Mode, Module, Tables};
use htl_walk::SInstr;

fn type_word(ty: Ty) -> &'static [u8]
    ensures word { result.now ≡ type_word_of ty }
    ensures short { length result.now ≤ 4 }
{
    match ty {
        Ty::Int => b"int",
        Ty::Bool => b"bool",
    }
}

fn comm_word(sensor: bool) -> &'static [u8]
    ensures word { result.now ≡ cond sensor (codes "sensor ") (codes "comm ") }
    ensures short { length result.now ≤ 7 }
{
    if sensor { b"sensor " } else { b"comm " }
}

/// Writes the line of the platform.
pub fn show_platform<W: Sink>(sink: &mut W, name: &Name) -> Result<(), Failed>
    ensures { Puts (W.written sink.old) (W.written sink.new) (W.faults sink.old) (W.faults sink.new) (platform_line name.now) result }
{
    let mut line = LineBuffer::new();
    line.text(b"platform ");
    line.text(name.as_bytes());
    line.text(b"\n");
    put_all(sink, line.as_bytes())
}

/// Writes the line of a communicator.
pub fn show_comm<W: Sink>(sink: &mut W, comm: &Comm) -> Result<(), Failed>
    ensures { Puts (W.written sink.old) (W.written sink.new) (W.faults sink.old) (W.faults sink.new) (comm_line comm.now) result }
{
    let mut line = LineBuffer::new();
    line.text(comm_word(comm.sensor));
    line.text(comm.name.as_bytes());
    line.text(b" ");
    line.text(type_word(comm.ty));
    line.text(b" period ");
    line.number(comm.period as u64);
    line.text(b" init ");
    line.signed(comm.init);
    line.text(b"\n");
    put_all(sink, line.as_bytes())
}

// Adds the mode that a module refines.
fn put_parent_mode(line: &mut LineBuffer, t: &Tables, parent: Option<u16>)
    requires room { length line.old + 105 ≤ limit.MAX_LINE }
    ensures bytes { line.new ≡ line.old ++ parent_mode t.now parent }
    ensures len { length line.new ≤ length line.old + 105 }
{
    if let Some(mode) = parent {
        line.text(b" parent ");
        put_mode(line, t, mode);
    }
}

/// Writes the line of a module.
pub fn show_module<W: Sink>(sink: &mut W, t: &Tables, item: &Module) -> Result<(), Failed>
    ensures { Puts (W.written sink.old) (W.written sink.new) (W.faults sink.old) (W.faults sink.new) (module_line t.now item.now) result }
{
    let mut line = LineBuffer::new();
    line.text(b"module ");
    line.text(item.name.as_bytes());
    line.text(b" start ");
    line.text(mode_name(t, item.start));
    put_parent_mode(&mut line, t, item.parent);
    line.text(b"\n");
    put_all(sink, line.as_bytes())
}

/// Writes the line of a mode.
pub fn show_mode<W: Sink>(sink: &mut W, t: &Tables, mode: &Mode) -> Result<(), Failed>
    ensures { Puts (W.written sink.old) (W.written sink.new) (W.faults sink.old) (W.faults sink.new) (mode_line t.now mode.now) result }
{
    let mut line = LineBuffer::new();
    line.text(b"mode ");
    line.text(module_name(t, mode.module));
    line.text(b".");
    line.text(mode.name.as_bytes());
    line.text(b" period ");
    line.number(mode.period as u64);
    line.text(b"\n");
    put_all(sink, line.as_bytes())
}

// Adds ` abstract` to an invocation of an abstract task.
fn put_abstract(line: &mut LineBuffer, t: &Tables, inv: &Inv)
    requires room { length line.old + 9 ≤ limit.MAX_LINE }
    ensures bytes { line.new ≡ line.old ++ cond (task_is_abstract t.now inv.now.task) (codes " abstract") [] }
    ensures len { length line.new ≤ length line.old + 9 }
{
    if !is_concrete(t, inv) {
        line.text(b" abstract");
    }
}

// Adds the invocation in whose place another stands.
fn put_parent_inv(line: &mut LineBuffer, t: &Tables, parent: Option<u16>)
    requires room { length line.old + 154 ≤ limit.MAX_LINE }
    ensures bytes { line.new ≡ line.old ++ parent_inv t.now parent }
    ensures len { length line.new ≤ length line.old + 154 }
{
    if let Some(inv) = parent {
        line.text(b" parent ");
        put_inv(line, t, inv);
    }
}

// Writes two texts of a line as one piece.
fn put_both<W: Sink>(sink: &mut W, first: &[u8], second: &[u8]) -> Result<(), Failed>
    requires first { length first.now ≤ limit.MAX_LINE }
    requires second { length second.now ≤ limit.MAX_LINE }
    ensures { Puts (W.written sink.old) (W.written sink.new) (W.faults sink.old) (W.faults sink.new) (first.now ++ second.now) result }
{
    let mut bytes = [0u8; 2 * MAX_LINE];
    let end = first.len() + second.len();
    bytes[..first.len()].copy_from_slice(first);
    bytes[first.len()..end].copy_from_slice(second);
    put_all(sink, &bytes[..end])
}

/// Writes the line of an invocation: at most 388 bytes, so that it is put together in two buffers.
pub fn show_inv<W: Sink>(sink: &mut W, t: &Tables, inv: &Inv) -> Result<(), Failed>
    ensures { Puts (W.written sink.old) (W.written sink.new) (W.faults sink.old) (W.faults sink.new) (inv_line t.now inv.now) result }
{
    let mut line = LineBuffer::new();
    line.text(b"inv ");
    put_full_inv(&mut line, t, inv);
    line.text(b" worst ");
    line.number(task_worst(t, inv.task) as u64);
    line.text(b" window ");
    line.number(release(t, inv));
    line.text(b" ");
    line.number(window_end(t, inv));
    let mut options = LineBuffer::new();
    put_abstract(&mut options, t, inv);
    put_parent_inv(&mut options, t, inv.parent);
    options.text(b"\n");
    put_both(sink, line.as_bytes(), options.as_bytes())
}

/// Writes the line of a function that is code; nothing of another.
pub fn show_function<W: Sink>(sink: &mut W, k: usize, function: &Function) -> Result<(), Failed>
    ensures { Puts (W.written sink.old) (W.written sink.new) (W.faults sink.old) (W.faults sink.new) (function_line k (fun_of function.now)) result }
{
    let Function::Code(code) = function else {
        return Ok(());
    };
    let mut line = LineBuffer::new();
    line.text(b"fn ");
    line.number(k as u64);
    line.text(b" instrs ");
    line.number(code.instrs.as_slice().len() as u64);
    line.text(b"\n");
    put_all(sink, line.as_bytes())
}

/// Writes the line of an E instruction at its address.
pub fn show_instr<W: Sink>(
    sink: &mut W,
    t: &Tables,
    address: usize,
    instr: &EInstr,
) -> Result<(), Failed>
    ensures { Puts (W.written sink.old) (W.written sink.new) (W.faults sink.old) (W.faults sink.new) (code_line t.now address instr.now) result }
{
    let mut line = LineBuffer::new();
    line.text(b"E ");
    line.number(address as u64);
    line.text(b" ");
    put_instr(&mut line, t, instr);
    line.text(b"\n");
    put_all(sink, line.as_bytes())
}

/// Writes the line of an S instruction at its place in the schedule of a node.
pub fn show_step<W: Sink>(
    sink: &mut W,
    selection: usize,
    place: usize,
    instr: &SInstr,
) -> Result<(), Failed>
    ensures { Puts (W.written sink.old) (W.written sink.new) (W.faults sink.old) (W.faults sink.new) (schedule_line selection place instr.now) result }
{
    let mut line = LineBuffer::new();
    line.text(b"S ");
    put_placed_step(&mut line, selection as u64, place as u64, instr);
    put_all(sink, line.as_bytes())
}
