// The lines of a run and of a plan. That each is one piece is tested.
ghost use Rattle.std.specs.Prelude.{◌≡◌, ◌<◌, ◌≤◌, ◌+◌, ◌++◌, length, IfSome};
ghost use Rattle.htl_base.specs.declared.limits.TheConstants as limit;
ghost use Rattle.htl_edge.specs.Content.{Puts};
ghost use Rattle.htl_model.specs.Lines.{line_text, shown_mode, totals_line};
ghost use Rattle.htl_model.specs.declared.line.Line.TheVariants.{ValueLine, ModeLine};
ghost use Rattle.htl_console.specs.Lines.{slice_line, done_line, instr_line, step_line, plan_line};

use crate::instrs::{put_instr, put_placed_step};
use crate::names::{comm_name, mode_name, module_name, put_inv};
use htl_base::{Time, Value};
use htl_ecode::EInstr;
use htl_edge::{Failed, LineBuffer, Sink, put_all};
use htl_model::Tables;
use htl_walk::SInstr;

/// Writes `j A B NAME`: the processor ran the job of an invocation from A to B. The number of an invocation that the tables lack
/// stands in place of its name, as in the lines of `line_d` and `line_e`.
#[inline(always)]
pub fn line_j<W: Sink>(
    sink: &mut W,
    t: &Tables,
    from: Time,
    to: Time,
    inv: u16,
) -> Result<(), Failed>
    ensures { Puts (W.written sink.old) (W.written sink.new) (W.faults sink.old) (W.faults sink.new) (slice_line t.now from to inv) result }
{
    let mut line = LineBuffer::new();
    line.text(b"j ");
    line.number(from);
    line.text(b" ");
    line.number(to);
    line.text(b" ");
    put_inv(&mut line, t, inv);
    line.text(b"\n");
    put_all(sink, line.as_bytes())
}

/// Writes `d T NAME`: the job of an invocation is done.
#[inline(always)]
pub fn line_d<W: Sink>(sink: &mut W, t: &Tables, at: Time, inv: u16) -> Result<(), Failed>
    ensures { Puts (W.written sink.old) (W.written sink.new) (W.faults sink.old) (W.faults sink.new) (done_line t.now at inv) result }
{
    let mut line = LineBuffer::new();
    line.text(b"d ");
    line.number(at);
    line.text(b" ");
    put_inv(&mut line, t, inv);
    line.text(b"\n");
    put_all(sink, line.as_bytes())
}

/// Writes `e T ADDRESS TEXT`: the E instruction at an address was done.
pub fn line_e<W: Sink>(
    sink: &mut W,
    t: &Tables,
    at: Time,
    address: u32,
    instr: &EInstr,
) -> Result<(), Failed>
    ensures { Puts (W.written sink.old) (W.written sink.new) (W.faults sink.old) (W.faults sink.new) (instr_line t.now at address instr.now) result }
{
    let mut line = LineBuffer::new();
    line.text(b"e ");
    line.number(at);
    line.text(b" ");
    line.number(address as u64);
    line.text(b" ");
    put_instr(&mut line, t, instr);
    line.text(b"\n");
    put_all(sink, line.as_bytes())
}

/// Writes `v T COMM X`: a communicator, which is one of the tables, has a new value; a bool is 0 or 1.
pub fn line_v<W: Sink>(
    sink: &mut W,
    t: &Tables,
    at: Time,
    comm: u16,
    x: Value,
) -> Result<(), Failed>
    requires { comm < length t.now.comms }
    ensures { Puts (W.written sink.old) (W.written sink.new) (W.faults sink.old) (W.faults sink.new) (line_text t.now (ValueLine at comm x)) result }
{
    let mut line = LineBuffer::new();
    line.text(b"v ");
    line.number(at);
    line.text(b" ");
    line.text(comm_name(t, comm));
    line.text(b" ");
    line.signed(x);
    line.text(b"\n");
    put_all(sink, line.as_bytes())
}

// Adds the name of a mode, or `-`.
fn put_shown_mode(line: &mut LineBuffer, t: &Tables, mode: Option<u16>)
    requires known { IfSome mode (λ m. m < length t.now.modes) }
    requires room { length line.old + 48 ≤ limit.MAX_LINE }
    ensures bytes { line.new ≡ line.old ++ shown_mode t.now mode }
    ensures len { length line.new ≤ length line.old + 48 }
{
    match mode {
        Some(mode) => line.text(mode_name(t, mode)),
        None => line.text(b"-"),
    }
}

/// Writes `m T MODULE MODE`: a module has another mode, or is inactive, with `-`. Both are of the tables.
pub fn line_m<W: Sink>(
    sink: &mut W,
    t: &Tables,
    at: Time,
    module: u16,
    mode: Option<u16>,
) -> Result<(), Failed>
    requires unit { «module» < length t.now.modules }
    requires mode { IfSome mode (λ m. m < length t.now.modes) }
    ensures { Puts (W.written sink.old) (W.written sink.new) (W.faults sink.old) (W.faults sink.new) (line_text t.now (ModeLine at «module» mode)) result }
{
    let mut line = LineBuffer::new();
    line.text(b"m ");
    line.number(at);
    line.text(b" ");
    line.text(module_name(t, module));
    line.text(b" ");
    put_shown_mode(&mut line, t, mode);
    line.text(b"\n");
    put_all(sink, line.as_bytes())
}

/// Writes `s T NODE:PLACE TEXT`: the S instruction at a place in the list of a node was left.
pub fn line_s<W: Sink>(
    sink: &mut W,
    at: Time,
    selection: u32,
    place: u32,
    instr: &SInstr,
) -> Result<(), Failed>
    ensures { Puts (W.written sink.old) (W.written sink.new) (W.faults sink.old) (W.faults sink.new) (step_line at selection place instr.now) result }
{
    let mut line = LineBuffer::new();
    line.text(b"s ");
    line.number(at);
    line.text(b" ");
    put_placed_step(&mut line, selection as u64, place as u64, instr);
    put_all(sink, line.as_bytes())
}

/// Writes `end T jobs N e K s L`: the totals of a run.
pub fn line_end<W: Sink>(sink: &mut W, at: Time, jobs: u64, e: u64, s: u64) -> Result<(), Failed>
    ensures { Puts (W.written sink.old) (W.written sink.new) (W.faults sink.old) (W.faults sink.new) (totals_line at jobs e s) result }
{
    let mut line = LineBuffer::new();
    line.text(b"end ");
    line.number(at);
    line.text(b" jobs ");
    line.number(jobs);
    line.text(b" e ");
    line.number(e);
    line.text(b" s ");
    line.number(s);
    line.text(b"\n");
    put_all(sink, line.as_bytes())
}

/// Writes `plan P jobs N s L`: the totals of a plan.
pub fn line_plan<W: Sink>(sink: &mut W, period: Time, jobs: u64, s: u64) -> Result<(), Failed>
    ensures { Puts (W.written sink.old) (W.written sink.new) (W.faults sink.old) (W.faults sink.new) (plan_line period jobs s) result }
{
    let mut line = LineBuffer::new();
    line.text(b"plan ");
    line.number(period);
    line.text(b" jobs ");
    line.number(jobs);
    line.text(b" s ");
    line.number(s);
    line.text(b"\n");
    put_all(sink, line.as_bytes())
}
