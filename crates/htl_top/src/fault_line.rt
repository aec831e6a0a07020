// The lines that tell of answers.
ghost use Rattle.std.specs.Prelude.{◌≡◌, ◌++◌, ◌+◌, ◌≤◌, codes, decimal, length};
ghost use Rattle.std.specs.Option.{option_copied};
ghost use Rattle.htl_open.specs.Lines.{Tells};
ghost use Rattle.htl_top.specs.Status.{fault_line as line_of, source_line, form_line, overload_line, kind_text, script_line, platform_line, log_word, log_line};

use crate::patch_line::patch_line;
use crate::{Outcome, SourceFault};
use htl_audit::{LogFault, LogKind};
use htl_base::Time;
use htl_edge::{LineBuffer, Sink, put_all};
use htl_model::{FormFault, Tables};
use htl_open::line::{form_text, numbered_line, plain_line, shelf_line};
use htl_open::object_line;
use htl_platform::PlatformFault;
use htl_script::{ScriptFault, ScriptKind};

/// Tells of an answer other than Done, by its line. The line of a broken form rule has its names from `tables`.
pub fn report<E: Sink>(err: &mut E, tables: Option<&Tables>, outcome: &Outcome)
    ensures told { Tells (E.written err.old) (E.written err.new) (E.faults err.old) (E.faults err.new) (line_of (option_copied tables.entry) outcome.now) }
    ensures quiet { outcome.now ≡ Outcome.Done → E.written err.new ≡ E.written err.old }
{
    if *outcome == Outcome::Done {
        return;
    }
    let line = fault_line(tables, outcome);
    let _ = put_all(err, line.as_bytes());
}

// The line that tells of an answer; empty for Done.
fn fault_line(tables: Option<&Tables>, outcome: &Outcome) -> LineBuffer
    ensures { result ≡ line_of (option_copied tables.entry) outcome.now }
{
    match outcome {
        Outcome::Done => LineBuffer::new(),
        Outcome::Usage => plain_line(b"htl: usage\n"),
        Outcome::Source(fault) => source_line(fault),
        Outcome::IllFormed(fault) => form_line(tables, fault),
        Outcome::Unschedulable {
            selection,
            from,
            to,
            demand,
        } => overload_line(*selection, *from, *to, *demand),
        Outcome::Object(fault) => object_line(tables, fault),
        Outcome::Script(fault) => script_line(fault),
        Outcome::Shelf(cause) => shelf_line(cause),
        Outcome::Read => plain_line(b"htl: read\n"),
        Outcome::Write => plain_line(b"htl: write\n"),
        Outcome::Memory => plain_line(b"htl: memory\n"),
        Outcome::Platform(fault) => platform_line(fault),
        Outcome::Task => plain_line(b"htl: task\n"),
        Outcome::Log(fault) => log_line(fault),
        Outcome::Patch(fault) => patch_line(tables, fault),
    }
}

fn source_line(fault: &SourceFault) -> LineBuffer
    ensures { result ≡ source_line fault.now }
{
    match fault {
        SourceFault::TooLong { seen } => numbered_line(b"htl: source too-long ", *seen),
        SourceFault::Char { at } => numbered_line(b"htl: source char ", *at),
        SourceFault::Number { at } => numbered_line(b"htl: source number ", *at),
        SourceFault::NameLong { at } => numbered_line(b"htl: source name-long ", *at),
        SourceFault::Long { at } => numbered_line(b"htl: source long ", *at),
        SourceFault::Syntax { at } => numbered_line(b"htl: source syntax ", *at),
        SourceFault::Twice { at } => numbered_line(b"htl: source twice ", *at),
        SourceFault::Unknown { at } => numbered_line(b"htl: source unknown ", *at),
        SourceFault::Kind { at } => numbered_line(b"htl: source kind ", *at),
        SourceFault::NotATree { program } => {
            numbered_line(b"htl: source not-a-tree ", *program as u64)
        }
        SourceFault::Limit { which, count } => limit_line(b"htl: source limit ", *which, *count),
        SourceFault::IllTyped { at } => numbered_line(b"htl: source type ", *at),
        SourceFault::Deep { at } => numbered_line(b"htl: source deep ", *at),
    }
}

/// The text, the number of a limit, how much there is, and a line feed.
pub fn limit_line(text: &[u8], which: u8, count: u32) -> LineBuffer
    requires { length text.now ≤ 64 }
    ensures { result ≡ text.now ++ decimal which ++ codes " count " ++ decimal count ++ codes "\n" }
{
    let mut line = LineBuffer::new();
    line.text(text);
    line.number(which as u64);
    line.text(b" count ");
    line.number(count as u64);
    line.text(b"\n");
    line
}

fn overload_line(selection: u32, from: Time, to: Time, demand: u64) -> LineBuffer
    ensures { result ≡ overload_line selection from to demand }
{
    let mut line = LineBuffer::new();
    line.text(b"htl: unschedulable ");
    line.number(selection as u64);
    line.text(b" from ");
    line.number(from);
    line.text(b" to ");
    line.number(to);
    line.text(b" demand ");
    line.number(demand);
    line.text(b"\n");
    line
}

fn form_line(tables: Option<&Tables>, fault: &FormFault) -> LineBuffer
    ensures { result ≡ form_line (option_copied tables.entry) fault.now }
{
    form_text(b"htl: ill-formed ", tables, fault)
}

fn script_line(fault: &ScriptFault) -> LineBuffer
    ensures { result ≡ script_line fault.now }
{
    let kind = kind_text(&fault.kind);
    let mut line = LineBuffer::new();
    line.text(b"htl: script ");
    line.number(fault.line);
    line.text(b" ");
    line.text(kind.as_bytes());
    line.text(b"\n");
    line
}

fn kind_text(kind: &ScriptKind) -> LineBuffer
    ensures text { result ≡ kind_text kind.now }
    ensures short { length result ≤ 64 }
{
    match kind {
        ScriptKind::Form => plain_line(b"form"),
        ScriptKind::Long => plain_line(b"long"),
        ScriptKind::Unknown => plain_line(b"unknown"),
        ScriptKind::Order => plain_line(b"order"),
        ScriptKind::Range => plain_line(b"range"),
        ScriptKind::Overrun { took, worst } => overrun_text(*took, *worst),
        ScriptKind::NoEnd => plain_line(b"no-end"),
        ScriptKind::After => plain_line(b"after"),
        ScriptKind::Size => plain_line(b"size"),
    }
}

fn overrun_text(took: u64, worst: u64) -> LineBuffer
    ensures text { result ≡ codes "overrun " ++ decimal took ++ codes " " ++ decimal worst }
    ensures short { length result ≤ 64 }
{
    let mut line = LineBuffer::new();
    line.text(b"overrun ");
    line.number(took);
    line.text(b" ");
    line.number(worst);
    line
}

fn platform_line(fault: &PlatformFault) -> LineBuffer
    ensures { result ≡ platform_line fault.now }
{
    match fault {
        PlatformFault::Text => plain_line(b"htl: platform text\n"),
        PlatformFault::Shape { entry } => numbered_line(b"htl: platform shape ", *entry as u64),
        PlatformFault::Unknown { entry } => numbered_line(b"htl: platform unknown ", *entry as u64),
        PlatformFault::Range { entry } => numbered_line(b"htl: platform range ", *entry as u64),
    }
}

fn log_line(fault: &LogFault) -> LineBuffer
    ensures { result ≡ log_line fault.now }
{
    let kind = log_word(fault.kind);
    let mut line = LineBuffer::new();
    line.text(b"htl: log ");
    line.number(fault.line);
    line.text(b" ");
    line.text(kind.as_bytes());
    line.text(b"\n");
    line
}

fn log_word(kind: LogKind) -> LineBuffer
    ensures text { result ≡ log_word kind }
    ensures short { length result ≤ 64 }
{
    match kind {
        LogKind::Form => plain_line(b"form"),
        LogKind::Unknown => plain_line(b"unknown"),
        LogKind::Order => plain_line(b"order"),
        LogKind::Outside => plain_line(b"outside"),
        LogKind::Over => plain_line(b"over"),
        LogKind::Before => plain_line(b"before"),
        LogKind::Short => plain_line(b"short"),
    }
}
