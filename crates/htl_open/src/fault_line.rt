// The lines that tell why an object isn't accepted.
ghost use Rattle.std.specs.Prelude.{◌≡◌, ◌++◌, ◌≤◌, codes, decimal, length};
ghost use Rattle.std.specs.Option.{option_copied};
ghost use Rattle.htl_open.specs.Lines.{object_line, field_word, departure_word, miss_text as miss_text_of};

use crate::line::{form_text, numbered_line};
use htl_ecode::{EFault, EKind};
use htl_edge::LineBuffer;
use htl_load::ObjectFault;
use htl_model::Tables;
use htl_object::{MalKind, Malformed};
use htl_walk::Miss;

/// The line of a fault of an object. That of a broken form rule has its names from `tables`.
pub fn object_line(tables: Option<&Tables>, fault: &ObjectFault) -> LineBuffer
    ensures { result ≡ object_line (option_copied tables.entry) fault.now }
{
    match fault {
        ObjectFault::Malformed(bad) => field_line(b"htl: object malformed ", bad),
        ObjectFault::IllFormed(fault) => form_text(b"htl: object ill-formed ", tables, fault),
        ObjectFault::Function { id } => numbered_line(b"htl: object function ", *id as u64),
        ObjectFault::ECode(fault) => departure_line(fault),
        ObjectFault::Schedule { selection, miss } => schedule_line(*selection, miss),
    }
}

/// The text, the kind of a bad field, where it begins, and a line feed.
pub fn field_line(text: &[u8], bad: &Malformed) -> LineBuffer
    requires { length text.now ≤ 64 }
    ensures { result ≡ text.now ++ field_word bad.now.kind ++ codes " " ++ decimal bad.now.offset ++ codes "\n" }
{
    let mut line = LineBuffer::new();
    line.text(text);
    line.text(field_word(&bad.kind));
    line.text(b" ");
    line.number(bad.offset);
    line.text(b"\n");
    line
}

fn field_word(kind: &MalKind) -> &'static [u8]
    ensures word { result.now ≡ field_word kind.now }
    ensures short { length result.now ≤ 8 }
{
    match kind {
        MalKind::Magic => b"magic",
        MalKind::Version => b"version",
        MalKind::Short => b"short",
        MalKind::Index => b"index",
        MalKind::Tag => b"tag",
        MalKind::Spelling => b"spelling",
        MalKind::Trailing => b"trailing",
    }
}

fn departure_line(fault: &EFault) -> LineBuffer
    ensures { result ≡ codes "htl: object ecode " ++ decimal fault.now.address ++ codes " " ++ departure_word fault.now.kind ++ codes "\n" }
{
    let mut line = LineBuffer::new();
    line.text(b"htl: object ecode ");
    line.number(fault.address as u64);
    line.text(b" ");
    line.text(departure_word(&fault.kind));
    line.text(b"\n");
    line
}

fn departure_word(kind: &EKind) -> &'static [u8]
    ensures word { result.now ≡ departure_word kind.now }
    ensures short { length result.now ≤ 8 }
{
    match kind {
        EKind::Target => b"target",
        EKind::Action => b"action",
        EKind::Delay => b"delay",
        EKind::Endless => b"endless",
        EKind::Branch => b"branch",
    }
}

fn schedule_line(selection: u32, miss: &Miss) -> LineBuffer
    ensures { result ≡ codes "htl: object schedule " ++ decimal selection ++ codes " " ++ miss_text_of miss.now ++ codes "\n" }
{
    let text = miss_text(miss);
    let mut line = LineBuffer::new();
    line.text(b"htl: object schedule ");
    line.number(selection as u64);
    line.text(b" ");
    line.text(text.as_bytes());
    line.text(b"\n");
    line
}

fn miss_text(miss: &Miss) -> LineBuffer
    ensures text { result ≡ miss_text_of miss.now }
    ensures short { length result ≤ 96 }
{
    match miss {
        Miss::Late {
            position,
            finish,
            window_end,
        } => late_text(*position, *finish, *window_end),
        Miss::Unfinished { position, left } => unfinished_text(*position, *left),
        Miss::Before {
            position,
            predecessor,
            at,
        } => before_text(*position, *predecessor, *at),
        Miss::Order { instr } => order_text(*instr),
    }
}

fn late_text(position: u16, finish: u64, window_end: u64) -> LineBuffer
    ensures text { result ≡ codes "late " ++ decimal position ++ codes " finish " ++ decimal finish ++ codes " end " ++ decimal window_end }
    ensures short { length result ≤ 96 }
{
    let mut line = LineBuffer::new();
    line.text(b"late ");
    line.number(position as u64);
    line.text(b" finish ");
    line.number(finish);
    line.text(b" end ");
    line.number(window_end);
    line
}

fn unfinished_text(position: u16, left: u64) -> LineBuffer
    ensures text { result ≡ codes "unfinished " ++ decimal position ++ codes " left " ++ decimal left }
    ensures short { length result ≤ 96 }
{
    let mut line = LineBuffer::new();
    line.text(b"unfinished ");
    line.number(position as u64);
    line.text(b" left ");
    line.number(left);
    line
}

fn before_text(position: u16, predecessor: u16, at: u32) -> LineBuffer
    ensures text { result ≡ codes "before " ++ decimal position ++ codes " " ++ decimal predecessor ++ codes " at " ++ decimal at }
    ensures short { length result ≤ 96 }
{
    let mut line = LineBuffer::new();
    line.text(b"before ");
    line.number(position as u64);
    line.text(b" ");
    line.number(predecessor as u64);
    line.text(b" at ");
    line.number(at as u64);
    line
}

fn order_text(instr: u32) -> LineBuffer
    ensures text { result ≡ codes "order " ++ decimal instr }
    ensures short { length result ≤ 96 }
{
    let mut line = LineBuffer::new();
    line.text(b"order ");
    line.number(instr as u64);
    line
}
