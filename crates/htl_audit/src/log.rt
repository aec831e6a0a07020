// The reader of a job log.
ghost use Rattle.std.specs.Prelude.{◌≡◌, ◌≤◌, ◌<◌, ◌∷◌, [], length, IfOk, IfSome, OnErr, MatchOption, Err, All};
ghost use Rattle.std.specs.List.{position_from};
ghost use Rattle.htl_script.specs.Lines.{is_line_feed};
ghost use Rattle.htl_audit.specs.declared.slice.LogFault.{LogFault as Fault};
ghost use Rattle.htl_audit.specs.declared.log.LogStop.TheVariants as stop;
ghost use Rattle.htl_audit.specs.Logs.{Read, Refused as RefusedLog, log_of, line_of as line_of_text, line_of_fields, instant_of, IsFirstLine};

use crate::{LogFault, LogKind, Slice};
use htl_base::Time;
use htl_base::limits::MAX_INSTANT;
use htl_model::Tables;
use htl_script::field::cut;
use htl_script::index::Index;
use htl_script::lookup::Names;
use htl_script::number::number;
use std::alloc::Global;

/// Why a log isn't read.
#[derive(Clone, Copy, Debug)]
pub enum LogStop {
    /// A line has another form, or names no concrete invocation.
    Refused(LogFault),
    /// No memory was left.
    Memory,
}

// An instant, in ticks.
fn instant(field: &[u8]) -> Option<Time>
    ensures { result ≡ instant_of field.now }
{
    match number(field) {
        Some(n) => if n > MAX_INSTANT { None } else { Some(n) },
        None => None,
    }
}

// `j A B NAME`.
fn of_fields(
    names: &Names<'_>,
    word: &[u8],
    from: &[u8],
    to: &[u8],
    name: &[u8],
) -> Result<Slice, LogKind>
    ensures line { result ≡ line_of_fields names.now (word.now ∷ from.now ∷ to.now ∷ name.now ∷ []) }
    ensures known { IfOk result (λ x. x.inv < length names.now.invs) }
{
    if word != "j".as_bytes() {
        return Err(LogKind::Form);
    }
    let Some(from) = instant(from) else {
        return Err(LogKind::Form);
    };
    let Some(to) = instant(to) else {
        return Err(LogKind::Form);
    };
    if name.is_empty() {
        return Err(LogKind::Form);
    }
    match names.invocation(name) {
        Some(inv) => Ok(Slice { from, to, inv }),
        None => Err(LogKind::Unknown),
    }
}

// The slice of a line, or the first rule that it breaks.
fn line_of(names: &Names<'_>, text: &[u8]) -> Result<Slice, LogKind>
    ensures line { result ≡ line_of_text names.now text.now }
    ensures known { IfOk result (λ x. x.inv < length names.now.invs) }
{
    let Some((word, rest)) = cut(text) else {
        return Err(LogKind::Form);
    };
    let Some((from, rest)) = cut(rest) else {
        return Err(LogKind::Form);
    };
    let Some((to, name)) = cut(rest) else {
        return Err(LogKind::Form);
    };
    match cut(name) {
        Some(_) => Err(LogKind::Form),
        None => of_fields(names, word, from, to, name),
    }
}

// The place of the first line feed.
fn line_feed(bytes: &[u8]) -> Option<usize>
    ensures first { result ≡ position_from is_line_feed 0 bytes.now }
    ensures bound { IfSome result (λ place. place < length bytes.now) }
{
    bytes.iter().position(|b| *b == b'\n')
}

// The first line, and what follows it.
fn first_line(bytes: &[u8]) -> (&[u8], &[u8])
    requires { 1 ≤ length bytes.now }
    ensures line { IsFirstLine bytes.now result.0.now result.1.now }
    ensures shorter { length result.1.now < length bytes.now }
{
    match line_feed(bytes) {
        Some(place) => (&bytes[..place], &bytes[place + 1..]),
        None => (bytes, &bytes[bytes.len()..]),
    }
}

/// Reads a log. It has one slice a line; `Refused` comes exactly for the first line that has another form or names no concrete
/// invocation.
pub fn read_log(alloc: Global, bytes: &[u8], t: &Tables) -> Result<Vec<Slice>, LogStop>
    ensures read { IfOk result (λ v. log_of t.now bytes.now ≡ Read v.items) }
    ensures known { IfOk result (λ v. All (λ x. x.inv < length t.now.invs) v.items) }
    ensures refused { (f : Fault) → result ≡ Err (stop.Refused f) → log_of t.now bytes.now ≡ RefusedLog f.line f.kind }
{
    let index = Index::new(t);
    let names = Names::new(t, &index);
    let mut slices = Vec::new(alloc);
    let mut left = bytes;
    let mut line = 1u64;
    while !left.is_empty() {
        let (text, rest) = first_line(left);
        match line_of(&names, text) {
            Ok(slice) => {
                if slices.push(slice).is_err() {
                    return Err(LogStop::Memory);
                }
            }
            Err(kind) => return Err(LogStop::Refused(LogFault { line, kind })),
        }
        left = rest;
        line += 1;
    }
    Ok(slices)
}
