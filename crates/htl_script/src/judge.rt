// One line of a script, judged against what the events before it leave.
ghost use Rattle.std.specs.Prelude.{◌≡◌, ◌-◌, ◌^◌, ℕ, Bool, min, is_some, is_none, Option, MatchOption, true, false, Some, None, Ok, Err, ◌∷◌, [], nat_le, neg_ℤ, pos, if◌then◌else◌};
ghost use Rattle.std.specs.Option.{option_map};
ghost use Rattle.htl_base.specs.declared.Ty.TheVariants as ty;
ghost use Rattle.htl_model.specs.declared.event.Event.TheVariants as event;
ghost use Rattle.htl_script.specs.Judging.{past_after, at_first, judged_text, judged_statement, number_with_sign, is_value, is_above, is_below};
ghost use Rattle.htl_script.specs.Numbers.{number_of, signed_of};
ghost use Rattle.htl_script.specs.Statements.{statement_of, worded_statement, named_statement, named_fields, fields_of, At, End, Sense, Took};

use crate::ScriptKind;
use crate::field::{cut, cut_word};
use crate::lookup::Names;
use crate::number::{number, signed};
use htl_base::limits::MAX_INSTANT;
use htl_base::{Time, Ty, Value};
use htl_model::Event;

/// What the events before a line leave.
#[derive(Clone, Copy)]
pub struct Past {
    /// The last reading.
    pub reading: Option<Time>,
    /// The instant with which the run ends.
    pub end: Option<Time>,
}

impl Past {
    pub fn new() -> Past
        ensures { result ≡ at_first }
    {
        Past {
            reading: None,
            end: None,
        }
    }

    // Goes behind one more event.
    pub fn follow(&mut self, event: Event)
        ensures { self.new ≡ past_after self.old event }
    {
        match event {
            Event::At(instant) => self.reading = Some(instant),
            Event::End(instant) => self.end = Some(instant),
            Event::Sense { .. } | Event::Took { .. } => {}
        }
    }
}

// The event of a line of at most 255 bytes; None where it is passed over.
#[inline(always)]
pub fn judge(past: Past, names: &Names<'_>, text: &[u8]) -> Result<Option<Event>, ScriptKind>
    ensures { result ≡ judged_text names.now past text.now }
{
    if text.is_empty() || text[0] == b'#' {
        return Ok(None);
    }
    if past.end.is_some() {
        return Err(ScriptKind::After);
    }
    match statement(past, names, text) {
        Ok(event) => Ok(Some(event)),
        Err(kind) => Err(kind),
    }
}

#[inline(always)]
fn statement(past: Past, names: &Names<'_>, text: &[u8]) -> Result<Event, ScriptKind>
    ensures { result ≡ judged_statement names.now past (statement_of text.now) }
{
    match cut_word(text) {
        Some((word, rest)) => worded(past, names, word, rest),
        None => Err(ScriptKind::Form),
    }
}

// A word, and what follows the space behind it.
#[inline(always)]
fn worded(past: Past, names: &Names<'_>, word: &[u8], rest: &[u8]) -> Result<Event, ScriptKind>
    ensures { result ≡ judged_statement names.now past (worded_statement word.now rest.now) }
{
    match word {
        b"at" => at(past, names, rest),
        b"end" => end(past, names, rest),
        _ => behind_word(past, names, word, rest),
    }
}

// Of a word that wants a name.
fn behind_word(past: Past, names: &Names<'_>, word: &[u8], rest: &[u8]) -> Result<Event, ScriptKind>
    ensures { result ≡ judged_statement names.now past (named_fields word.now (fields_of rest.now)) }
{
    match cut(rest) {
        Some((name, digits)) => named(past, names, word, name, digits),
        None => Err(ScriptKind::Form),
    }
}

fn at(past: Past, names: &Names<'_>, digits: &[u8]) -> Result<Event, ScriptKind>
    ensures { result ≡ judged_statement names.now past (option_map At (number_of digits.now)) }
{
    let Some(instant) = number(digits) else {
        return Err(ScriptKind::Form);
    };
    if instant > MAX_INSTANT {
        return Err(ScriptKind::Range);
    }
    if !is_above(instant, past.reading) {
        return Err(ScriptKind::Order);
    }
    Ok(Event::At(instant))
}

fn end(past: Past, names: &Names<'_>, digits: &[u8]) -> Result<Event, ScriptKind>
    ensures { result ≡ judged_statement names.now past (option_map End (number_of digits.now)) }
{
    let Some(instant) = number(digits) else {
        return Err(ScriptKind::Form);
    };
    if instant > MAX_INSTANT {
        return Err(ScriptKind::Range);
    }
    if is_below(instant, past.reading) {
        return Err(ScriptKind::Order);
    }
    Ok(Event::End(instant))
}

// The instant is above the last reading, if there is one.
fn is_above(instant: Time, reading: Option<Time>) -> bool
    ensures { result ≡ is_above instant reading }
{
    match reading {
        None => true,
        Some(last) => instant > last,
    }
}

// There is a last reading, and the instant is below it.
fn is_below(instant: Time, reading: Option<Time>) -> bool
    ensures { result ≡ is_below instant reading }
{
    match reading {
        None => false,
        Some(last) => instant < last,
    }
}

// `sense NAME X` or `took NAME N`.
fn named(
    past: Past,
    names: &Names<'_>,
    word: &[u8],
    name: &[u8],
    digits: &[u8],
) -> Result<Event, ScriptKind>
    ensures { result ≡ judged_statement names.now past (named_statement word.now name.now digits.now) }
{
    if name.is_empty() {
        return Err(ScriptKind::Form);
    }
    match word {
        b"sense" => sense(past, names, name, digits),
        b"took" => took(past, names, name, digits),
        _ => Err(ScriptKind::Form),
    }
}

fn sense(past: Past, names: &Names<'_>, name: &[u8], digits: &[u8]) -> Result<Event, ScriptKind>
    ensures { result ≡ judged_statement names.now past (option_map (Sense name.now) (signed_of digits.now)) }
{
    let Some((minus, size)) = signed(digits) else {
        return Err(ScriptKind::Form);
    };
    let Some(comm) = names.sensor(name) else {
        return Err(ScriptKind::Unknown);
    };
    let Some(x) = value_of(names.type_of(comm), minus, size) else {
        return Err(ScriptKind::Range);
    };
    if past.reading.is_none() {
        return Err(ScriptKind::Order);
    }
    Ok(sensed(comm, x))
}

fn sensed(comm: u16, x: Value) -> Event
    ensures { result ≡ event.Sense comm x }
{
    Event::Sense { comm, x }
}

fn took(past: Past, names: &Names<'_>, name: &[u8], digits: &[u8]) -> Result<Event, ScriptKind>
    ensures { result ≡ judged_statement names.now past (option_map (Took name.now) (number_of digits.now)) }
{
    let Some(length) = number(digits) else {
        return Err(ScriptKind::Form);
    };
    let Some(inv) = names.invocation(name) else {
        return Err(ScriptKind::Unknown);
    };
    if length == 0 || length > MAX_LENGTH {
        return Err(ScriptKind::Range);
    }
    if past.reading.is_none() {
        return Err(ScriptKind::Order);
    }
    let worst = names.worst(inv);
    if length > worst {
        return Err(ScriptKind::Overrun {
            took: length,
            worst,
        });
    }
    Ok(Event::Took { inv, length })
}

// The largest length that a line can give; a larger one is out of range.
const MAX_LENGTH: u64 = 9_223_372_036_854_775_807;

// The value of a type with this sign and size; None where the type has no such value.
fn value_of(ty: Option<Ty>, minus: bool, size: u64) -> Option<Value>
    ensures { MatchOption result (is_value (minus, size) ty ≡ false) (λ x. (is_value (minus, size) ty ≡ true) × (x ≡ number_with_sign (minus, size))) }
{
    match ty {
        Some(Ty::Bool) => truth(minus, size),
        Some(Ty::Int) => integer(minus, size),
        None => None,
    }
}

fn truth(minus: bool, size: u64) -> Option<Value>
    ensures { result ≡ (if is_value (minus, size) (Some ty.Bool) then Some (number_with_sign (minus, size)) else None) }
{
    if !minus && size < 2 {
        Some(size as i64)
    } else {
        None
    }
}

fn integer(minus: bool, size: u64) -> Option<Value>
    ensures { result ≡ (if is_value (minus, size) (Some ty.Int) then Some (number_with_sign (minus, size)) else None) }
{
    if minus {
        negative(size)
    } else if size <= MAX_LENGTH {
        Some(size as i64)
    } else {
        None
    }
}

// The number below zero with this size, where it is a 64-bit value.
fn negative(size: u64) -> Option<Value>
    ensures { result ≡ (if nat_le size (2 ^ 63) then Some (neg_ℤ (pos size)) else None) }
{
    if size <= MAX_LENGTH {
        Some(-(size as i64))
    } else if size == MAX_LENGTH + 1 {
        Some(i64::MIN)
    } else {
        None
    }
}
