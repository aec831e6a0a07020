// The lines of values and modes that are others than before.
ghost use Rattle.std.specs.Prelude.{◌≡◌, ◌<◌, ◌≤◌, ℕ, false, length, get_or, pos, Some, IfSome};
ghost use Rattle.htl_edge.specs.Content.{Puts};
ghost use Rattle.htl_model.specs.Lists.{up_to};
ghost use Rattle.htl_model.specs.Lines.{lines_text};
ghost use Rattle.htl_model.specs.Meaning.{same_mode};
ghost use Rattle.htl_emach.specs.Calendars.{list_at};
ghost use Rattle.htl_runs.specs.lines.ChangedItems.{mode_change, value_changes, mode_changes, change_lines};
ghost use Rattle.htl_machine.specs.Marks.{is_marked};
ghost use Rattle.htl_machine.specs.Noting.{MarksChanges};

use crate::noted::Noted;
use crate::works::{Machines, Program};
use htl_base::{Time, Value};
use htl_console::{line_m, line_v};
use htl_edge::{Failed, Sink};
use htl_emach::{EMach, World};
use htl_model::Tables;

// How many communicators there are.
fn comm_count(t: &Tables) -> usize
    ensures count { result ≡ length t.now.comms }
    ensures few { result ≤ 1024 }
{
    let parts = t.parts();
    parts.comms.as_slice().len()
}

// How many modules there are.
fn module_count(t: &Tables) -> usize
    ensures count { result ≡ length t.now.modules }
    ensures few { result ≤ 64 }
{
    let parts = t.parts();
    parts.modules.as_slice().len()
}

// The line of a value.
fn put_value<W: Sink>(
    sink: &mut W,
    t: &Tables,
    at: Time,
    c: usize,
    values: &[Value],
    world: &World,
) -> Result<(), Failed>
    requires known { c < length t.now.comms }
    requires few { c < 1024 }
    requires old { length values.now ≡ length t.now.comms }
    requires new { length world.now.values ≡ length t.now.comms }
    ensures { Puts (W.written sink.old) (W.written sink.new) (W.faults sink.old) (W.faults sink.new) (lines_text t.now (value_changes at values.now world.now.values c)) result }
{
    let old = values[c];
    let new = world.value(c as u16);
    if at == 0 || old != new {
        line_v(sink, t, at, c as u16, new)
    } else {
        Ok(())
    }
}

// The mode at a place; None where there is none.
pub(crate) fn mode_at(modes: &[Option<u16>], k: usize) -> Option<u16>
    ensures { result ≡ list_at modes.now k }
{
    if k < modes.len() { modes[k] } else { None }
}

// The lines of the values: those of the communicators that are marked, at instant 0 of all.
fn put_values<W: Sink>(
    sink: &mut W,
    t: &Tables,
    at: Time,
    noted: &Noted,
    world: &World,
) -> Result<(), Failed>
    requires old { length noted.now.values ≡ length t.now.comms }
    requires new { length world.now.values ≡ length t.now.comms }
    requires marked { (c : ℕ) → is_marked noted.now.written c ≡ false → get_or noted.now.values c (pos 0) ≡ get_or world.now.values c (pos 0) }
    ensures { Puts (W.written sink.old) (W.written sink.new) (W.faults sink.old) (W.faults sink.new) (lines_text t.now (up_to (value_changes at noted.now.values world.now.values) (length t.now.comms))) result }
{
    let count = comm_count(t);
    let mut c = noted.next_value(at, 0, count);
    while c < count {
        if let Err(failed) = put_value(sink, t, at, c, noted.values(), world) {
            return Err(failed);
        }
        c = noted.next_value(at, c + 1, count);
    }
    Ok(())
}

// Whether a module is in the same mode.
pub(crate) fn same_mode(old: Option<u16>, new: Option<u16>) -> bool
    ensures { result ≡ same_mode old new }
{
    match (old, new) {
        (None, None) => true,
        (Some(a), Some(b)) => a == b,
        _ => false,
    }
}

// The line of a mode.
fn put_mode<W: Sink>(
    sink: &mut W,
    t: &Tables,
    at: Time,
    module: u16,
    old: Option<u16>,
    new: Option<u16>,
) -> Result<(), Failed>
    requires known { «module» < length t.now.modules }
    requires mode { IfSome new (λ m. m < length t.now.modes) }
    ensures { Puts (W.written sink.old) (W.written sink.new) (W.faults sink.old) (W.faults sink.new) (lines_text t.now (mode_change at «module» old new)) result }
{
    if same_mode(old, new) {
        Ok(())
    } else {
        line_m(sink, t, at, module, new)
    }
}

// The lines of the modes: those of the modules that are marked.
fn put_modes<W: Sink>(
    sink: &mut W,
    t: &Tables,
    at: Time,
    noted: &Noted,
    m: &EMach,
) -> Result<(), Failed>
    requires old { length noted.now.modes ≡ length t.now.modules }
    requires modes { (k : ℕ) → IfSome (list_at m.now.calendar.modes k) (λ q. q < length t.now.modes) }
    requires marked { (k : ℕ) → is_marked noted.now.decided k ≡ false → list_at noted.now.modes k ≡ list_at m.now.calendar.modes k }
    ensures { Puts (W.written sink.old) (W.written sink.new) (W.faults sink.old) (W.faults sink.new) (lines_text t.now (up_to (mode_changes at noted.now.modes m.now.calendar.modes) (length t.now.modules))) result }
{
    let count = module_count(t);
    let mut k = noted.next_mode(0, count);
    while k < count {
        let old = mode_at(noted.modes(), k);
        if let Err(failed) = put_mode(sink, t, at, k as u16, old, m.mode(k as u16)) {
            return Err(failed);
        }
        k = noted.next_mode(k + 1, count);
    }
    Ok(())
}

/// Writes the lines of the values and modes that are others than before.
#[inline(always)]
pub fn put_changes<W: Sink>(
    sink: &mut W,
    machines: &Machines,
    program: &Program<'_>,
    at: Time,
) -> Result<(), Failed>
    requires values { length machines.now.noted.values ≡ length program.now.tables.now.comms }
    requires modes { length machines.now.noted.modes ≡ length program.now.tables.now.modules }
    requires new { length machines.now.works.world.values ≡ length program.now.tables.now.comms }
    requires known { (k : ℕ) → IfSome (list_at machines.now.emach.calendar.modes k) (λ q. q < length program.now.tables.now.modes) }
    requires marked { MarksChanges machines.now.noted machines.now.works.world.values machines.now.emach.calendar.modes }
    ensures { Puts (W.written sink.old) (W.written sink.new) (W.faults sink.old) (W.faults sink.new) (change_lines program.now.tables.now program.now.show at machines.now.noted.values machines.now.works.world.values machines.now.noted.modes machines.now.emach.calendar.modes) result }
{
    if !program.show.values() {
        return Ok(());
    }
    let noted = &machines.noted;
    if let Err(failed) = put_values(sink, program.tables, at, noted, &machines.works.world) {
        return Err(failed);
    }
    put_modes(sink, program.tables, at, noted, &machines.emach)
}
