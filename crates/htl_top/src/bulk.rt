// The command `bulk`: a generated program, run on generated readings.
ghost use Rattle.std.specs.Prelude.{◌≡◌, ◌≤◌, ◌<◌, ◌*◌, ◌++◌, ◌∷◌, ℕ, ℤ, List, [], get_or, length, pos, Err, IfOk, OnOk};
ghost use Rattle.htl_base.specs.declared.limits.TheConstants as limit;
ghost use Rattle.htl_bulk.specs.BulkEvents.{readings_of};
ghost use Rattle.htl_bulk.specs.BulkTree.{bulk_bytes};
ghost use Rattle.htl_compile.specs.Building.{IsCompiledTo};
ghost use Rattle.htl_console.specs.declared.shown.Shown.TheVariants as shown;
ghost use Rattle.htl_edge.specs.Content.{Puts};
ghost use Rattle.htl_machine.specs.Calls.{Follows, IsFinished, IsSameRun, IsSensorValue};
ghost use Rattle.htl_model.specs.Lines.{line_text, lines_text};
ghost use Rattle.htl_model.specs.Lists.{up_to};
ghost use Rattle.htl_model.specs.declared.event.Event.{Event as Told};
ghost use Rattle.htl_model.specs.declared.event.Event.TheVariants as event;
ghost use Rattle.htl_model.specs.declared.line.Line.TheVariants.{ValueLine};
ghost use Rattle.htl_top.specs.Bulk.{object_text, bulk_text, seen_text, value_seen, IsOutOfMemory, IsPut, IsBulkPut};

use crate::play::write_totals;
use crate::stop::PutStop;
use htl_base::{Memory, Time, Value};
use htl_bulk::bulk_source;
use htl_compile::{SourceStop, compile_source};
use htl_console::{Shown, line_v};
use htl_edge::{Failed, Sink};
use htl_load::{LoadFault, Loaded, load};
use htl_machine::Machine;
use htl_model::Tables;
use std::alloc::Global;

// The rounds that are run, and the ticks of one.
const ROUNDS: Time = 100;

const ROUND: Time = 1_000;

// The sensor of the generated program.
const SENSOR: u16 = 0;

/// Runs the generated program of so many modules, 1 to 64, for 100 rounds of 1,000 ticks, and writes the values of its communicators at
/// the end and the totals line. In round `r` the sensor shows `r` from the round's start on. All memory is taken before the first byte
/// is written; the events are told one by one, and no list of them is kept.
pub fn bulk<W: Sink>(alloc: Global, modules: u32, out: &mut W) -> Result<(), PutStop>
    requires some { 1 ≤ modules }
    requires few { modules ≤ limit.MAX_MODULES }
    ensures answer { IsBulkPut modules (W.written out.old) (W.written out.new) (W.faults out.old) (W.faults out.new) result }
    ensures write_count { (result ≡ Err PutStop.Write → ⊥) → W.faults out.new ≡ W.faults out.old }
{
    match generated_object(alloc, modules) {
        Ok(object) => run_generated(alloc, object.as_slice(), out),
        Err(Memory) => Err(PutStop::Memory),
    }
}

// The bytes of the generated program's object. Its source has no fault, so the compiler refuses it for want of memory alone.
fn generated_object(alloc: Global, modules: u32) -> Result<Vec<u8>, Memory>
    requires some { 1 ≤ modules }
    requires few { modules ≤ limit.MAX_MODULES }
    ensures { IfOk result (λ object. IsCompiledTo (bulk_bytes modules) object.items) }
{
    let source = match bulk_source(alloc, modules) {
        Ok(source) => source,
        Err(Memory) => return Err(Memory),
    };
    match compile_source(alloc, source.as_slice()) {
        Ok(object) => Ok(object),
        Err(refusal) => Err(memory_of(refusal)),
    }
}

// What stops the source of the generated program: it has no fault, so no memory was left.
fn memory_of(refusal: SourceStop) -> Memory
    requires { IsOutOfMemory refusal }
{
    match refusal {
        SourceStop::Memory => Memory,
        SourceStop::Fault(_) => unreachable!(),
        SourceStop::Platform(_) => unreachable!(),
        SourceStop::IllFormed { .. } => unreachable!(),
        SourceStop::Unschedulable { .. } => unreachable!(),
    }
}

// Loads the bytes of the generated program's object, which are accepted, and runs it.
fn run_generated<W: Sink>(alloc: Global, object: &[u8], out: &mut W) -> Result<(), PutStop>
    requires { (n : ℕ) × (1 ≤ n) × (n ≤ limit.MAX_MODULES) × IsCompiledTo (bulk_bytes n) object.now }
    ensures answer { (n : ℕ) (compiled : IsCompiledTo (bulk_bytes n) object.now) →
        IsPut (bulk_text compiled.tables) (W.written out.old) (W.written out.new) (W.faults out.old) (W.faults out.new) result }
    ensures write_count { (result ≡ Err PutStop.Write → ⊥) → W.faults out.new ≡ W.faults out.old }
{
    match load(alloc, object) {
        Ok(loaded) => measure(alloc, &loaded, ROUNDS, out),
        Err(LoadFault::Refused(_)) => unreachable!(),
        Err(LoadFault::Memory) => Err(PutStop::Memory),
    }
}

// Runs an object whose first communicator is a sensor of type int for so many rounds, and writes the values and the totals at their end.
fn measure<W: Sink>(alloc: Global, l: &Loaded, rounds: Time, out: &mut W) -> Result<(), PutStop>
    requires sensor { (x : ℤ) → IsSensorValue l.now.tables 0 x }
    requires rounds { rounds ≤ 1000000 }
    ensures answer { IsPut (object_text rounds l.now) (W.written out.old) (W.written out.new) (W.faults out.old) (W.faults out.new) result }
    ensures write_count { (result ≡ Err PutStop.Write → ⊥) → W.faults out.new ≡ W.faults out.old }
{
    let Ok(mut machine) = Machine::new(alloc, l, Shown::Nothing) else {
        return Err(PutStop::Memory);
    };
    match write_measured(&mut machine, l.tables(), rounds, out) {
        Ok(()) => Ok(()),
        Err(_) => Err(PutStop::Write),
    }
}

// Runs a machine for so many rounds, and writes what it has then.
fn write_measured<W: Sink>(
    machine: &mut Machine<'_>,
    t: &Tables,
    rounds: Time,
    out: &mut W,
) -> Result<(), Failed>
    requires follows { Follows machine.old [] }
    requires show { machine.old.show ≡ shown.Nothing }
    requires sensor { (x : ℤ) → IsSensorValue machine.old.object.tables 0 x }
    requires tables { t.now ≡ machine.old.object.tables }
    requires rounds { rounds ≤ 1000000 }
    ensures { Puts (W.written out.old) (W.written out.new) (W.faults out.old) (W.faults out.new) (object_text rounds machine.old.object) result }
{
    if let Err(failed) = run_rounds(machine, rounds, out) {
        return Err(failed);
    }
    write_state(machine, t, out)
}

// Tells a machine the readings of so many rounds and their end. It shows nothing.
fn run_rounds<W: Sink>(machine: &mut Machine<'_>, rounds: Time, out: &mut W) -> Result<(), Failed>
    requires follows { Follows machine.old [] }
    requires show { machine.old.show ≡ shown.Nothing }
    requires sensor { (x : ℤ) → IsSensorValue machine.old.object.tables 0 x }
    requires rounds { rounds ≤ 1000000 }
    ensures text { Puts (W.written out.old) (W.written out.new) (W.faults out.old) (W.faults out.new) [] result }
    ensures finished { OnOk result (IsFinished machine.new (readings_of rounds) (1000 * rounds)) }
    ensures same { IsSameRun machine.old machine.new }
{
    for round in 0..rounds {
        if let Err(failed) = machine.advance(ROUND * round, out) {
            return Err(failed);
        }
        sense_round(machine, round);
    }
    machine.finish(ROUND * rounds, out)
}

// Tells a machine what the sensor shows in a round: its number.
fn sense_round(machine: &mut Machine<'_>, round: Time)
    requires follows { (es : List Told) × Follows machine.old es }
    requires sensor { (x : ℤ) → IsSensorValue machine.old.object.tables 0 x }
    requires round { round ≤ 1000000 }
    ensures follows { (es : List Told) → Follows machine.old es → Follows machine.new (es ++ event.Sense 0 (pos round) ∷ []) }
    ensures same { IsSameRun machine.old machine.new }
{
    machine.sense(SENSOR, round as Value);
}

// Writes the values of a machine and its numbers.
fn write_state<W: Sink>(machine: &Machine<'_>, t: &Tables, out: &mut W) -> Result<(), Failed>
    requires { length machine.now.run_state.world.values ≡ length t.now.comms }
    ensures { Puts (W.written out.old) (W.written out.new) (W.faults out.old) (W.faults out.new) (seen_text t.now machine.now) result }
{
    if let Err(failed) = write_values(machine, t, out) {
        return Err(failed);
    }
    write_totals(machine, out)
}

// Writes the value of each communicator.
fn write_values<W: Sink>(machine: &Machine<'_>, t: &Tables, out: &mut W) -> Result<(), Failed>
    requires { length machine.now.run_state.world.values ≡ length t.now.comms }
    ensures { Puts (W.written out.old) (W.written out.new) (W.faults out.old) (W.faults out.new) (lines_text t.now (up_to (value_seen machine.now) (length t.now.comms))) result }
{
    t.keeps_ranges();
    for c in 0..t.parts().comms.as_slice().len() {
        if let Err(failed) = write_value(machine, t, c as u16, out) {
            return Err(failed);
        }
    }
    Ok(())
}

// Writes the value of a communicator, at the last reading.
fn write_value<W: Sink>(
    machine: &Machine<'_>,
    t: &Tables,
    comm: u16,
    out: &mut W,
) -> Result<(), Failed>
    requires known { comm < length t.now.comms }
    requires value { comm < length machine.now.run_state.world.values }
    ensures { Puts (W.written out.old) (W.written out.new) (W.faults out.old) (W.faults out.new)
        (line_text t.now (ValueLine machine.now.run_state.reading comm (get_or machine.now.run_state.world.values comm (pos 0)))) result }
{
    line_v(out, t, machine.reading(), comm, machine.value(comm))
}
