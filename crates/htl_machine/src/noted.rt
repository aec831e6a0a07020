// The values and modes before an instant, and which of them may be others since.
ghost use Rattle.std.specs.Prelude.{◌≡◌, ◌≤◌, ◌<◌, ◌&&◌, ◌||◌, ℕ, true, false, cond, eqb, length, get_or, slice_get, IfSome, pos};
ghost use Rattle.htl_base.specs.declared.limits.TheConstants as limit;
ghost use Rattle.htl_emach.specs.Calendars.{list_at};
ghost use Rattle.htl_emach.specs.Contents.{comm_of};
ghost use Rattle.htl_machine.specs.Marks.{is_marked};
ghost use Rattle.htl_machine.specs.Noting.{MarksChanges, KeepsNoted, written_comm as written_comm_of, is_written, decides};

use crate::marks::Marks;
use htl_base::{Seq, Time, Value};
use htl_ecode::EInstr;
use htl_emach::{EDone, EMach, World};
use htl_model::{End, Tables};

/// The values and the modes as they were before an instant, and which of them may be others since: the communicators that
/// an instruction wrote or whose sensor was set, and the modules that entered or left a mode.
pub struct Noted {
    values: Seq<Value>,
    modes: Seq<Option<u16>>,
    written: Marks,
    decided: Marks,
}

impl Drop for Noted {
    fn drop(self) {
        let Self {
            values: _,
            modes: _,
            written: _,
            decided: _,
        } = self;
    }
}

impl Noted {
    /// These values and modes, of which none is another since.
    pub fn new(values: Vec<Value>, modes: Vec<Option<u16>>) -> Noted
        ensures values { result.values ≡ values.items }
        ensures modes { result.modes ≡ modes.items }
        ensures unwritten { (c : ℕ) → is_marked result.written c ≡ false }
        ensures undecided { (k : ℕ) → is_marked result.decided k ≡ false }
    {
        Noted {
            values: Seq::new(values),
            modes: Seq::new(modes),
            written: Marks::new(),
            decided: Marks::new(),
        }
    }

    /// The values before the instant.
    pub fn values(&self) -> &[Value]
        ensures { result.now ≡ self.now.values }
    {
        self.values.as_slice()
    }

    /// The modes before the instant.
    pub fn modes(&self) -> &[Option<u16>]
        ensures { result.now ≡ self.now.modes }
    {
        self.modes.as_slice()
    }

    /// The sensor of a communicator is set.
    pub fn set(&mut self, comm: usize)
        requires { comm < limit.MAX_COMMUNICATORS }
        ensures written { (c : ℕ) → is_marked self.new.written c ≡ cond (eqb c comm) true (is_marked self.old.written c) }
        ensures decided { self.new.decided ≡ self.old.decided }
        ensures kept { KeepsNoted self.old self.new }
    {
        self.written.put(comm, true);
    }

    /// An instruction is done: what it writes or decides may be another than before.
    pub fn note(&mut self, t: &Tables, done: &EDone)
        requires { done.now.«module» < limit.MAX_MODULES }
        ensures written { (c : ℕ) → is_marked self.new.written c ≡ (is_marked self.old.written c || is_written t.now done.now.instr c) }
        ensures decided { (k : ℕ) → is_marked self.new.decided k ≡ (is_marked self.old.decided k || (decides done.now.instr && eqb k done.now.«module»)) }
        ensures kept { KeepsNoted self.old self.new }
    {
        if let Some(comm) = written_comm(t, done.instr) {
            self.written.put(comm as usize, true);
        }
        if decides(done.instr) {
            self.decided.put(done.module as usize, true);
        }
    }

    /// The first communicator, from one on, among so many, whose value may be another than before; their number where
    /// there is none. At instant 0 it is the one.
    pub fn next_value(&self, at: Time, from: usize, count: usize) -> usize
        requires few { count ≤ limit.MAX_COMMUNICATORS }
        requires within { from ≤ count }
        ensures low { from ≤ result }
        ensures high { result ≤ count }
        ensures first { at ≡ 0 → result ≡ from }
        ensures skipped { (c : ℕ) → from ≤ c → c < result → is_marked self.now.written c ≡ false }
    {
        if at == 0 {
            return from;
        }
        if self.written.is_clear() {
            return count;
        }
        self.written.next(from).min(count)
    }

    /// The first module, from one on, among so many, whose mode may be another than before; their number where there is none.
    pub fn next_mode(&self, from: usize, count: usize) -> usize
        requires few { count ≤ limit.MAX_MODULES }
        requires within { from ≤ count }
        ensures low { from ≤ result }
        ensures high { result ≤ count }
        ensures skipped { (k : ℕ) → from ≤ k → k < result → is_marked self.now.decided k ≡ false }
    {
        if self.decided.is_clear() {
            return count;
        }
        self.decided.next(from).min(count)
    }

    /// Notes what the values and modes are now: the next instant begins.
    pub fn settle(&mut self, world: &World, m: &EMach)
        requires comms { length world.now.values ≤ limit.MAX_COMMUNICATORS }
        requires modules { length m.now.calendar.modes ≤ limit.MAX_MODULES }
        requires marked { MarksChanges self.old world.now.values m.now.calendar.modes }
        ensures values { self.new.values ≡ world.now.values }
        ensures modes { self.new.modes ≡ m.now.calendar.modes }
        ensures unwritten { (c : ℕ) → is_marked self.new.written c ≡ false }
        ensures undecided { (k : ℕ) → is_marked self.new.decided k ≡ false }
    {
        settle_values(&mut self.values, &self.written, world);
        settle_modes(&mut self.modes, &self.decided, m);
        self.written.clear();
        self.decided.clear();
    }
}

// The marked values become those of the world.
fn settle_values(values: &mut Seq<Value>, written: &Marks, world: &World)
    requires few { length world.now.values ≤ limit.MAX_COMMUNICATORS }
    requires count { length values.old ≡ length world.now.values }
    requires same { (c : ℕ) → is_marked written.now c ≡ false → get_or values.old c (pos 0) ≡ get_or world.now.values c (pos 0) }
    ensures { values.new ≡ world.now.values }
{
    let count = values.as_slice().len();
    let mut c = written.next(0);
    while c < count {
        values.set(c, world.value(c as u16));
        c = written.next(c + 1);
    }
}

// The marked modes become those of the E machine.
fn settle_modes(modes: &mut Seq<Option<u16>>, decided: &Marks, m: &EMach)
    requires few { length m.now.calendar.modes ≤ limit.MAX_MODULES }
    requires count { length modes.old ≡ length m.now.calendar.modes }
    requires same { (k : ℕ) → is_marked decided.now k ≡ false → list_at modes.old k ≡ list_at m.now.calendar.modes k }
    ensures { modes.new ≡ m.now.calendar.modes }
{
    let count = modes.as_slice().len();
    let mut k = decided.next(0);
    while k < count {
        modes.set(k, m.mode(k as u16));
        k = decided.next(k + 1);
    }
}

// The communicator that an instruction writes.
fn written_comm(t: &Tables, instr: EInstr) -> Option<u16>
    ensures comm { result ≡ written_comm_of t.now instr }
    ensures known { IfSome result (λ c. c < limit.MAX_COMMUNICATORS) }
{
    t.keeps_ranges();
    let EInstr::CallWrite { inv, output } = instr else {
        return None;
    };
    let invs = t.parts().invs.as_slice();
    if inv as usize >= invs.len() {
        return None;
    }
    comm_at(invs[inv as usize].writes.as_slice(), output)
}

// The communicator at an end; None at a port, and where there is no such end.
fn comm_at(ends: &[End], place: u16) -> Option<u16>
    ensures { result ≡ comm_of (slice_get ends.now place) }
{
    if place as usize >= ends.len() {
        return None;
    }
    match ends[place as usize] {
        End::Comm { comm, .. } => Some(comm),
        End::Port { .. } => None,
    }
}

// Whether an instruction enters or leaves a mode.
fn decides(instr: EInstr) -> bool
    ensures { result ≡ decides instr }
{
    matches!(instr, EInstr::Enter { .. } | EInstr::Leave)
}
