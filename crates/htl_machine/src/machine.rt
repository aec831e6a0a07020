ghost use Rattle.std.specs.Prelude.{◌≡◌, ◌≤◌, ◌<◌, ◌-◌, ◌+◌, ◌++◌, ℕ, suc, List, [], ◌∷◌, length, get_or, replicate, None, IfOk, IfSome, OnOk, OnErr, pos, true, false};
ghost use Rattle.htl_base.specs.declared.limits.TheConstants as limit;
ghost use Rattle.htl_edge.specs.Content.{Puts};
ghost use Rattle.htl_emach.specs.Calendars.{list_at};
ghost use Rattle.htl_model.specs.declared.event.Event.{Event as Told};
ghost use Rattle.htl_model.specs.declared.event.Event.TheVariants as event;
ghost use Rattle.htl_machine.specs.{Calls.Follows, Calls.IsSensorValue, Calls.IsLength, Calls.IsSameRun, Calls.IsFinished, Calls.IsUpTo, Calls.first_seen, Calls.text_between, Quiet.AreQuiet};
ghost use Rattle.htl_runs.specs.{events.ToldSoFar.shown_as, events.ToldSoFar.taken_as, lines.Programs.lines_of};
ghost use Rattle.htl_object.specs.Accepted.{IsAccepted};

use crate::beginning::close_and_begin;
use crate::close::close_instant;
use crate::lengths::take;
use crate::memory::{no_modes, seen_values};
use crate::noted::Noted;
use crate::open::open_instant;
use crate::path::Path;
use crate::sensors::Sensors;
use crate::tally::Tally;
use crate::works::{Machines, Program, StandingList, Works};
use htl_base::limits::MAX_INSTANT;
use htl_base::{Memory, Seq, Time, Value};
use htl_console::Shown;
use htl_edge::{Failed, Sink};
use htl_emach::{EMach, World};
use htl_load::Loaded;
use htl_model::lookup::worst_cases;
use htl_smach::SMach;
use std::alloc::{AllocError, Global};
use std::marker::Model;

/// The numbers of a run up to its last reading. Each stands once it is at 18,446,744,073,709,551,615.
#[derive(Clone, Copy)]
pub struct Totals {
    /// The last reading, in ticks.
    pub at: Time,
    /// The jobs that were done.
    pub jobs: u64,
    /// The E instructions that were done.
    pub e: u64,
    /// The S instructions that were left.
    pub s: u64,
}

/// Both machines on one accepted object. It follows a list of events: what sensors show, how long jobs take, and how far the clock
/// has come. Contracts see the object, what is shown, the state of the run, the E machine, the list that stands and the numbers.
pub struct Machine<'a> {
    loaded: &'a Loaded,
    show: Shown,
    spent: bool,
    reading: Time,
    sensors: Sensors,
    takes: Seq<Time>,
    machines: Machines,
    path: Path,
    // Nothing is due from the reading up to before this instant, in ticks; 0 where that isn't known.
    due: Time,
}

impl Drop for Machine<'_> {
    fn drop(self) {
        let Self {
            loaded: _,
            show: _,
            spent: _,
            reading: _,
            sensors: _,
            takes: _,
            machines: _,
            path: _,
            due: _,
        } = self;
    }
}

impl<'a> Model for Machine<'a> {
    ghost use Rattle.htl_machine.specs.Calls.{Seen};
    ghost use Rattle.htl_machine.specs.Fitted.{IsFitted, seen_by};
    ghost use Rattle.htl_object.specs.contracts.object.Object as object_row;
    ghost use Rattle.std.specs.Coded.{codes};

    ghost Value = { Seen };

    ghost coded = { Prim.hlevel (codes, object_row.the_row.coded) };

    ghost view = { λ m. seen_by m.loaded.now m.show m.spent m.reading m.sensors m.takes m.machines m.path };

    ghost invariant = { λ m. IsFitted (seen_by m.loaded.now m.show m.spent m.reading m.sensors m.takes m.machines m.path) m.sensors m.machines.noted m.path m.due };
}

impl<'a> Machine<'a> {
    /// Stands before instant 0, with reading 0, and has followed no event. All memory is taken here; want of it is the one refusal.
    pub fn new(alloc: Global, l: &'a Loaded, show: Shown) -> Result<Machine<'a>, Memory>
        ensures follows { IfOk result (λ m. Follows m []) }
        ensures object { IfOk result (λ m. m.object ≡ l.now) }
        ensures show { IfOk result (λ m. m.show ≡ show) }
    {
        let t = l.tables();
        let world = World::new(alloc, t)?;
        let emach = EMach::new(alloc, t, l.ecode())?;
        let Ok(machine) = Machine::at_start(alloc, l, show, world, emach) else {
            return Err(Memory);
        };
        Ok(machine)
    }

    // The machine before instant 0, around its world and its E machine.
    fn at_start(
        alloc: Global,
        l: &'a Loaded,
        show: Shown,
        world: World,
        emach: EMach,
    ) -> Result<Machine<'a>, AllocError>
        requires values { length world.values ≡ length l.now.tables.comms }
        requires modes { emach.calendar.modes ≡ replicate (length l.now.tables.modules) None }
        ensures { IfOk result (λ m. m ≡ first_seen l.now show world emach) }
    {
        let t = l.tables();
        let shows = seen_values(alloc, t, &world)?;
        let values = seen_values(alloc, t, &world)?;
        let takes = worst_cases(alloc, t)?;
        let modes = no_modes(alloc, t)?;
        let path = Path::new(alloc, t)?;
        Ok(Machine {
            loaded: l,
            show,
            spent: false,
            reading: 0,
            sensors: Sensors::new(shows),
            takes: Seq::new(takes),
            machines: Machines {
                emach,
                works: Works {
                    s_machine: SMach::new(),
                    world,
                    tally: Tally {
                        jobs: 0,
                        e: 0,
                        s: 0,
                    },
                },
                noted: Noted::new(values, modes),
            },
            path,
            due: 0,
        })
    }

    /// What a sensor shows from the last reading on: it is taken at the sensor's next instance. The machine isn't spent, the
    /// communicator is a sensor, and the value is of its type.
    pub fn sense(&mut self, comm: u16, x: Value)
        requires follows { (es : List Told) × Follows self.old es }
        requires sensor { IsSensorValue self.old.object.tables comm x }
        ensures follows { (es : List Told) → Follows self.old es → Follows self.new (es ++ event.Sense comm x ∷ []) }
        ensures seen { self.new ≡ record self.old { run_state = shown_as comm x self.old.run_state } }
    {
        self.due = 0;
        let has = self.machines.works.world.value(comm);
        self.sensors.sense(comm, x, has);
    }

    /// How many ticks jobs of an invocation take that are released at the last reading or later. The machine isn't spent, the
    /// invocation is concrete, and the length is from 1 to its worst case.
    pub fn took(&mut self, inv: u16, length: Time)
        requires follows { (es : List Told) × Follows self.old es }
        requires length { IsLength self.old.object.tables inv length }
        ensures follows { (es : List Told) → Follows self.old es → Follows self.new (es ++ event.Took inv length ∷ []) }
        ensures seen { self.new ≡ record self.old { run_state = taken_as inv length self.old.run_state } }
    {
        self.due = 0;
        self.takes.set(inv as usize, length);
        let jobs = self.path.jobs();
        take(&mut self.machines.works.s_machine, jobs, inv, length);
    }

    /// Does all instants before `to`, in ticks, writes their lines, and makes `to` the reading. The machine isn't spent, and `to` is
    /// from the reading to 1,000,000,000. `Failed` comes only where the sink's count rose: then a prefix of the lines was written,
    /// and the machine is spent.
    #[inline(always)]
    pub fn advance<W: Sink>(&mut self, to: Time, sink: &mut W) -> Result<(), Failed>
        requires follows { (es : List Told) × Follows self.old es }
        requires order { self.old.run_state.reading ≤ to }
        requires at { to ≤ limit.MAX_INSTANT }
        ensures text { (es : List Told) → Follows self.old es → Puts (W.written sink.old) (W.written sink.new) (W.faults sink.old) (W.faults sink.new) (text_between self.old.object es self.old.show self.old.run_state.reading to) result }
        ensures follows { (es : List Told) → Follows self.old es → OnOk result (Follows self.new (es ++ event.At to ∷ [])) }
        ensures spent { OnErr result (self.new.run_state.spent ≡ true) }
        ensures same { IsSameRun self.old self.new }
    {
        let due = match self.pass(to, sink) {
            Ok(due) => due,
            Err(failed) => return Err(failed),
        };
        self.reading = to;
        self.due = due;
        Ok(())
    }

    /// Does all instants up to and including `to`, in ticks, writes their lines, makes `to` the reading, and spends the machine: its
    /// values are then those at `to`, its numbers those of the run. The machine isn't spent, and `to` is from the reading to
    /// 1,000,000,000. `Failed` comes only where the sink's count rose: then a prefix of the lines was written; the machine is spent.
    pub fn finish<W: Sink>(&mut self, to: Time, sink: &mut W) -> Result<(), Failed>
        requires follows { (es : List Told) × Follows self.old es }
        requires order { self.old.run_state.reading ≤ to }
        requires at { to ≤ limit.MAX_INSTANT }
        ensures text { (es : List Told) → Follows self.old es → Puts (W.written sink.old) (W.written sink.new) (W.faults sink.old) (W.faults sink.new) (text_between self.old.object es self.old.show self.old.run_state.reading (suc to)) result }
        ensures finished { (es : List Told) → Follows self.old es → OnOk result (IsFinished self.new es to) }
        ensures spent { OnErr result (self.new.run_state.spent ≡ true) }
        ensures same { IsSameRun self.old self.new }
    {
        if let Err(failed) = self.pass(to + 1, sink) {
            return Err(failed);
        }
        self.reading = to;
        self.spent = true;
        Ok(())
    }

    // Does the instants from the reading up to before `to`, and tells up to before which instant nothing is due from there on.
    #[inline(always)]
    fn pass<W: Sink>(&mut self, to: Time, sink: &mut W) -> Result<Time, Failed>
        requires follows { (es : List Told) × Follows self.old es }
        requires order { self.old.run_state.reading ≤ to }
        requires at { to ≤ limit.MAX_INSTANT + 1 }
        ensures text { (es : List Told) → Follows self.old es → Puts (W.written sink.old) (W.written sink.new) (W.faults sink.old) (W.faults sink.new) (text_between self.old.object es self.old.show self.old.run_state.reading to) result }
        ensures before { (es : List Told) → Follows self.old es → OnOk result (IsUpTo self.new es to) }
        ensures quiet { IfOk result (λ due. AreQuiet self.new to due) }
        ensures spent { OnErr result (self.new.run_state.spent ≡ true) }
        ensures same { IsSameRun self.old self.new }
        ensures reading { self.new.run_state.reading ≡ self.old.run_state.reading }
    {
        let mut at = self.reading;
        let mut due = self.known_due();
        while due < to {
            if let Err(failed) = self.instant(due, sink) {
                return Err(failed);
            }
            at = due + 1;
            due = self.next_due(at);
        }
        Ok(due)
    }

    // An instant before which nothing is due from the reading on: the one that is known, where it is no earlier.
    fn known_due(&self) -> Time
        requires follows { (es : List Told) × Follows self.now es }
        requires at { self.now.run_state.reading ≤ limit.MAX_INSTANT + 1 }
        ensures low { self.now.run_state.reading ≤ result }
        ensures quiet { AreQuiet self.now self.now.run_state.reading result }
        ensures accepted { IsAccepted self.now.object }
    {
        if self.reading <= self.due {
            self.due
        } else {
            self.next_due(self.reading)
        }
    }

    // The first instant, from one behind the first on, at which something is due: a trigger, an instruction that is left, or a
    // sensor that is shown another value than it has; 1,000,000,001 where there is none.
    fn next_due(&self, from: Time) -> Time
        requires before { (es : List Told) × IsUpTo self.now es from }
        requires read { self.now.run_state.reading ≤ from }
        requires later { 0 < from }
        requires at { from ≤ limit.MAX_INSTANT + 1 }
        ensures low { from ≤ result }
        ensures quiet { AreQuiet self.now from result }
        ensures accepted { IsAccepted self.now.object }
    {
        let machines = &self.machines;
        let shown = self.sensors.next(
            &machines.works.world,
            self.loaded.tables(),
            from,
            MAX_INSTANT + 1,
        );
        let triggered = sooner(machines.emach.next(), from, shown);
        let schedule = self.path.schedule(self.loaded.schedules());
        sooner(machines.works.s_machine.next(schedule), from, triggered)
    }

    // Does one instant: the records that are due, the writes and the sensors; then the switches, a list where one begins, the
    // reads with the releases, and what changed.
    #[inline(never)]
    fn instant<W: Sink>(&mut self, at: Time, sink: &mut W) -> Result<(), Failed>
        requires before { (es : List Told) × IsUpTo self.old es at }
        requires read { self.old.run_state.reading ≤ at }
        requires at { at ≤ limit.MAX_INSTANT }
        ensures text { (es : List Told) → IsUpTo self.old es at → Puts (W.written sink.old) (W.written sink.new) (W.faults sink.old) (W.faults sink.new) (lines_of self.old.object es self.old.show at) result }
        ensures before { (es : List Told) → IsUpTo self.old es at → OnOk result (IsUpTo self.new es (suc at)) }
        ensures spent { OnErr result (self.new.run_state.spent ≡ true) }
        ensures same { IsSameRun self.old self.new }
        ensures reading { self.new.run_state.reading ≡ self.old.run_state.reading }
    {
        self.due = 0;
        let l = self.loaded;
        let t = l.tables();
        let code = l.ecode();
        t.keeps_ranges();
        let schedules = l.schedules();
        let program = Program {
            tables: t,
            code,
            schedules,
            show: self.show,
        };
        let machines = &mut self.machines;
        machines
            .noted
            .settle(&machines.works.world, &machines.emach);
        let list = StandingList {
            jobs: self.path.jobs(),
            schedule: self.path.schedule(schedules),
            node: self.path.node(),
        };
        if let Err(failed) = open_instant(sink, machines, &program, &list, &mut self.sensors, at) {
            self.spent = true;
            return Err(failed);
        }
        if self.path.round_begins(at) {
            let takes = self.takes.as_slice();
            let path = &mut self.path;
            if let Err(failed) = close_and_begin(sink, machines, &program, path, takes, at) {
                self.spent = true;
                return Err(failed);
            }
            Ok(())
        } else {
            if let Err(failed) = close_instant(sink, machines, &program, self.path.jobs(), at) {
                self.spent = true;
                return Err(failed);
            }
            Ok(())
        }
    }

    /// The numbers so far, and the reading.
    pub fn totals(&self) -> Totals
        ensures at { result.at ≡ self.now.run_state.reading }
        ensures jobs { result.jobs ≡ self.now.jobs }
        ensures e { result.e ≡ self.now.e }
        ensures s { result.s ≡ self.now.s }
    {
        Totals {
            at: self.reading,
            jobs: self.machines.works.tally.jobs,
            e: self.machines.works.tally.e,
            s: self.machines.works.tally.s,
        }
    }

    /// The value of a communicator, which is in range.
    pub fn value(&self, comm: u16) -> Value
        requires { comm < length self.now.run_state.world.values }
        ensures { result ≡ get_or self.now.run_state.world.values comm (pos 0) }
    {
        self.machines.works.world.value(comm)
    }

    /// The last reading, in ticks; 0 before the first.
    pub fn reading(&self) -> Time
        ensures { result ≡ self.now.run_state.reading }
    {
        self.reading
    }

    /// A module's mode at the last instant that was done; None: inactive, or before 0. No clause says it behind `finish`.
    pub fn mode(&self, module: u16) -> Option<u16>
        ensures { result ≡ list_at self.now.standing.calendar.modes «module» }
    {
        self.machines.emach.mode(module)
    }

    /// Whether the run has ended: `finish` was called, or a sink refused.
    pub fn is_spent(&self) -> bool
        ensures { result ≡ self.now.run_state.spent }
    {
        self.spent
    }

    /// The values and buffers: the machine has this one world.
    pub fn world(&self) -> &World
        ensures { result.now ≡ self.now.run_state.world }
    {
        &self.machines.works.world
    }
}

// The sooner of two instants, but none before `from`.
fn sooner(next: Option<Time>, from: Time, to: Time) -> Time
    requires { from ≤ to }
    ensures low { from ≤ result }
    ensures high { result ≤ to }
    ensures before { IfSome next (λ n. (at : ℕ) → from ≤ at → at < result → at < n) }
{
    match next {
        Some(n) => n.max(from).min(to),
        None => to,
    }
}
