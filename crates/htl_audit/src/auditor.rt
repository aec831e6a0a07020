// The auditor: a machine for the values, and what is kept of a log.
ghost use Rattle.std.specs.Prelude.{◌≡◌, ◌++◌, ◌∷◌, [], ◌≤◌, ◌<◌, ℕ, suc, List, length, Some, None, Ok, Err, IfOk, IfErr, All, drop, ◌%◌, true, false, OnOk, OnErr};
ghost use Rattle.htl_model.specs.declared.event.Event.{Event as Told};
ghost use Rattle.htl_model.specs.declared.event.Event.TheVariants as event;
ghost use Rattle.htl_machine.specs.Calls.{IsSensorValue, IsLength, text_between};
ghost use Rattle.htl_runs.specs.events.ToldSoFar.{shown_as};
ghost use Rattle.htl_base.specs.declared.limits.TheConstants as limit;
ghost use Rattle.htl_console.specs.declared.shown.Shown.TheVariants.{Values};
ghost use Rattle.htl_edge.specs.Content.{Puts};
ghost use Rattle.htl_machine.specs.Calls as machines;
ghost use Rattle.htl_model.specs.Frames.{root_periods, begins};
ghost use Rattle.htl_object.specs.Accepted.{IsAccepted};
ghost use Rattle.htl_audit.specs.Auditing.{AreSized, AreNone, IsGone, AuditFollows, IsAudited, IsStopped, IsSameAudit, IsNextStart};
ghost use Rattle.htl_audit.specs.Keeping.{passed, lengths_begun};
ghost use Rattle.htl_audit.specs.Jobs.{all_rounds};
ghost use Rattle.htl_audit.specs.Legal.{first_fault, jobs_done};
ghost use Rattle.htl_audit.specs.Verdicts.{verdict_of};

use crate::feeders::Feeders;
use crate::ledger::Ledger;
use crate::starts::next_start;
use crate::{LogFault, LogKind, Slice};
use htl_base::{Memory, Seq, Time, Value};
use htl_console::Shown;
use htl_edge::{Failed, Sink};
use htl_load::Loaded;
use htl_machine::Machine;
use htl_model::Tables;
use htl_model::lookup::worst_cases;
use std::alloc::Global;
use std::marker::Model;

/// The numbers of a legal log.
#[derive(Clone, Copy)]
pub struct AuditTotals {
    /// The end of the run, in ticks.
    pub at: Time,
    /// The jobs whose slices add up to what they take.
    pub jobs: u64,
    /// The lines.
    pub slices: u64,
}

/// An accepted object and a job log. It follows events as a machine does: its values and modes are those of a machine that it holds,
/// whatever the log says, and it judges the lines of the log against the jobs of the rounds.
pub struct Auditor<'a> {
    loaded: &'a Loaded,
    machine: Machine<'a>,
    log: &'a [Slice],
    takes: Seq<Time>,
    feeders: Feeders,
    // No window ends before it of a job that may fall short and isn't noted yet.
    due: Time,
    ledger: Ledger,
}

impl Drop for Auditor<'_> {
    fn drop(self) {
        let Self {
            loaded: _,
            machine: _,
            log: _,
            takes: _,
            feeders: _,
            due: _,
            ledger: _,
        } = self;
    }
}

impl<'a> Model for Auditor<'a> {
    ghost use Rattle.htl_audit.specs.Auditing.{Audit, IsAuditor, IsAware};
    ghost use Rattle.htl_object.specs.contracts.object.Object as object_row;
    ghost use Rattle.std.specs.Coded.{codes};

    ghost Value = { Audit };

    ghost coded = { Prim.hlevel (codes, object_row.the_row.coded) };

    ghost view = { λ a. record { machine = a.machine; log = a.log.now; takes = a.takes; kept = a.ledger } };

    ghost invariant = { λ a. IsAuditor a.loaded.now a.machine a.takes a.log.now a.ledger × IsAware a.loaded.now.tables a.feeders a.due a.ledger };
}

impl<'a> Auditor<'a> {
    /// Stands before instant 0 and has followed no event. Each line of the log is of an invocation of the object. All memory of the
    /// audit is taken here; want of it is the one refusal.
    pub fn new(alloc: Global, l: &'a Loaded, log: &'a [Slice]) -> Result<Auditor<'a>, Memory>
        requires lines { All (λ x. x.inv < length l.now.tables.invs) log.now }
        ensures follows { IfOk result (λ a. AuditFollows a []) }
        ensures object { IfOk result (λ a. a.machine.object ≡ l.now) }
        ensures log { IfOk result (λ a. a.log ≡ log.now) }
    {
        let t = l.tables();
        let machine = Machine::new(alloc, l, Shown::Values)?;
        let Ok(takes) = worst_cases(alloc, t) else {
            return Err(Memory);
        };
        let Ok(feeders) = Feeders::new(alloc, t) else {
            return Err(Memory);
        };
        let Ok(ledger) = Ledger::new(alloc, t) else {
            return Err(Memory);
        };
        Ok(Auditor {
            loaded: l,
            machine,
            log,
            takes: Seq::new(takes),
            feeders,
            due: 0,
            ledger,
        })
    }

    /// What a sensor shows from the last reading on. The machine isn't spent, the communicator is a sensor, and the value is of its
    /// type.
    pub fn sense(&mut self, comm: u16, x: Value)
        requires follows { (es : List Told) × AuditFollows self.old es }
        requires sensor { IsSensorValue self.old.machine.object.tables comm x }
        ensures follows { (es : List Told) → AuditFollows self.old es → AuditFollows self.new (es ++ event.Sense comm x ∷ []) }
        ensures same { IsSameAudit self.old self.new }
    {
        self.machine.sense(comm, x);
    }

    /// How many ticks jobs of an invocation take that are released at the last reading or later. The machine isn't spent, the
    /// invocation is concrete, and the length is from 1 to its worst case.
    pub fn took(&mut self, inv: u16, ticks: Time)
        requires follows { (es : List Told) × AuditFollows self.old es }
        requires ticks { IsLength self.old.machine.object.tables inv ticks }
        ensures follows { (es : List Told) → AuditFollows self.old es → AuditFollows self.new (es ++ event.Took inv ticks ∷ []) }
        ensures same { IsSameAudit self.old self.new }
    {
        let now = self.machine.reading();
        let t = self.loaded.tables();
        self.due = self.due.min(self.ledger.window_end(t, inv));
        self.ledger.take(t, now, inv, ticks);
        self.takes.set(inv as usize, ticks);
        self.machine.took(inv, ticks);
    }

    // Judges the lines that end before the instant, and the jobs whose windows do; there is nothing to judge of jobs where none does.
    fn judge_before(&mut self, now: Time)
        requires { now ≤ 1000000001 }
        ensures kept { self.new ≡ record self.old { kept = passed self.old.machine.object.tables now (drop self.old.kept.place self.old.log) self.old.kept } }
        ensures accepted { IsAccepted self.old.machine.object }
        ensures sized { AreSized self.old }
    {
        let t = self.loaded.tables();
        t.keeps_ranges();
        self.ledger.judge_to(t, &self.feeders, now, self.log);
        if self.due < now {
            self.due = self.ledger.settle(t, now);
        }
    }

    // Begins the rounds of an instant, in the modes of the machine.
    fn begin(&mut self, at: Time)
        ensures { self.new ≡ record self.old { kept = lengths_begun self.old.machine.object.tables self.old.machine.standing.calendar.modes self.old.takes at self.old.kept } }
    {
        self.ledger.begin(
            self.loaded.tables(),
            &self.machine,
            self.takes.as_slice(),
            at,
        );
        self.due = 0;
    }

    // Lets the machine do all instants before `to`.
    fn run_to<W: Sink>(&mut self, to: Time, sink: &mut W) -> Result<(), Failed>
        requires follows { (es : List Told) × machines.Follows self.old.machine es }
        requires order { self.old.machine.run_state.reading ≤ to }
        requires at { to ≤ limit.MAX_INSTANT }
        ensures text { (es : List Told) → machines.Follows self.old.machine es → Puts (W.written sink.old) (W.written sink.new) (W.faults sink.old) (W.faults sink.new) (text_between self.old.machine.object es self.old.machine.show self.old.machine.run_state.reading to) result }
        ensures follows { (es : List Told) → machines.Follows self.old.machine es → OnOk result (machines.Follows self.new.machine (es ++ event.At to ∷ [])) }
        ensures spent { OnErr result (self.new.machine.run_state.spent ≡ true) }
        ensures run { machines.IsSameRun self.old.machine self.new.machine }
        ensures rest { self.new ≡ record self.old { machine = self.new.machine } }
    {
        self.machine.advance(to, sink)
    }

    // Lets the machine do all instants up to and including `to`.
    fn end_run<W: Sink>(&mut self, to: Time, sink: &mut W) -> Result<(), Failed>
        requires follows { (es : List Told) × machines.Follows self.old.machine es }
        requires order { self.old.machine.run_state.reading ≤ to }
        requires at { to ≤ limit.MAX_INSTANT }
        ensures text { (es : List Told) → machines.Follows self.old.machine es → Puts (W.written sink.old) (W.written sink.new) (W.faults sink.old) (W.faults sink.new) (text_between self.old.machine.object es self.old.machine.show self.old.machine.run_state.reading (suc to)) result }
        ensures finished { (es : List Told) → machines.Follows self.old.machine es → OnOk result (machines.IsFinished self.new.machine es to) }
        ensures spent { OnErr result (self.new.machine.run_state.spent ≡ true) }
        ensures run { machines.IsSameRun self.old.machine self.new.machine }
        ensures rest { self.new ≡ record self.old { machine = self.new.machine } }
    {
        self.machine.finish(to, sink)
    }

    // Goes over an instant at which rounds begin, where none begins before.
    fn begin_rounds<W: Sink>(&mut self, at: Time, sink: &mut W) -> Result<(), Failed>
        requires stopped { (es : List Told) × IsStopped self.old es }
        requires order { self.old.machine.run_state.reading ≤ at }
        requires at { at < limit.MAX_INSTANT }
        requires start { begins (root_periods self.old.machine.object.tables) at ≡ true }
        requires none { (n : ℕ) → self.old.machine.run_state.reading ≤ n → n < at → begins (root_periods self.old.machine.object.tables) n ≡ false }
        ensures text { (es : List Told) → IsStopped self.old es → Puts (W.written sink.old) (W.written sink.new) (W.faults sink.old) (W.faults sink.new) (text_between self.old.machine.object es Values self.old.machine.run_state.reading (suc at)) result }
        ensures stopped { (es : List Told) → IsStopped self.old es → OnOk result (IsStopped self.new es) }
        ensures reading { OnOk result (self.new.machine.run_state.reading ≡ suc at) }
        ensures spent { OnErr result (self.new.machine.run_state.spent ≡ true) }
        ensures same { IsSameAudit self.old self.new }
    {
        self.judge_before(at + 1);
        if let Err(failed) = self.run_to(at + 1, sink) {
            return Err(failed);
        }
        self.begin(at);
        Ok(())
    }

    // The first start of rounds from the last reading on.
    fn next_start(&self) -> Option<Time>
        requires { self.now.machine.run_state.reading ≤ 1000000000 }
        ensures start { IsNextStart self.now.machine.object.tables self.now.machine.run_state.reading result }
        ensures accepted { IsAccepted self.now.machine.object }
    {
        next_start(self.loaded.tables(), self.machine.reading())
    }

    // The first start of rounds from the last reading on, or `to` where none comes before.
    fn next_stop(&self, to: Time) -> Time
        requires order { self.now.machine.run_state.reading ≤ to }
        requires at { to ≤ limit.MAX_INSTANT }
        ensures low { self.now.machine.run_state.reading ≤ result }
        ensures high { result ≤ to }
        ensures start { result < to → begins (root_periods self.now.machine.object.tables) result ≡ true }
        ensures none { AreNone self.now result }
        ensures accepted { IsAccepted self.now.machine.object }
    {
        if let Some(at) = self.next_start() {
            if at < to {
                return at;
            }
        }
        to
    }

    // Goes over all instants before `to` at which rounds begin.
    fn pass_starts<W: Sink>(&mut self, to: Time, sink: &mut W) -> Result<(), Failed>
        requires follows { (es : List Told) × AuditFollows self.old es }
        requires order { self.old.machine.run_state.reading ≤ to }
        requires at { to ≤ limit.MAX_INSTANT }
        ensures text { (es : List Told) → IsStopped self.old es → IsGone self.old self.new es to (W.written sink.old) (W.written sink.new) (W.faults sink.old) (W.faults sink.new) result }
        ensures stopped { (es : List Told) → IsStopped self.old es → OnOk result (IsStopped self.new es) }
        ensures low { OnOk result (self.old.machine.run_state.reading ≤ self.new.machine.run_state.reading) }
        ensures high { OnOk result (self.new.machine.run_state.reading ≤ to) }
        ensures none { OnOk result (AreNone self.new to) }
        ensures spent { OnErr result (self.new.machine.run_state.spent ≡ true) }
        ensures same { IsSameAudit self.old self.new }
        ensures accepted { IsAccepted self.old.machine.object }
    {
        'starts: loop {
            let at = self.next_stop(to);
            if at == to {
                return Ok(());
            }
            if let Err(failed) = self.begin_rounds(at, sink) {
                return Err(failed);
            }
        }
    }

    /// Does all instants before `to`, in ticks, writes their v and m lines, and makes `to` the reading; judges the lines of the log
    /// that end before it. The machine isn't spent, and `to` is from the reading to 1,000,000,000. `Failed` comes only where the sink's
    /// count rose: then a prefix of the lines was written, and the auditor is spent. Beside the instants at which something is due it
    /// goes over those at which rounds begin.
    pub fn advance<W: Sink>(&mut self, to: Time, sink: &mut W) -> Result<(), Failed>
        requires follows { (es : List Told) × AuditFollows self.old es }
        requires order { self.old.machine.run_state.reading ≤ to }
        requires at { to ≤ limit.MAX_INSTANT }
        ensures text { (es : List Told) → AuditFollows self.old es → Puts (W.written sink.old) (W.written sink.new) (W.faults sink.old) (W.faults sink.new) (text_between self.old.machine.object es Values self.old.machine.run_state.reading to) result }
        ensures follows { (es : List Told) → AuditFollows self.old es → OnOk result (AuditFollows self.new (es ++ event.At to ∷ [])) }
        ensures spent { OnErr result (self.new.machine.run_state.spent ≡ true) }
        ensures same { IsSameAudit self.old self.new }
    {
        if let Err(failed) = self.pass_starts(to, sink) {
            return Err(failed);
        }
        self.judge_before(to);
        self.run_to(to, sink)
    }

    /// Does all instants up to and including `to`, in ticks, writes their v and m lines, and spends the auditor; judges the lines of the
    /// log that end by then. The machine isn't spent, and `to` is from the reading to 1,000,000,000. `Failed` comes only where the
    /// sink's count rose: then a prefix of the lines was written, and the auditor is spent.
    pub fn finish<W: Sink>(&mut self, to: Time, sink: &mut W) -> Result<(), Failed>
        requires follows { (es : List Told) × AuditFollows self.old es }
        requires order { self.old.machine.run_state.reading ≤ to }
        requires at { to ≤ limit.MAX_INSTANT }
        ensures text { (es : List Told) → AuditFollows self.old es → Puts (W.written sink.old) (W.written sink.new) (W.faults sink.old) (W.faults sink.new) (text_between self.old.machine.object es Values self.old.machine.run_state.reading (suc to)) result }
        ensures audited { (es : List Told) → AuditFollows self.old es → OnOk result (IsAudited self.new es to) }
        ensures spent { OnErr result (self.new.machine.run_state.spent ≡ true) }
        ensures same { IsSameAudit self.old self.new }
    {
        if let Err(failed) = self.pass_starts(to, sink) {
            return Err(failed);
        }
        self.judge_before(to + 1);
        self.end_run(to, sink)
    }

    /// The numbers of the log, or its first fault, once the run has ended.
    pub fn verdict(&self) -> Result<AuditTotals, LogFault>
        requires audited { (es : List Told) × IsAudited self.now es self.now.machine.run_state.reading }
        ensures legal { (es : List Told) → IsAudited self.now es self.now.machine.run_state.reading → IfOk result (λ n. (first_fault self.now.machine.object.tables es self.now.machine.run_state.reading self.now.log ≡ None) × (n.at ≡ self.now.machine.run_state.reading) × (n.jobs ≡ jobs_done (all_rounds self.now.machine.object.tables es (suc self.now.machine.run_state.reading)) self.now.log) × (n.slices ≡ length self.now.log)) }
        ensures fault { (es : List Told) → IsAudited self.now es self.now.machine.run_state.reading → IfErr result (λ f. first_fault self.now.machine.object.tables es self.now.machine.run_state.reading self.now.log ≡ Some f) }
    {
        self.ledger
            .verdict(self.log.len() as u64, self.machine.reading())
    }
}
