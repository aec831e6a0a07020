// What is kept of a log while its run goes on.
ghost use Rattle.std.specs.Prelude.{true, min, ◌⊎◌, ◌≡◌, ◌<◌, ◌≤◌, ◌+◌, ◌-◌, ◌^◌, leb, ltb, ℕ, get_or, length, drop, None, All, IfOk};
ghost use Rattle.htl_emach.specs.Calendars.{list_at};
ghost use Rattle.htl_model.specs.Selected.{is_at};
ghost use Rattle.htl_audit.specs.Feeders.{all_feeders, is_done_at, are_done as are_done_at};
ghost use Rattle.htl_audit.specs.Auditing.{AreDue};
ghost use Rattle.htl_audit.specs.Saying.{Says};
ghost use Rattle.htl_audit.specs.Verdicts.{verdict_of};
ghost use Rattle.htl_audit.specs.Keeping.{is_between, is_inside as is_inside_of, kind_of as kind_of_line, judged, judged_to, with_slice, sum_at, length_at, ticks_of, with_kind, fell_short as fell_short_of, any_fell_short as any_fell_short_of, settled, renewed, lengths_begun, inv_takes, inv_runs_in, first_kept, has_job, start_at, end_at};

use crate::auditor::AuditTotals;
use crate::feeders::Feeders;
use crate::starts::begins_round;
use crate::{LogFault, LogKind, Slice};
use htl_base::{Seq, Time};
use htl_machine::Machine;
use htl_model::Tables;
use htl_model::lookup::{is_concrete, mode_module};
use std::alloc::{AllocError, Global};
use std::marker::Model;

/// The lines that were judged and the jobs of the rounds that began last, by invocation.
pub struct Ledger {
    place: usize,
    fault: Option<LogFault>,
    end: Time,
    stands: Seq<bool>,
    starts: Seq<Time>,
    lengths: Seq<Time>,
    sums: Seq<Time>,
    done: u64,
    short: bool,
}

impl Drop for Ledger {
    fn drop(self) {
        let Self {
            place: _,
            fault: _,
            end: _,
            stands: _,
            starts: _,
            lengths: _,
            sums: _,
            done: _,
            short: _,
        } = self;
    }
}

impl Model for Ledger {
    ghost use Rattle.htl_audit.specs.Keeping.{Kept};
    ghost use Rattle.htl_audit.specs.Ledgers.{IsLedger};

    ghost Value = { Kept };

    ghost view = { λ l. record { place = l.place; fault = l.fault; end = l.end; roster = record { stands = l.stands; starts = l.starts; lengths = l.lengths }; sums = l.sums; done = l.done; short = l.short } };

    ghost invariant = { λ l. IsLedger (record { place = l.place; fault = l.fault; end = l.end; roster = record { stands = l.stands; starts = l.starts; lengths = l.lengths }; sums = l.sums; done = l.done; short = l.short }) };
}

// Whether a slice lies in a window that begins this long after the start of its round and ends that long after it.
fn lies_in(x: Slice, start: Time, release: Time, end: Time) -> bool
    requires { x.from < x.to }
    ensures { result ≡ is_between start release end x }
{
    start <= x.from && release <= x.from - start && x.to - start <= end
}

// Whether a window that ends this long after the start of its round has ended before the instant.
fn ends_before(start: Time, end: Time, now: Time) -> bool
    ensures { result ≡ ltb (start + end) now }
{
    start <= now && end < now - start
}

// Whether a window that begins this long after the start of its round begins at the instant or later.
fn begins_from(start: Time, release: Time, now: Time) -> bool
    ensures { result ≡ leb now (start + release) }
{
    now <= start || now - start <= release
}

// Whether the machine stands in this mode.
fn stands_in(machine: &Machine<'_>, module: u16, mode: u16) -> bool
    ensures { result ≡ is_at (list_at machine.now.standing.calendar.modes «module») mode }
{
    match machine.mode(module) {
        Some(m) => m == mode,
        None => false,
    }
}

// Whether the invocation is concrete and its mode runs.
fn runs(t: &Tables, machine: &Machine<'_>, i: usize) -> bool
    requires { i < length t.now.invs }
    ensures { result ≡ inv_runs_in t.now machine.now.standing.calendar.modes i }
{
    let inv = &t.parts().invs.as_slice()[i];
    is_concrete(t, inv) && stands_in(machine, mode_module(t, inv.mode), inv.mode)
}

impl Ledger {
    /// Keeps nothing yet of the invocations of tables. Want of memory is the one refusal.
    pub fn new(alloc: Global, t: &Tables) -> Result<Ledger, AllocError>
        ensures { IfOk result (λ l. l ≡ first_kept (length t.now.invs)) }
    {
        let count = t.parts().invs.as_slice().len();
        let stands = vec![in alloc; false; count]?;
        let starts = vec![in alloc; 0; count]?;
        let lengths = vec![in alloc; 0; count]?;
        let sums = vec![in alloc; 0; count]?;
        Ok(Ledger {
            place: 0,
            fault: None,
            end: 0,
            stands: Seq::new(stands),
            starts: Seq::new(starts),
            lengths: Seq::new(lengths),
            sums: Seq::new(sums),
            done: 0,
            short: false,
        })
    }

    // Whether the slice, which isn't empty, lies in the window of its invocation's job.
    fn is_inside(&self, t: &Tables, x: Slice) -> bool
        requires inv { x.inv < length t.now.invs }
        requires rows { length self.now.roster.stands ≡ length t.now.invs }
        requires some { x.from < x.to }
        ensures { result ≡ is_inside_of t.now self.now.roster x }
    {
        let i = x.inv as usize;
        let window = t.window(x.inv);
        self.stands.as_slice()[i]
            && lies_in(x, self.starts.as_slice()[i], window.release, window.end)
    }

    // Whether the job of an invocation, if it has one, has all its ticks.
    fn is_done(&self, n: usize) -> bool
        requires { n < length self.now.roster.stands }
        ensures { result ≡ is_done_at self.now.roster self.now.sums n }
    {
        !self.stands.as_slice()[n] || self.sums.as_slice()[n] == self.lengths.as_slice()[n]
    }

    // Whether so it is of each of these invocations.
    fn are_done(&self, invs: &[u16]) -> bool
        requires { All (λ n. n < length self.now.roster.stands) invs.now }
        ensures { result ≡ are_done_at self.now.roster self.now.sums invs.now }
    {
        for k in 0..invs.len() {
            if !self.is_done(invs[k] as usize) {
                return false;
            }
        }
        true
    }

    // The first rule that the line breaks, before instant `now`.
    fn kind_of(&self, t: &Tables, feeders: &Feeders, now: Time, x: Slice) -> Option<LogKind>
        requires inv { x.inv < length t.now.invs }
        requires feeders { feeders.now ≡ all_feeders t.now }
        requires rows { length self.now.roster.stands ≡ length t.now.invs }
        requires few { length t.now.invs ≤ 65536 }
        requires at { now ≤ 1000000001 }
        ensures { result ≡ kind_of_line t.now now self.now x }
    {
        if x.to <= x.from || x.from < self.end || now <= x.to {
            return Some(LogKind::Order);
        }
        if !self.is_inside(t, x) {
            return Some(LogKind::Outside);
        }
        let i = x.inv as usize;
        if self.lengths.as_slice()[i] < self.sums.as_slice()[i] + (x.to - x.from) {
            return Some(LogKind::Over);
        }
        if !self.are_done(feeders.row(x.inv)) {
            return Some(LogKind::Before);
        }
        None
    }

    // Adds a line that keeps the rules.
    fn put(&mut self, x: Slice)
        requires inv { x.inv < length self.old.roster.stands }
        requires some { x.from < x.to }
        requires room { sum_at self.old.sums x.inv + ticks_of x ≤ length_at self.old.roster x.inv }
        requires place { self.old.place < 2 ^ 64 - 1 }
        ensures { self.new ≡ with_slice x self.old }
    {
        let i = x.inv as usize;
        let sum = self.sums.as_slice()[i] + (x.to - x.from);
        let full = sum == self.lengths.as_slice()[i];
        self.sums.set(i, sum);
        self.place += 1;
        self.end = x.to;
        self.done += full as u64;
    }

    // Judges the next line.
    fn judge(&mut self, t: &Tables, feeders: &Feeders, now: Time, x: Slice)
        requires inv { x.inv < length t.now.invs }
        requires feeders { feeders.now ≡ all_feeders t.now }
        requires rows { length self.old.roster.stands ≡ length t.now.invs }
        requires few { length t.now.invs ≤ 65536 }
        requires at { now ≤ 1000000001 }
        requires place { self.old.place < 2 ^ 64 - 1 }
        ensures { self.new ≡ judged t.now now x self.old }
    {
        match self.kind_of(t, feeders, now, x) {
            Some(kind) => {
                self.fault = Some(LogFault {
                    line: self.place as u64 + 1,
                    kind,
                });
            }
            None => self.put(x),
        }
    }

    /// Judges the lines that end before instant `now`, up to the first fault. A line looks at its own job and at those that feed it.
    pub fn judge_to(&mut self, t: &Tables, feeders: &Feeders, now: Time, log: &[Slice])
        requires feeders { feeders.now ≡ all_feeders t.now }
        requires lines { All (λ x. x.inv < length t.now.invs) log.now }
        requires rows { length self.old.roster.stands ≡ length t.now.invs }
        requires few { length t.now.invs ≤ 65536 }
        requires at { now ≤ 1000000001 }
        requires place { self.old.place ≤ length log.now }
        ensures { self.new ≡ judged_to t.now now (drop self.old.place log.now) self.old }
    {
        for n in self.place..log.len() {
            if self.fault.is_some() || now <= log[n].to {
                return;
            }
            self.judge(t, feeders, now, log[n]);
        }
    }

    // Whether the window of the invocation's job ended before the instant, and the job has fewer ticks than it takes.
    fn fell_short(&self, t: &Tables, now: Time, n: usize) -> bool
        requires n { n < length t.now.invs }
        requires rows { length self.now.roster.stands ≡ length t.now.invs }
        requires few { length t.now.invs ≤ 65536 }
        ensures { result ≡ fell_short_of t.now now self.now n }
    {
        let window = t.window(n as u16);
        self.stands.as_slice()[n]
            && ends_before(self.starts.as_slice()[n], window.end, now)
            && self.sums.as_slice()[n] < self.lengths.as_slice()[n]
    }

    // Whether that is so of some invocation.
    fn any_fell_short(&self, t: &Tables, now: Time) -> bool
        requires rows { length self.now.roster.stands ≡ length t.now.invs }
        requires few { length t.now.invs ≤ 65536 }
        ensures { result ≡ any_fell_short_of t.now now self.now }
    {
        let invs = t.parts().invs.as_slice();
        for n in 0..invs.len() {
            if self.fell_short(t, now, n) {
                return true;
            }
        }
        false
    }

    /// Where the window ends of the invocation's job, if it has one, in ticks; the greatest instant where that is behind it.
    pub fn window_end(&self, t: &Tables, inv: u16) -> Time
        requires inv { inv < length t.now.invs }
        requires rows { length self.now.roster.stands ≡ length t.now.invs }
        ensures { result ≡ min (start_at self.now.roster inv + end_at t.now inv) (2 ^ 64 - 1) }
    {
        self.starts.as_slice()[inv as usize].saturating_add(t.window(inv).end)
    }

    // The first end from instant `now` on of a window of a job, or an instant before it.
    fn next_due(&self, t: &Tables, now: Time) -> Time
        requires rows { length self.now.roster.stands ≡ length t.now.invs }
        requires few { length t.now.invs ≤ 65536 }
        ensures { (i : ℕ) → has_job self.now.roster i ≡ true → (start_at self.now.roster i + end_at t.now i < now) ⊎ (result ≤ start_at self.now.roster i + end_at t.now i) }
    {
        let stands = self.stands.as_slice();
        let mut due = Time::MAX;
        for n in 0..stands.len() {
            if stands[n] {
                let end = self.window_end(t, n as u16);
                if now <= end {
                    due = due.min(end);
                }
            }
        }
        due
    }

    /// Notes whether a job fell short whose window ended before instant `now`, and answers from when on there may be another. One pass
    /// over the invocations.
    pub fn settle(&mut self, t: &Tables, now: Time) -> Time
        requires rows { length self.old.roster.stands ≡ length t.now.invs }
        requires few { length t.now.invs ≤ 65536 }
        ensures settled { self.new ≡ settled t.now now self.old }
        ensures due { AreDue t.now result self.new }
    {
        let due = self.next_due(t, now);
        if self.any_fell_short(t, now) {
            self.short = true;
        }
        due
    }

    // A round of the invocation begins at `at`, in which a job takes so long.
    fn renew(&mut self, t: &Tables, machine: &Machine<'_>, ticks: Time, at: Time, i: usize)
        requires i { i < length t.now.invs }
        requires rows { length self.old.roster.stands ≡ length t.now.invs }
        requires small { ticks ≤ 1000000 }
        ensures { self.new ≡ renewed t.now machine.now.standing.calendar.modes at ticks i self.old }
    {
        self.stands.set(i, runs(t, machine, i));
        self.starts.set(i, at);
        self.lengths.set(i, ticks);
        self.sums.set(i, 0);
    }

    /// At `at` rounds begin of the invocations whose periods divide it, in the modes of the machine; their jobs take so long.
    pub fn begin(&mut self, t: &Tables, machine: &Machine<'_>, takes: &[Time], at: Time)
        requires rows { length self.old.roster.stands ≡ length t.now.invs }
        requires takes { length takes.now ≡ length t.now.invs }
        requires small { (i : ℕ) → get_or takes.now i 0 ≤ 1000000 }
        ensures { self.new ≡ lengths_begun t.now machine.now.standing.calendar.modes takes.now at self.old }
    {
        for i in 0..takes.len() {
            if begins_round(t, at, i) {
                self.renew(t, machine, takes[i], at, i);
            }
        }
    }

    /// The job of the invocation takes so long, where it is released at instant `now` or later.
    pub fn take(&mut self, t: &Tables, now: Time, inv: u16, ticks: Time)
        requires inv { inv < length t.now.invs }
        requires rows { length self.old.roster.stands ≡ length t.now.invs }
        requires small { ticks ≤ 1000000 }
        ensures { self.new ≡ inv_takes t.now now inv ticks self.old }
    {
        let i = inv as usize;
        let window = t.window(inv);
        if begins_from(self.starts.as_slice()[i], window.release, now) {
            self.lengths.set(i, ticks);
        }
    }

    /// What is said of a log of so many lines, once those are judged that end by the end of the run.
    pub fn verdict(&self, lines: u64, at: Time) -> Result<AuditTotals, LogFault>
        requires few { lines < 2 ^ 64 - 1 }
        ensures { Says (verdict_of self.now lines) at result }
    {
        if let Some(fault) = self.fault {
            return Err(fault);
        }
        if (self.place as u64) < lines {
            return Err(LogFault {
                line: self.place as u64 + 1,
                kind: LogKind::Order,
            });
        }
        if self.short {
            return Err(LogFault {
                line: lines + 1,
                kind: LogKind::Short,
            });
        }
        Ok(AuditTotals {
            at,
            jobs: self.done,
            slices: lines,
        })
    }
}
