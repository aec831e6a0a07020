// Where a run stands in its frame: the list that stands, and the jobs that the frame has so far.
ghost use Rattle.std.specs.Prelude.{◌≡◌, ◌≤◌, ◌<◌, ◌+◌, ◌-◌, ◌%◌, ◌++◌, [], true, cond, eqb, length, take, false, get_or, IfOk, IfSome, List, None, Some};
ghost use Rattle.htl_model.specs.FrameRules.{KeptApart};
ghost use Rattle.htl_model.specs.Frames.{frame_limit, frame_of, starts};
ghost use Rattle.htl_model.specs.Ranges.{AreInRange};
ghost use Rattle.htl_model.specs.Selected.{IsSelection};
ghost use Rattle.htl_refine.specs.BegunJobs.{choice_of, new_jobs};
ghost use Rattle.htl_walk.specs.Refinement.{HaveLengths, AreWithinWorst};
ghost use Rattle.htl_smach.specs.Adding.{CanBegin};
ghost use Rattle.htl_smach.specs.Rounds.{round_begun, added};
ghost use Rattle.htl_runs.specs.lists.FirstStand.{list_begun};
ghost use Rattle.htl_machine.specs.Numbering.{IsNumbering, IsPath, IsAtFirst};
ghost use Rattle.htl_runs.specs.lists.NextLists.{next_list};
ghost use Rattle.htl_runs.specs.frames.RoundStarts.{some_round_begins};
ghost use Rattle.htl_machine.specs.StandingList.{instrs_by};
ghost use Rattle.htl_machine.specs.StandingList.{node_by, number_by, next_at};
ghost use Rattle.htl_runs.specs.lists.ListLengths.{kept_lengths};
ghost use Rattle.htl_machine.specs.Beginning.{CanFollow};

use crate::changes::{mode_at, same_mode};
use crate::memory::no_modes;
use crate::numbering::{ListAt, Numbering};
use htl_base::limits::MAX_POSITIONS;
use htl_base::{Seq, Time};
use htl_emach::EMach;
use htl_model::Tables;
use htl_refine::{Selection, derive_begun};
use htl_smach::SMach;
use htl_walk::{Job, Schedule};
use std::alloc::{AllocError, Global};

/// Where a run stands in its frame.
pub struct Path {
    numbering: Numbering,
    list: Option<ListAt>,
    // The jobs of the frame so far, in front.
    jobs: [Job; 128],
    count: usize,
    // The modes in which the list began.
    modes: Selection,
    // Whether it is the first of its frame, with the jobs of those modes.
    first: bool,
    // Where no list stands.
    idle: Schedule,
}

impl Drop for Path {
    fn drop(self) {
        let Self {
            numbering: _,
            list: _,
            jobs: _,
            count: _,
            modes: _,
            first: _,
            idle: _,
        } = self;
    }
}

impl Path {
    /// Before the first list, of tables that keep the limits of frames. As costly as `Frame::survey`.
    pub fn new(alloc: Global, t: &Tables) -> Result<Path, AllocError>
        requires { frame_limit t.now ≡ None }
        ensures path { IfOk result (λ p. IsPath t.now p []) }
        ensures list { IfOk result (λ p. p.list ≡ None) }
        ensures idle { IfOk result (λ p. p.idle.instrs ≡ []) }
    {
        let modes = no_modes(alloc, t)?;
        Ok(Path {
            numbering: Numbering::survey(t),
            list: None,
            jobs: [Job::ABSENT; MAX_POSITIONS],
            count: 0,
            modes: Selection {
                modes: Seq::new(modes),
            },
            first: false,
            idle: Schedule {
                instrs: Seq::new(Vec::new(alloc)),
            },
        })
    }

    /// The jobs of the frame so far.
    pub fn jobs(&self) -> &[Job]
        requires { self.now.count ≤ 128 }
        ensures { result.now ≡ take self.now.count self.now.jobs }
    {
        &self.jobs[..self.count]
    }

    /// The node whose list stands; 0 where none does.
    pub fn node(&self) -> u32
        ensures { result ≡ node_by self.now.list }
    {
        match self.list {
            Some(list) => list.node,
            None => 0,
        }
    }

    /// Its instructions; none where no list stands.
    pub fn schedule<'b>(&'b self, schedules: &'b [Schedule]) -> &'b Schedule
        requires { IfSome self.now.list (λ p. p.node < length schedules.now) }
        ensures { result.now.instrs ≡ instrs_by schedules.now self.now.idle.instrs self.now.list }
    {
        match self.list {
            Some(list) => &schedules[list.node as usize],
            None => &self.idle,
        }
    }

    /// Whether a list begins at an instant, in ticks: where a round of some root module does.
    pub fn round_begins(&self, at: Time) -> bool
        requires { self.now.numbering.count ≤ 33 }
        ensures { (t : Tables) → IsNumbering t self.now.numbering → AreInRange t → KeptApart t 12 → result ≡ some_round_begins t at }
    {
        self.numbering.begins(at)
    }

    /// A list begins, by the modes in which the modules are: the jobs of the rounds that begin take the lengths that are kept, in
    /// ticks. At a frame's start the S machine begins anew, else it goes on with those jobs. Takes no memory.
    pub fn begin(&mut self, s_machine: &mut SMach, t: &Tables, m: &EMach, takes: &[Time], at: Time)
        requires form { KeptApart t.now 16 }
        requires limit { frame_limit t.now ≡ None }
        requires path { IsPath t.now self.old s_machine.old.jobs }
        requires selection { IsSelection t.now m.now.calendar.modes }
        requires over { s_machine.old.running ≡ false }
        requires at { at ≤ 1000000000 }
        requires follows { CanFollow t.now m.now.calendar.modes takes.now at self.old.list s_machine.old }
        ensures list { self.new.list ≡ Some (next_at t.now m.now.calendar.modes at self.old.list) }
        ensures path { IsPath t.now self.new s_machine.new.jobs }
        ensures s_machine { s_machine.new ≡ list_begun t.now m.now.calendar.modes takes.now at s_machine.old }
        ensures idle { self.new.idle ≡ self.old.idle }
    {
        t.keeps_ranges();
        let same = are_modes(self.modes.modes.as_slice(), m);
        note_modes(&mut self.modes, m);
        let offset = at % self.numbering.frame;
        let from = kept_positions(offset, self.count);
        self.turn(t, at, from, same);
        let jobs = &self.jobs[from..self.count];
        if offset == 0 {
            start_jobs(s_machine, jobs, takes, at);
        } else {
            add_jobs(s_machine, jobs, takes, at);
        }
    }

    // The list that begins, and its jobs behind the first `from` of the frame. They stand already where the frame's first list
    // begins again in the same modes.
    fn turn(&mut self, t: &Tables, at: Time, from: usize, same: bool)
        requires form { KeptApart t.now 16 }
        requires numbering { IsNumbering t.now self.old.numbering }
        requires selection { IsSelection t.now self.old.modes.modes }
        requires some { 0 < frame_of t.now }
        requires there { next_list t.now at (number_by self.old.list) < length (starts t.now) }
        requires choice { choice_of t.now self.old.modes.modes (at % frame_of t.now) < 1024 }
        requires few { (next_at t.now self.old.modes.modes at self.old.list).node ≤ 4294967295 }
        requires early { at % self.old.numbering.frame ≤ 1000000 }
        requires from { from ≡ cond (eqb (at % self.old.numbering.frame) 0) 0 self.old.count }
        requires room { from + length (new_jobs t.now self.old.modes.modes (at % self.old.numbering.frame) from) ≤ 128 }
        requires first { same ≡ true → self.old.first ≡ true → IsAtFirst t.now self.old }
        ensures list { self.new.list ≡ Some (next_at t.now self.old.modes.modes at self.old.list) }
        ensures count { self.new.count ≡ from + length (new_jobs t.now self.old.modes.modes (at % self.old.numbering.frame) from) }
        ensures jobs { take self.new.count self.new.jobs ≡ take from self.old.jobs ++ new_jobs t.now self.old.modes.modes (at % self.old.numbering.frame) from }
        ensures first { self.new.first ≡ true → IsAtFirst t.now self.new }
        ensures numbering { self.new.numbering ≡ self.old.numbering }
        ensures modes { self.new.modes ≡ self.old.modes }
        ensures idle { self.new.idle ≡ self.old.idle }
    {
        let offset = at % self.numbering.frame;
        if same && self.first && offset == 0 {
            return;
        }
        self.list = Some(self.numbering.next(t, &self.modes, at, self.list));
        self.count = derive_begun(t, &self.modes, offset, &mut self.jobs, from);
        self.first = offset == 0;
    }
}

// How many positions stay: those of the frame so far, none where another begins.
fn kept_positions(offset: Time, count: usize) -> usize
    ensures { result ≡ cond (eqb offset 0) 0 count }
{
    if offset == 0 { 0 } else { count }
}

// Notes the mode in which each module is.
fn note_modes(modes: &mut Selection, m: &EMach)
    requires few { length modes.old.modes ≤ 64 }
    requires same { length m.now.calendar.modes ≡ length modes.old.modes }
    ensures { modes.new.modes ≡ m.now.calendar.modes }
{
    let count = modes.modes.as_slice().len();
    for k in 0..count {
        modes.modes.set(k, m.mode(k as u16));
    }
}

// Whether these are the modes in which the modules are.
fn are_modes(modes: &[Option<u16>], m: &EMach) -> bool
    requires few { length modes.now ≤ 64 }
    requires same { length m.now.calendar.modes ≡ length modes.now }
    ensures { result ≡ true → modes.now ≡ m.now.calendar.modes }
{
    for k in 0..modes.len() {
        if !same_mode(mode_at(modes, k), m.mode(k as u16)) {
            return false;
        }
    }
    true
}

// How long the jobs of an invocation take from now on, in ticks; 0 where there is no such invocation.
fn length_of(takes: &[Time], inv: u16) -> Time
    ensures { result ≡ get_or takes.now inv 0 }
{
    if (inv as usize) < takes.len() {
        takes[inv as usize]
    } else {
        0
    }
}

// How long the jobs take.
fn fill_lengths(jobs: &[Job], takes: &[Time], lengths: &mut [Time])
    requires same { length lengths.old ≡ length jobs.now }
    ensures lengths { lengths.new ≡ kept_lengths takes.now jobs.now }
    ensures same { length lengths.new ≡ length jobs.now }
{
    for p in 0..jobs.len() {
        lengths[p] = length_of(takes, jobs[p].inv);
    }
}

// The jobs of a frame's first list begin.
fn start_jobs(s_machine: &mut SMach, jobs: &[Job], takes: &[Time], at: Time)
    requires over { s_machine.old.running ≡ false }
    requires at { at ≤ 1000000000 }
    requires few { length jobs.now ≤ 128 }
    requires lengths { HaveLengths jobs.now (kept_lengths takes.now jobs.now) }
    requires worst { AreWithinWorst jobs.now (kept_lengths takes.now jobs.now) }
    ensures { s_machine.new ≡ round_begun at jobs.now (kept_lengths takes.now jobs.now) }
{
    let mut lengths = [0; MAX_POSITIONS];
    let taken = &mut lengths[..jobs.len()];
    fill_lengths(jobs, takes, taken);
    s_machine.start(at, jobs, taken);
}

// Those of a later list begin.
fn add_jobs(s_machine: &mut SMach, jobs: &[Job], takes: &[Time], at: Time)
    requires over { s_machine.old.running ≡ false }
    requires later { s_machine.old.start ≤ at }
    requires at { at ≤ 1000000000 }
    requires few { length s_machine.old.jobs + length jobs.now ≤ 128 }
    requires can { CanBegin s_machine.old (at - s_machine.old.start) jobs.now (kept_lengths takes.now jobs.now) }
    ensures { s_machine.new ≡ added s_machine.old at jobs.now (kept_lengths takes.now jobs.now) }
{
    let mut lengths = [0; MAX_POSITIONS];
    let taken = &mut lengths[..jobs.len()];
    fill_lengths(jobs, takes, taken);
    s_machine.add(at, jobs, taken);
}
