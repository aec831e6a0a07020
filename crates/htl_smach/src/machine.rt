// The S machine.
ghost use Rattle.std.specs.Prelude.{◌≡◌, ltb, ◌<◌, ◌≤◌, ◌+◌, ◌-◌, ◌++◌, ℕ, suc, Bool, true, false, List, [], length, set, take, ◌↔◌, IsSome, Option, Some, None, IfSome};
ghost use Rattle.htl_walk.specs.declared.schedule.SInstr.{SInstr as Instr};
ghost use Rattle.htl_walk.specs.Walk.{job_at, work};
ghost use Rattle.htl_walk.specs.Refinement.{HaveLengths, AreWithinWorst};
ghost use Rattle.htl_smach.specs.declared.state.PosState.TheVariants as states;
ghost use Rattle.htl_smach.specs.Adding.{CanBegin};
ghost use Rattle.htl_smach.specs.Rounds.{Round, no_round, round_begun, added, added_from, slice_shifted as shifted, walk_records, given, next_left, after, one_more, state_of, IsFinishedSoFar, Stands, IsInForm, IsTold, IsNextLeave};
ghost use Rattle.htl_smach.specs.Order.{left_by_then, IsWholeWhenOver, IsBy};
ghost use Rattle.htl_smach.specs.Steps.{point_of};
ghost use Rattle.htl_smach.specs.Upcoming.{IsUpcoming};

use crate::position_states::PositionStates;
use crate::step::{Step, next_step};
use crate::{Left, PosState};
use htl_base::Time;
use htl_base::limits::MAX_POSITIONS;
use htl_walk::{Job, Schedule};
use std::marker::Model;

/// Leaves the instructions of S code one by one, as time goes on, list by list (schedule-carrying code: Henzinger, Kirsch,
/// Matic, EMSOFT 2003). It takes no memory and refuses nothing.
///
/// It stands between two instructions: one that isn't left yet has changed nothing. Contracts see the frame so far: its start,
/// jobs and lengths as last set, the positions whose release was told, how many instructions of the list were left, and
/// the offset and the work left where the list began and now.
#[derive(Drop)]
pub struct SMach {
    running: bool,
    start: Time,
    // of the arrays so many entries are in use
    count: usize,
    jobs: [Job; MAX_POSITIONS],
    // as last set
    lengths: [Time; MAX_POSITIONS],
    states: PositionStates,
    // the next instruction
    place: u32,
    // the offset at which the list began, and the work left then
    from: Time,
    first: [Time; MAX_POSITIONS],
    // when the instruction before it was left
    time: Time,
    // the work left
    left: [Time; MAX_POSITIONS],
}

impl Model for SMach {
    ghost use Rattle.std.specs.Prelude.{◌≤◌};
    ghost use Rattle.htl_smach.specs.Rounds.{Round};

    ghost Value = { Round };

    ghost use Rattle.htl_smach.specs.Fields.{inside_round};

    ghost view = { inside_round };

    ghost use Rattle.htl_smach.specs.States.{AreStates};

    ghost invariant = { λ m. (m.count ≤ 128) × (m.start ≤ 1000000000) × (m.time ≤ 4294967295) × AreStates m.states m.count m.jobs m.left };
}

impl SMach {
    /// A machine without a list.
    pub fn new() -> SMach
        ensures round { result ≡ no_round }
        ensures stands { (s : List Instr) → Stands result s }
    {
        SMach {
            running: false,
            start: 0,
            count: 0,
            jobs: [Job::ABSENT; MAX_POSITIONS],
            lengths: [0; MAX_POSITIONS],
            states: PositionStates::NONE,
            place: 0,
            from: 0,
            first: [0; MAX_POSITIONS],
            time: 0,
            left: [0; MAX_POSITIONS],
        }
    }

    /// Begins the first list at an instant of at most 1,000,000,000, once the list before is over. There are at most 128 jobs
    /// and as many lengths; that of each present job is from 1 to its worst case.
    pub fn start(&mut self, at: Time, jobs: &[Job], lengths: &[Time])
        requires over { self.old.running ≡ false }
        requires at { at ≤ 1000000000 }
        requires few { length jobs.now ≤ 128 }
        requires same { length lengths.now ≡ length jobs.now }
        requires lengths { HaveLengths jobs.now lengths.now }
        requires worst { AreWithinWorst jobs.now lengths.now }
        ensures round { self.new ≡ round_begun at jobs.now lengths.now }
        ensures stands { (s : List Instr) → Stands self.new s }
    {
        self.count = 0;
        self.start = at;
        self.begin_list(0, jobs, lengths);
    }

    /// Goes on to the next list at an instant of at most 1,000,000,000, once the list before is over, with further
    /// positions, at most 128 in all; the jobs are given as offsets from the instant of `start`. The length of each present
    /// job is from 1 to its worst case. No release falls before the instant that hasn't been told, nor any of the new ones.
    /// It costs what it has to copy.
    pub fn add(&mut self, at: Time, jobs: &[Job], lengths: &[Time])
        requires over { self.old.running ≡ false }
        requires later { self.old.start ≤ at }
        requires at { at ≤ 1000000000 }
        requires few { length self.old.jobs + length jobs.now ≤ 128 }
        requires can { CanBegin self.old (at - self.old.start) jobs.now lengths.now }
        ensures round { self.new ≡ added self.old at jobs.now lengths.now }
        ensures states { (p : ℕ) → p < length self.old.jobs → state_of self.new p ≡ state_of self.old p }
        ensures stands { (s t : List Instr) → Stands self.old s → Stands self.new t }
    {
        let offset = at - self.start;
        self.begin_list(offset, jobs, lengths);
    }

    // Begins a list at an offset, with further positions.
    fn begin_list(&mut self, offset: Time, jobs: &[Job], lengths: &[Time])
        requires offset { offset ≤ 1000000000 }
        requires few { length self.old.jobs + length jobs.now ≤ 128 }
        requires same { length lengths.now ≡ length jobs.now }
        requires lengths { HaveLengths jobs.now lengths.now }
        ensures { self.new ≡ added_from self.old offset jobs.now lengths.now }
    {
        let count = self.count;
        let more = count + jobs.len();
        self.jobs[count..more].copy_from_slice(jobs);
        self.lengths[count..more].copy_from_slice(lengths);
        fill_work(jobs, lengths, &mut self.left[count..more]);
        let left = &self.left;
        copy_front(left, &mut self.first, more);
        self.states.begin(count, jobs);
        self.running = true;
        self.count = more;
        self.place = 0;
        self.from = offset;
        self.time = offset;
    }

    /// Tells the release of a position that is Pending, which makes it Ready. It changes no record, even where it is
    /// told early.
    pub fn release(&mut self, position: usize)
        requires pending { state_of self.old position ≡ states.Pending }
        ensures round { self.new ≡ record self.old { released = set self.old.released position true } }
        ensures ready { state_of self.new position ≡ states.Ready }
        ensures records { (s : List Instr) → walk_records self.new s ≡ walk_records self.old s }
        ensures stands { (s : List Instr) → Stands self.old s → Stands self.new s }
    {
        self.states.release(position);
    }

    /// Gives a position that is Pending another length, from 1 to its worst case. From then on the records are those
    /// of the walk with this length; those given so far stay.
    pub fn set_length(&mut self, position: usize, length: Time)
        requires pending { state_of self.old position ≡ states.Pending }
        requires some { 1 ≤ length }
        requires worst { length ≤ (job_at self.old.jobs position).worst }
        ensures round { self.new ≡ record self.old { lengths = set self.old.lengths position length; first = record self.old.first { left = set self.old.first.left position length }; point = record self.old.point { left = set self.old.point.left position length } } }
        ensures given { (s : List Instr) → Stands self.old s → given self.new s ≡ given self.old s }
        ensures stands { (s : List Instr) → Stands self.old s → Stands self.new s }
    {
        let count = self.count;
        let lengths = &mut self.lengths[..count];
        lengths[position] = length;
        let left = &mut self.left[..count];
        left[position] = length;
        let first = &mut self.first[..count];
        first[position] = length;
    }

    /// The state of a position below the number of jobs: Absent exactly where its job isn't present, Done exactly where
    /// an instruction left so far finished it, Ready exactly where its release was told and it isn't Done, else Pending.
    pub fn state(&self, position: usize) -> PosState
        requires known { position < length self.now.jobs }
        ensures state { result ≡ state_of self.now position }
        ensures done { (s : List Instr) → Stands self.now s → (result ≡ states.Done) ↔ IsFinishedSoFar self.now s position }
    {
        self.states.state(position)
    }

    /// Goes on to the next instruction that is left at or before the instant `until`, and tells of it. None exactly
    /// where no instruction is left by then or the list is over; then nothing has changed, and the records given are
    /// exactly those of the instructions left by then, where none given before was left later.
    ///
    /// The schedule is the list that runs, keeps its form, has at most 4,294,967,295 instructions and is the same in all
    /// calls of one list, and no release falls before `until` that hasn't been told.
    #[inline(always)]
    pub fn run_to(&mut self, s: &Schedule, until: Time) -> Option<Left>
        requires form { self.old.running ≡ true → IsInForm self.old s.now.instrs }
        requires instrs { length s.now.instrs ≤ 4294967295 }
        requires same { Stands self.old s.now.instrs }
        requires told { IsTold self.old until }
        ensures left { result ≡ next_left self.old s.now.instrs until }
        ensures round { self.new ≡ after self.old s.now.instrs result }
        ensures given { given self.new s.now.instrs ≡ given self.old s.now.instrs ++ one_more result }
        ensures stands { Stands self.new s.now.instrs }
        ensures none { result ≡ None → IsWholeWhenOver self.old s.now.instrs → IsBy self.old until → given self.new s.now.instrs ≡ left_by_then until (walk_records self.new s.now.instrs) }
        ensures whole { IsWholeWhenOver self.old s.now.instrs → IsWholeWhenOver self.new s.now.instrs }
    {
        let Some(step) = self.upcoming(s) else {
            return None;
        };
        let at = self.start + step.time;
        if at > until {
            return None;
        }
        let left = Left {
            at,
            instr: self.place,
            position: step.position,
            slice: shifted(self.start, step.slice),
            finished: step.finished,
        };
        self.leave(&step, s.instrs.as_slice().len());
        Some(left)
    }

    /// The instant at which the next instruction is left, as long as no position that is Pending gets another length; None
    /// exactly where the list is over.
    ///
    /// The schedule is the list that runs, keeps its form, has at most 4,294,967,295 instructions and is the same in all
    /// calls of one list.
    pub fn next(&self, s: &Schedule) -> Option<Time>
        requires form { self.now.running ≡ true → IsInForm self.now s.now.instrs }
        requires instrs { length s.now.instrs ≤ 4294967295 }
        requires same { Stands self.now s.now.instrs }
        ensures { IsNextLeave self.now s.now.instrs result }
    {
        let Some(step) = self.upcoming(s) else {
            return None;
        };
        Some(self.start + step.time)
    }

    // What the next instruction does; None where the list is over.
    fn upcoming(&self, s: &Schedule) -> Option<Step>
        requires form { self.now.running ≡ true → IsInForm self.now s.now.instrs }
        requires same { Stands self.now s.now.instrs }
        ensures none { result ≡ None → (until : ℕ) → next_left self.now s.now.instrs until ≡ None }
        ensures some { IfSome result (IsUpcoming self.now s.now.instrs) }
    {
        if !self.running {
            return None;
        }
        let instrs = s.instrs.as_slice();
        let place = self.place as usize;
        if place >= instrs.len() {
            return None;
        }
        let jobs = &self.jobs[..self.count];
        Some(next_step(jobs, &self.left[..self.count], self.time, instrs[place]))
    }

    // Leaves an instruction of so many.
    fn leave(&mut self, step: &Step, len: usize)
        requires known { IfSome step.now.position (λ p. p < length self.old.point.left) }
        requires time { step.now.time ≤ 4294967295 }
        requires place { self.old.place < 4294967295 }
        ensures { self.new ≡ record self.old { running = ltb (suc self.old.place) len; place = suc self.old.place; point = point_of self.old.point.left step.now } }
    {
        if let Some(position) = step.position {
            self.left[position as usize] = step.rest;
            self.states.leave(position as usize, step.rest == 0);
        }
        self.time = step.time;
        self.place += 1;
        self.running = (self.place as usize) < len;
    }
}

// A slice, by instants.
fn shifted(start: Time, slice: Option<(Time, Time)>) -> Option<(Time, Time)>
    requires start { start ≤ 1000000000 }
    requires slice { IfSome slice (λ s. (s.0 ≤ 4294967295) × (s.1 ≤ 4294967295)) }
    ensures { result ≡ shifted start slice }
{
    match slice {
        Some((from, to)) => Some((start + from, start + to)),
        None => None,
    }
}

// Copies so many entries.
fn copy_front(from: &[Time; MAX_POSITIONS], to: &mut [Time; MAX_POSITIONS], count: usize)
    requires { count ≤ 128 }
    ensures { take count to.new ≡ take count from.now }
{
    to[..count].copy_from_slice(&from[..count]);
}

// The work of each position: nothing where no job stands for it.
fn fill_work(jobs: &[Job], lengths: &[Time], left: &mut [Time])
    requires lengths { length lengths.now ≡ length jobs.now }
    requires left { length left.old ≡ length jobs.now }
    ensures { left.new ≡ work jobs.now lengths.now }
{
    for p in 0..jobs.len() {
        left[p] = if jobs[p].present { lengths[p] } else { 0 };
    }
}
