// What is noted of the items before the next.
ghost use Rattle.std.specs.Prelude.{◌≡◌, ◌<◌, ◌≤◌, ◌==◌, ◌||◌, ℕ, [], false, length, get_or};
ghost use Rattle.htl_object.specs.Notes.{MarksRead, CountsMode, IsNoted, IsAdded};

use htl_base::limits::{MAX_COMMUNICATORS, MAX_TASKS};
use htl_model::Inv;

/// The communicators that a switch reads.
#[derive(Drop)]
pub struct ReadMarks {
    pub marks: [bool; MAX_COMMUNICATORS],
}

impl ReadMarks {
    /// None yet.
    pub fn new() -> ReadMarks
        ensures { MarksRead result.marks [] }
    {
        ReadMarks {
            marks: [false; MAX_COMMUNICATORS],
        }
    }

    /// Notes one.
    pub fn mark(&mut self, comm: u16)
        ensures { (c : ℕ) → c < 1024 → get_or self.new.marks c false ≡ (get_or self.old.marks c false || (comm == c)) }
    {
        if (comm as usize) < self.marks.len() {
            self.marks[comm as usize] = true;
        }
    }
}

/// The invocations of the last mode.
#[derive(Drop)]
pub struct InvNotes {
    pub mode: u16,
    /// How many there are.
    pub count: usize,
    /// For each task whether the mode invokes it.
    pub invoked: [bool; MAX_TASKS],
}

impl InvNotes {
    /// None yet.
    pub fn new() -> InvNotes
        ensures { IsNoted result [] }
    {
        InvNotes {
            mode: 0,
            count: 0,
            invoked: [false; MAX_TASKS],
        }
    }

    /// Turns to a mode, which isn't before the one of these notes.
    pub fn turn_to(&mut self, before: &[Inv], mode: u16)
        requires noted { IsNoted self.old before.now }
        requires later { self.old.mode ≤ mode }
        ensures mode { self.new.mode ≡ mode }
        ensures counts { CountsMode self.new before.now }
    {
        if self.mode != mode {
            self.mode = mode;
            self.count = 0;
            self.invoked = [false; MAX_TASKS];
        }
    }

    /// Notes one more invocation of the mode.
    pub fn add(&mut self, task: u16)
        requires { self.old.count < 128 }
        ensures { IsAdded self.old self.new task }
    {
        self.count += 1;
        if (task as usize) < self.invoked.len() {
            self.invoked[task as usize] = true;
        }
    }
}
