// The states of positions, in sets of 128 bits.
ghost use Rattle.std.specs.Prelude.{◌≡◌, ◌<◌, ◌≤◌, ◌+◌, ℕ, true, false, not, cond, eqb, length};
ghost use Rattle.htl_model.specs.Bits.{has_bit as has_bit_of};
ghost use Rattle.htl_smach.specs.Rounds.{state_by};
ghost use Rattle.htl_smach.specs.States.{IsPut, state_in, HaveBegun};

use crate::PosState;
use htl_model::bits::{has_bit, with_bit};
use htl_walk::Job;

/// Which positions are present, released and done, a bit for each of 128.
#[derive(Clone, Copy)]
pub struct PositionStates {
    // the positions for which a job stands
    present: u128,
    // those whose release was told
    released: u128,
    // those without work left, also where no job stands
    done: u128,
}

impl PositionStates {
    /// The states of no position.
    pub const NONE: PositionStates = PositionStates {
        present: 0,
        released: 0,
        done: 0,
    };

    /// The state of a position: a bit test.
    pub fn state(&self, position: usize) -> PosState
        requires { position < 128 }
        ensures { result ≡ state_in self.now position }
    {
        let bit = position as u32;
        state_by(
            has_bit(self.present, bit),
            has_bit(self.done, bit),
            has_bit(self.released, bit),
        )
    }

    /// Tells the release of a position.
    pub fn release(&mut self, position: usize)
        requires { position < 128 }
        ensures released { IsPut self.old.released self.new.released position true }
        ensures present { self.new.present ≡ self.old.present }
        ensures done { self.new.done ≡ self.old.done }
    {
        self.released = put_bit(self.released, position, true);
    }

    /// Says whether a position has work left.
    pub fn leave(&mut self, position: usize, done: bool)
        requires { position < 128 }
        ensures done { IsPut self.old.done self.new.done position done }
        ensures present { self.new.present ≡ self.old.present }
        ensures released { self.new.released ≡ self.old.released }
    {
        self.done = put_bit(self.done, position, done);
    }

    /// Begins further jobs at the positions from `first` on.
    pub fn begin(&mut self, first: usize, jobs: &[Job])
        requires { first + length jobs.now ≤ 128 }
        ensures { HaveBegun self.old self.new first (length jobs.now) jobs.now }
    {
        for k in 0..jobs.len() {
            self.begin_one(first + k, jobs[k].present);
        }
    }

    // Begins a job at a position, or none.
    fn begin_one(&mut self, position: usize, present: bool)
        requires { position < 128 }
        ensures present { IsPut self.old.present self.new.present position present }
        ensures released { IsPut self.old.released self.new.released position false }
        ensures done { IsPut self.old.done self.new.done position (not present) }
    {
        self.present = put_bit(self.present, position, present);
        self.released = put_bit(self.released, position, false);
        self.done = put_bit(self.done, position, !present);
    }
}

// The state of a position.
fn state_by(present: bool, done: bool, released: bool) -> PosState
    ensures { result ≡ state_by present done released }
{
    if !present {
        PosState::Absent
    } else if done {
        PosState::Done
    } else if released {
        PosState::Ready
    } else {
        PosState::Pending
    }
}

// A set with a bit as given.
fn put_bit(set: u128, position: usize, value: bool) -> u128
    requires { position < 128 }
    ensures { IsPut set result position value }
{
    if value {
        with_bit(set, position as u32)
    } else {
        set & !(1 << position)
    }
}
