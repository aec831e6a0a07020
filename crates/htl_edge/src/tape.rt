// A source in memory.
ghost use Rattle.std.specs.Prelude.{◌≡◌, ◌≤◌, ◌+◌, ◌-◌, ◌^◌, ◌<◌, min, length, take, IfOk, Some, Ok, OnErr, Contains, IsOk};
ghost use Rattle.htl_edge.specs.Causes.{HasCause};
ghost use Rattle.htl_edge.specs.Content.{TakesFront};
ghost use Rattle.htl_edge.specs.Fakes.{IsTapeRead, tape_after};

use crate::{Failed, Source};
use htl_base::Memory;
use std::alloc::{AllocError, Global};
use std::marker::Model;

/// A source in memory. It gives at most `step` bytes at a call, and fails at the calls that it was told,
/// where the buffer isn't empty; calls count from 1. It tells what is left.
pub struct Tape {
    bytes: Vec<u8>,
    at: usize,
    step: usize,
    fails: Vec<u64>,
    calls: u64,
    faults: u64,
}

impl Drop for Tape {
    fn drop(self) {
        let Self {
            bytes: _,
            at: _,
            step: _,
            fails: _,
            calls: _,
            faults: _,
        } = self;
    }
}

impl Model for Tape {
    ghost use Rattle.std.specs.Prelude.{◌≤◌, length, drop};
    ghost use Rattle.htl_edge.specs.Fakes.{TapeState};

    ghost Value = { TapeState };

    ghost view = { λ t. record { rest = drop t.at t.bytes.items; step = t.step; fails = t.fails.items; calls = t.calls; faults = t.faults } };

    ghost invariant = { λ t. (t.at ≤ length t.bytes.items) × (1 ≤ t.step) };
}

impl Tape {
    /// A source of these bytes. `step` is at least 1; `fails` has the numbers of the calls that fail.
    pub fn new(alloc: Global, bytes: &[u8], step: usize, fails: &[u64]) -> Result<Tape, Memory>
        requires { 1 ≤ step }
        ensures { IfOk result (λ tape. tape ≡ record { rest = bytes.now; step = step; fails = fails.now; calls = 0; faults = 0 }) }
    {
        let Ok(bytes) = Vec::from_slice(alloc, bytes) else {
            return Err(Memory);
        };
        let Ok(fails) = Vec::from_slice(alloc, fails) else {
            return Err(Memory);
        };
        Ok(Tape {
            bytes,
            at: 0,
            step,
            fails,
            calls: 0,
            faults: 0,
        })
    }
}

impl Source for Tape {
    ghost rest = { λ t. Some t.rest };

    ghost faults = { λ t. t.faults };

    fn read(&mut self, buf: &mut [u8]) -> Result<usize, Failed>
        ensures bound { IfOk result (λ n. n ≤ length buf.new) }
        ensures bytes { TakesFront (Some self.old.rest) (Some self.new.rest) result buf.new }
        ensures empty { length buf.new ≡ 0 → result ≡ Ok 0 }
        ensures cause { HasCause self.old.faults self.new.faults result }
        ensures read { IsTapeRead self.old buf.new result }
        ensures state { self.new ≡ tape_after self.old result }
    {
        self.calls = self.calls.saturating_add(1);
        if buf.is_empty() {
            return Ok(0);
        }
        if self.fails.contains(&self.calls) {
            self.faults = self.faults.saturating_add(1);
            return Err(Failed);
        }
        let count = buf.len().min(self.step).min(self.bytes.len() - self.at);
        buf[..count].copy_from_slice(&self.bytes[self.at..self.at + count]);
        self.at += count;
        Ok(count)
    }
}
