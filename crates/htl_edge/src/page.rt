// A sink in memory.
ghost use Rattle.std.specs.Prelude.{◌≡◌, ◌≤◌, ◌<◌, length, IfOk, Some, []};
ghost use Rattle.htl_edge.specs.Causes.{HasCause};
ghost use Rattle.htl_edge.specs.Content.{AppendsFront};
ghost use Rattle.htl_edge.specs.Fakes.{IsPageWrite, page_after};

use crate::{Failed, Sink};
use htl_base::Memory;
use std::alloc::Global;
use std::marker::Model;

/// A sink in memory. A write takes what fits of the piece; one of a nonempty piece fails where no room is left
/// and at the calls that it was told, which count from 1. It tells what was written.
pub struct Page {
    bytes: Vec<u8>,
    len: usize,
    fails: Vec<u64>,
    calls: u64,
    faults: u64,
}

impl Drop for Page {
    fn drop(self) {
        let Self {
            bytes: _,
            len: _,
            fails: _,
            calls: _,
            faults: _,
        } = self;
    }
}

impl Model for Page {
    ghost use Rattle.std.specs.Prelude.{◌≤◌, length, take};
    ghost use Rattle.htl_edge.specs.Fakes.{PageState};

    ghost Value = { PageState };

    ghost view = { λ p. record { written = take p.len p.bytes.items; room = length p.bytes.items; fails = p.fails.items; calls = p.calls; faults = p.faults } };

    ghost invariant = { λ p. p.len ≤ length p.bytes.items };
}

impl Page {
    /// An empty page for `room` bytes; all memory is taken here. `fails` has the numbers of the calls that fail.
    pub fn new(alloc: Global, room: usize, fails: &[u64]) -> Result<Page, Memory>
        ensures { IfOk result (λ page. page ≡ record { written = []; room = room; fails = fails.now; calls = 0; faults = 0 }) }
    {
        let Ok(bytes) = vec![in alloc; 0u8; room] else {
            return Err(Memory);
        };
        let Ok(fails) = Vec::from_slice(alloc, fails) else {
            return Err(Memory);
        };
        Ok(Page {
            bytes,
            len: 0,
            fails,
            calls: 0,
            faults: 0,
        })
    }

    /// What was written.
    pub fn bytes(&self) -> &[u8]
        ensures { result.now ≡ self.now.written }
    {
        &self.bytes[..self.len]
    }
}

impl Sink for Page {
    ghost written = { λ p. Some p.written };

    ghost faults = { λ p. p.faults };

    fn write(&mut self, piece: &[u8]) -> Result<usize, Failed>
        ensures bound { IfOk result (λ n. n ≤ length piece.now) }
        ensures some { IfOk result (λ n. 0 < length piece.now → 0 < n) }
        ensures bytes { AppendsFront (Some self.old.written) (Some self.new.written) result piece.now }
        ensures cause { HasCause self.old.faults self.new.faults result }
        ensures write { IsPageWrite self.old piece.now result }
        ensures state { self.new ≡ page_after self.old piece.now result }
    {
        self.calls = self.calls.saturating_add(1);
        if piece.is_empty() {
            return Ok(0);
        }
        let room = self.bytes.len() - self.len;
        if room == 0 || self.fails.contains(&self.calls) {
            self.faults = self.faults.saturating_add(1);
            return Err(Failed);
        }
        let count = piece.len().min(room);
        self.bytes[self.len..self.len + count].copy_from_slice(&piece[..count]);
        self.len += count;
        Ok(count)
    }
}
