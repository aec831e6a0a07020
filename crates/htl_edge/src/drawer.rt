// A shelf in memory.
ghost use Rattle.std.specs.Prelude.{◌≡◌, ◌≤◌, ℕ, List, IfOk, IfErr, Some, Err, length};
ghost use Rattle.htl_edge.specs.Fakes.{IsDrawerFetch, drawer_after};
ghost use Rattle.htl_edge.specs.Holdings.{HoldsUnder, IsTooLong, IsKept, holdings_of};
ghost use Rattle.htl_edge.specs.Causes.{Rose};
ghost use Rattle.htl_edge.specs.Entries.{entries_of, have_different_names, bytes_under, IsCopy};
ghost use Rattle.std.specs.Prelude.{IsTrue};
ghost use Rattle.std.specs.Option.{option_copied};

use crate::{Shelf, ShelfFault};
use htl_base::Memory;
use std::alloc::Global;
use std::marker::Model;

/// A shelf in memory. It fails at the calls that it was told, which count from 1, and at names that it doesn't
/// hold. One counter serves all names. It tells what it holds.
pub struct Drawer {
    items: Vec<(String, Vec<u8>)>,
    fails: Vec<u64>,
    calls: u64,
    faults: u64,
}

impl Drop for Drawer {
    fn drop(self) {
        let Self {
            items: _,
            fails: _,
            calls: _,
            faults: _,
        } = self;
    }
}

impl Model for Drawer {
    ghost use Rattle.htl_edge.specs.Fakes.{DrawerState};
    ghost use Rattle.htl_edge.specs.Entries.{entries_of};

    ghost Value = { DrawerState };

    ghost view = { λ d. record { entries = entries_of d.items.items; fails = d.fails.items; calls = d.calls; faults = d.faults } };
}

impl Drawer {
    /// A shelf of these names and bytes. The names differ; `fails` has the numbers of the calls that fail.
    pub fn new(
        alloc: Global,
        items: Vec<(String, Vec<u8>)>,
        fails: &[u64],
    ) -> Result<Drawer, Memory>
        requires { IsTrue (have_different_names (entries_of items.items)) }
        ensures { IfOk result (λ drawer. drawer ≡ record { entries = entries_of items.items; fails = fails.now; calls = 0; faults = 0 }) }
    {
        let Ok(fails) = Vec::from_slice(alloc, fails) else {
            return Err(Memory);
        };
        Ok(Drawer {
            items,
            fails,
            calls: 0,
            faults: 0,
        })
    }
}

impl Shelf for Drawer {
    ghost holds = { λ d. Some (holdings_of d.entries) };

    ghost faults = { λ d _. d.faults };

    fn fetch(&mut self, alloc: Global, name: &str, limit: u64) -> Result<Vec<u8>, ShelfFault>
        ensures bytes { IfOk result (λ bytes. HoldsUnder (Some (holdings_of self.old.entries)) name.now bytes.items) }
        ensures short { IfOk result (λ bytes. length bytes.items ≤ limit) }
        ensures long { IfErr result (IsTooLong (Some (holdings_of self.old.entries)) name.now limit) }
        ensures failed { result ≡ Err ShelfFault.Failed → Rose self.old.faults self.new.faults }
        ensures same { Some (holdings_of self.new.entries) ≡ Some (holdings_of self.old.entries) }
        ensures counts { (other : List ℕ) → self.old.faults ≤ self.new.faults }
        ensures kept { (other : List ℕ) → IsKept self.old.faults self.new.faults result }
        ensures fetch { IsDrawerFetch self.old name.now limit result }
        ensures state { self.new ≡ drawer_after self.old result }
    {
        self.calls = self.calls.saturating_add(1);
        if self.fails.contains(&self.calls) {
            self.faults = self.faults.saturating_add(1);
            return Err(ShelfFault::Failed);
        }
        match find(&self.items, name) {
            Some(bytes) => copy(alloc, bytes, limit),
            None => {
                self.faults = self.faults.saturating_add(1);
                Err(ShelfFault::Failed)
            }
        }
    }
}

// The bytes under the name.
fn find<'a>(items: &'a [(String, Vec<u8>)], name: &str) -> Option<&'a [u8]>
    ensures { option_copied result ≡ bytes_under (entries_of items.now) name.now }
{
    for item in items {
        if item.0.as_str() == name {
            return Some(item.1.as_slice());
        }
    }
    None
}

// The bytes, where they are few enough.
fn copy(alloc: Global, bytes: &[u8], limit: u64) -> Result<Vec<u8>, ShelfFault>
    ensures { IsCopy bytes.now limit result }
{
    if bytes.len() as u64 > limit {
        return Err(ShelfFault::TooLong {
            seen: bytes.len() as u64,
        });
    }
    match Vec::from_slice(alloc, bytes) {
        Ok(copied) => Ok(copied),
        Err(_) => Err(ShelfFault::Memory),
    }
}
