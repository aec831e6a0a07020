// Positions one after the other, each after all that it waits for.
ghost use Rattle.std.specs.Prelude.{◌≡◌, ◌≤◌, ◌<◌, ℕ, true, false, cond, eqb, length, get_or, IfSome};
ghost use Rattle.htl_model.specs.Bits.{has_bit};

use crate::bits::{next_bit, without_bit};
use htl_model::bits::with_bit;

/// The positions whose turn has not come yet, and those of them whose turn it is. `waits` has a row for each position, with
/// a bit for each position that it waits for, and `wakes` a row with a bit for each that waits for it.
#[derive(Clone, Copy)]
pub struct Turns {
    pub waiting: u128,
    ready: u128,
}

// All positions below `count`.
fn all_below(count: usize) -> u128
    requires { count ≤ 128 }
    ensures { (q : ℕ) → q < count → has_bit result q ≡ true }
{
    let mut row = 0u128;
    for q in 0..count {
        row = with_bit(row, q as u32);
    }
    row
}

// The positions below `count` that wait for none of `waiting`.
fn free_below(waits: &[u128], waiting: u128, count: usize) -> u128
    requires few { count ≤ 128 }
    requires rows { count ≤ length waits.now }
{
    let mut ready = 0u128;
    for q in 0..count {
        if waits[q] & waiting == 0 {
            ready = with_bit(ready, q as u32);
        }
    }
    ready
}

impl Turns {
    /// The turn of those below `count` that wait for none.
    pub fn new(waits: &[u128], count: usize) -> Turns
        requires few { count ≤ 128 }
        requires rows { count ≤ length waits.now }
        ensures { (q : ℕ) → q < count → has_bit result.waiting q ≡ true }
    {
        let waiting = all_below(count);
        Turns {
            waiting,
            ready: free_below(waits, waiting, count),
        }
    }

    // It is the turn of those of the row that now wait for none.
    fn wake(&mut self, waits: &[u128], row: u128, count: usize)
        requires few { count ≤ 128 }
        requires rows { count ≤ length waits.now }
        ensures { self.new.waiting ≡ self.old.waiting }
    {
        let mut q = next_bit(row, 0, count);
        while q < count {
            if waits[q] & self.waiting == 0 {
                self.ready = with_bit(self.ready, q as u32);
            }
            q = next_bit(row, q + 1, count);
        }
    }

    /// The lowest position whose turn it is, which waits for none that still waits. None where there is no such position: all
    /// have had their turns, or those that are left wait for one another.
    pub fn take(&mut self, waits: &[u128], wakes: &[u128], count: usize) -> Option<usize>
        requires few { count ≤ 128 }
        requires rows { count ≤ length waits.now }
        requires columns { count ≤ length wakes.now }
        ensures within { IfSome result (λ q. q < count) }
        ensures free { IfSome result (λ q. (p : ℕ) → has_bit (get_or waits.now q 0) p ≡ true → has_bit self.old.waiting p ≡ false) }
        ensures taken { IfSome result (λ q. (p : ℕ) → has_bit self.new.waiting p ≡ cond (eqb p q) false (has_bit self.old.waiting p)) }
    {
        let q = next_bit(self.ready, 0, count);
        if q == count || waits[q] & self.waiting != 0 {
            return None;
        }
        self.ready = without_bit(self.ready, q as u32);
        self.waiting = without_bit(self.waiting, q as u32);
        self.wake(waits, wakes[q], count);
        Some(q)
    }
}
