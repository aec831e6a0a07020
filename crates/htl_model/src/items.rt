//! Items of the tables by number, where the invocations of a mode begin, and how many they are.
ghost use Rattle.std.specs.Prelude.{◌≡◌, ◌<◌, ◌≤◌, ◌+◌, ℕ, Some, count_by, get_or, length, slice_get};
ghost use Rattle.htl_model.specs.Selections.{inv_of_mode};
ghost use Rattle.htl_model.specs.Starts.{IsStartOf};

use crate::{Inv, Tables};

/// How many invocations there are.
pub fn inv_count(t: &Tables) -> usize
    ensures count { result ≡ length t.now.invs }
    ensures few { result ≤ 2048 }
{
    t.parts().invs.as_slice().len()
}

/// The invocation with a number.
pub fn inv_at(t: &Tables, k: usize) -> &Inv
    requires { k < length t.now.invs }
    ensures { slice_get t.now.invs k ≡ Some result.now }
{
    &t.parts().invs.as_slice()[k]
}

/// How many modes there are.
pub fn mode_count(t: &Tables) -> usize
    ensures count { result ≡ length t.now.modes }
    ensures few { result ≤ 256 }
{
    t.parts().modes.as_slice().len()
}

/// Where the invocations of the modes behind `mode` begin, by where those of `mode` begin: as many steps as `mode`
/// has invocations, so that all starts in turn are one pass over the invocations.
pub fn next_start(t: &Tables, mode: u16, start: usize) -> usize
    requires { IsStartOf t.now mode start }
    ensures start { IsStartOf t.now (mode + 1) result }
    ensures behind { start ≤ result }
{
    t.keeps_ranges();
    let count = inv_count(t);
    for k in start..count {
        if mode < inv_at(t, k).mode {
            return k;
        }
    }
    count
}

/// Counts the invocations of each mode that has a place in `counts`, all of which are 0: one pass over the invocations.
pub fn count_invs(invs: &[Inv], counts: &mut [usize])
    requires { (m : ℕ) → get_or counts.old m 0 ≡ 0 }
    ensures counts { (m : ℕ) → m < length counts.new → get_or counts.new m 0 ≡ count_by (inv_of_mode m) invs.now }
    ensures len { length counts.new ≡ length counts.old }
{
    for k in 0..invs.len() {
        let mode = invs[k].mode as usize;
        if mode < counts.len() {
            counts[mode] += 1;
        }
    }
}
