// Form rule 9: ports make no cycle.
ghost use Rattle.std.specs.Prelude.{◌≡◌, ◌≤◌, ◌<◌, ◌+◌, ℕ, false, Some, length, get_or, slice_get};
ghost use Rattle.htl_form.specs.Cycles.{is_on_cycle as is_on_cycle_of, cycle_count as cycle_count_of, cycle_fault as cycle_fault_of};
ghost use Rattle.htl_form.specs.Rows.{IsRangeOf, AreMarked};
ghost use Rattle.htl_model.specs.Bits.{cell};
ghost use Rattle.htl_form.specs.Surveys.{AreCycleMarks, IsSurveyOf};

use crate::ranges::count_from;
use crate::rows::{clear_writers, fill_rows, fill_writers, through_all};
use crate::survey::Survey;
use htl_base::limits::{MAX_MODE_INVOCATIONS, MAX_PORTS};
use htl_model::bits::has_bit;
use htl_model::items::{inv_at, inv_count, mode_count};
use htl_model::{Inv, Tables};

// Marks for each of the `n` invocations from `base` on whether its row has its own bit.
fn mark_diagonal(rows: &[u128], base: usize, n: usize, marks: &mut [bool])
    requires few { n ≤ 128 }
    requires rows { n ≤ length rows.now }
    requires room { base + n ≤ length marks.old }
    ensures inside { (q : ℕ) → q < n → get_or marks.new (base + q) false ≡ cell rows.now q q }
    ensures below { (k : ℕ) → k < base → get_or marks.new k false ≡ get_or marks.old k false }
    ensures above { (k : ℕ) → base + n ≤ k → get_or marks.new k false ≡ get_or marks.old k false }
{
    for q in 0..n {
        marks[base + q] = has_bit(rows[q], q as u32);
    }
}

// Marks for each invocation of a mode, the `n` from `base` on, whether it precedes itself.
// The table of writers is lent: it is empty before and after.
fn mark_mode(t: &Tables, mode: u16, base: usize, n: usize, writers: &mut [u128], marks: &mut [bool])
    requires range { IsRangeOf t.now mode base n }
    requires room { base + n ≤ length marks.old }
    requires ports { length writers.old ≡ 4096 }
    requires empty { (p q : ℕ) → cell writers.old p q ≡ false }
    ensures marked { AreMarked t.now base n marks.old marks.new }
    ensures len { length marks.new ≡ length marks.old }
    ensures ports { length writers.new ≡ 4096 }
    ensures empty { (p q : ℕ) → cell writers.new p q ≡ false }
{
    fill_writers(t, base, n, writers);
    let mut room = [0u128; MAX_MODE_INVOCATIONS];
    let rows = &mut room[..n];
    fill_rows(t, mode, base, n, writers, rows);
    clear_writers(t, base, n, writers);
    through_all(rows, n);
    mark_diagonal(rows, base, n, marks);
}

/// Marks for each invocation whether it precedes itself: a pass over the ends, and for each mode as many steps as the
/// square of its invocations.
pub fn mark_cycles(t: &Tables, marks: &mut [bool])
    requires { length t.now.invs ≤ length marks.old }
    ensures { AreCycleMarks t.now marks.new }
{
    t.keeps_ranges();
    let modes = mode_count(t);
    let mut writers = [0u128; MAX_PORTS];
    let mut base = 0;
    for m in 0..modes {
        let mode = m as u16;
        let n = count_from(t, mode, base);
        mark_mode(t, mode, base, n, &mut writers, marks);
        base += n;
    }
}

// Whether an invocation is one of the mode and precedes itself.
fn is_on_cycle(t: &Tables, survey: &Survey, mode: u16, k: usize) -> bool
    requires survey { IsSurveyOf t.now survey.now }
    requires within { k < length t.now.invs }
    requires few { k < 2048 }
    ensures { result ≡ is_on_cycle_of t.now mode k }
{
    inv_at(t, k).mode == mode && survey.on_cycle[k]
}

// How many invocations of the mode precede themselves.
fn cycle_count(t: &Tables, survey: &Survey, mode: u16) -> u32
    requires { IsSurveyOf t.now survey.now }
    ensures { result ≡ cycle_count_of t.now mode }
{
    let count = inv_count(t);
    let mut n = 0u32;
    for k in 0..count {
        if is_on_cycle(t, survey, mode, k) {
            n += 1;
        }
    }
    n
}

/// An invocation that precedes itself by the ports.
pub fn cycle_fault(t: &Tables, survey: &Survey, k: u16, inv: &Inv) -> Option<(u64, u64)>
    requires survey { IsSurveyOf t.now survey.now }
    requires inv { slice_get t.now.invs k ≡ Some inv.now }
    ensures { result ≡ cycle_fault_of t.now k inv.now }
{
    t.keeps_ranges();
    if survey.on_cycle[k as usize] {
        Some((cycle_count(t, survey, inv.mode) as u64, 0))
    } else {
        None
    }
}
