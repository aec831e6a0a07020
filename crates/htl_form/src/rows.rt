//! Rows of bits: which invocations of a mode write each port, and which precede which by the ports.
ghost use Rattle.std.specs.Prelude.{◌≡◌, ◌≤◌, ◌<◌, ◌+◌, ◌^◌, ℕ, true, false, length};
ghost use Rattle.std.specs.List.{list_any};
ghost use Rattle.htl_model.specs.PortWriters.{is_port};
ghost use Rattle.htl_model.specs.Bits.{cell};
ghost use Rattle.htl_form.specs.Rows.{widened as widened_of, through_one as through_one_of, through_all as through_all_of, AreWriters, AreSteps, IsRangeOf};

use htl_model::items::inv_at;
use htl_model::port_table::{mark_ends, row_of};
use htl_model::{End, Tables};

// ---- the writers of each port

/// Notes for each port which of the `n` invocations from `base` on write it.
pub fn fill_writers(t: &Tables, base: usize, n: usize, table: &mut [u128])
    requires empty { (p q : ℕ) → cell table.old p q ≡ false }
    requires few { n ≤ 128 }
    requires within { base + n ≤ length t.now.invs }
    ensures writers { AreWriters t.now base n table.new }
    ensures len { length table.new ≡ length table.old }
{
    t.keeps_ranges();
    for q in 0..n {
        let inv = inv_at(t, base + q);
        mark_ends(inv.writes.as_slice(), q as u32, table);
    }
}

// Notes that nobody writes the end, if that is a port.
fn clear_end(end: End, table: &mut [u128])
    ensures rows { (p r : ℕ) → p < length table.old → cell table.new p r ≡ true → (cell table.old p r ≡ true) × (is_port p end ≡ false) }
    ensures len { length table.new ≡ length table.old }
{
    if let End::Port { port } = end {
        if (port as usize) < table.len() {
            table[port as usize] = 0;
        }
    }
}

// Notes that nobody writes the ports among the ends.
fn clear_ends(ends: &[End], table: &mut [u128])
    ensures rows { (p r : ℕ) → p < length table.old → cell table.new p r ≡ true → (cell table.old p r ≡ true) × (list_any (is_port p) ends.now ≡ false) }
    ensures len { length table.new ≡ length table.old }
{
    for k in 0..ends.len() {
        clear_end(ends[k], table);
    }
}

/// Empties the table of what the `n` invocations from `base` on write.
pub fn clear_writers(t: &Tables, base: usize, n: usize, table: &mut [u128])
    requires within { base + n ≤ length t.now.invs }
    requires writers { AreWriters t.now base n table.old }
    ensures empty { (p q : ℕ) → cell table.new p q ≡ false }
    ensures len { length table.new ≡ length table.old }
{
    t.keeps_ranges();
    for q in 0..n {
        let inv = inv_at(t, base + q);
        clear_ends(inv.writes.as_slice(), table);
    }
}

// ---- the steps of a mode

/// Fills for each of the `n` invocations from `base` on the row of those whose ports it reads.
pub fn fill_rows(t: &Tables, mode: u16, base: usize, n: usize, table: &[u128], rows: &mut [u128])
    requires room { n ≤ length rows.old }
    requires within { base + n ≤ length t.now.invs }
    requires table { length table.now ≡ 4096 }
    requires writers { AreWriters t.now base n table.now }
    requires range { IsRangeOf t.now mode base n }
    ensures steps { AreSteps t.now base n rows.new }
    ensures len { length rows.new ≡ length rows.old }
    ensures room { n ≤ length rows.new }
{
    t.keeps_ranges();
    for b in 0..n {
        let inv = inv_at(t, base + b);
        rows[b] = row_of(inv.reads.as_slice(), table);
    }
}

// ---- the closure

// A row with another where it has the bit that is set alone in `bit`.
fn widened(other: u128, bit: u128, row: u128) -> u128
    ensures { (k : ℕ) → bit ≡ 2 ^ k → result ≡ widened_of other k row }
{
    if row & bit == 0 { row } else { row | other }
}

// Widens each row that has bit `k` by row `k`: one step where that is empty.
fn through_one(rows: &mut [u128], k: usize)
    requires within { k < length rows.old }
    requires few { k < 128 }
    ensures rows { rows.new ≡ through_one_of rows.old k }
    ensures len { length rows.new ≡ length rows.old }
{
    let other = rows[k];
    if other == 0 {
        return;
    }
    let bit = 1u128 << k;
    for i in 0..rows.len() {
        rows[i] = widened(other, bit, rows[i]);
    }
}

/// Widens the rows until each of the first `n` has a bit for all to which it leads among these: `n` steps for each of the
/// first `n` rows that isn't empty.
pub fn through_all(rows: &mut [u128], n: usize)
    requires within { n ≤ length rows.old }
    requires few { n ≤ 128 }
    ensures rows { rows.new ≡ through_all_of n rows.old }
    ensures len { length rows.new ≡ length rows.old }
{
    for k in 0..n {
        through_one(rows, k);
    }
}
