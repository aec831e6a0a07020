// The bits of a row, one after the other.
ghost use Rattle.std.specs.Prelude.{◌≡◌, ◌<◌, ◌≤◌, ◌||◌, ◌&&◌, ℕ, true, false, cond, eqb, length};
ghost use Rattle.htl_model.specs.Bits.{has_bit, cell};

use htl_model::bits::with_bit;

/// The first bit of a row at `from` or above and below `count`; `count` where there is none.
pub fn next_bit(row: u128, from: usize, count: usize) -> usize
    requires few { count ≤ 128 }
    requires within { from ≤ count }
    ensures least { from ≤ result }
    ensures most { result ≤ count }
    ensures skipped { (x : ℕ) → from ≤ x → x < result → has_bit row x ≡ false }
    ensures found { result < count → has_bit row result ≡ true }
{
    if from == count {
        return count;
    }
    let rest = row >> from;
    if rest == 0 {
        return count;
    }
    (from + rest.trailing_zeros() as usize).min(count)
}

/// Notes `q` in the row of each bit of `row` below the number of rows.
pub fn note_in_rows(row: u128, q: u32, rows: &mut [u128])
    requires few { length rows.old ≤ 128 }
    requires within { q < 128 }
    ensures noted { (p r : ℕ) → p < length rows.old → cell rows.new p r ≡ (cell rows.old p r || (eqb r q && has_bit row p)) }
    ensures len { length rows.new ≡ length rows.old }
{
    let mut p = next_bit(row, 0, rows.len());
    while p < rows.len() {
        rows[p] = with_bit(rows[p], q);
        p = next_bit(row, p + 1, rows.len());
    }
}

/// A row without one of its bits.
pub fn without_bit(row: u128, k: u32) -> u128
    requires { k < 128 }
    ensures { (q : ℕ) → has_bit result q ≡ cond (eqb q k) false (has_bit row q) }
{
    row & !(1 << k)
}
