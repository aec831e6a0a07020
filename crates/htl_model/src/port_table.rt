//! Who writes each port, as a table of rows of bits that is filled in one pass over the ends.
ghost use Rattle.std.specs.Prelude.{◌≡◌, ◌<◌, ◌||◌, ◌&&◌, ℕ, length, eqb};
ghost use Rattle.std.specs.List.{list_any};
ghost use Rattle.htl_model.specs.Bits.{has_bit as has_bit_of, cell};
ghost use Rattle.htl_model.specs.PortTable.{is_from};
ghost use Rattle.htl_model.specs.PortWriters.{is_port as is_port_of};

use crate::End;
use crate::bits::with_bit;

// Notes that writer `q` writes the end, if that is a port.
fn mark_end(end: End, q: u32, table: &mut [u128])
    requires { q < 128 }
    ensures { (p r : ℕ) → p < length table.old → cell table.new p r ≡ (cell table.old p r || (eqb r q && is_port_of p end)) }
{
    if let End::Port { port } = end {
        if (port as usize) < table.len() {
            table[port as usize] = with_bit(table[port as usize], q);
        }
    }
}

/// Notes the ports among the ends as written by writer `q`.
pub fn mark_ends(ends: &[End], q: u32, table: &mut [u128])
    requires { q < 128 }
    ensures rows { (p r : ℕ) → p < length table.old → cell table.new p r ≡ (cell table.old p r || (eqb r q && list_any (is_port_of p) ends.now)) }
    ensures len { length table.new ≡ length table.old }
{
    for k in 0..ends.len() {
        mark_end(ends[k], q, table);
    }
}

// The writers of an end, if that is a port.
fn writers_of(end: End, table: &[u128]) -> u128
    ensures { (q : ℕ) → has_bit_of result q ≡ is_from table.now q end }
{
    match end {
        End::Comm { .. } => 0,
        End::Port { port } => if (port as usize) < table.len() {
            table[port as usize]
        } else {
            0
        },
    }
}

/// A bit for each writer of a port among the ends.
pub fn row_of(ends: &[End], table: &[u128]) -> u128
    ensures { (q : ℕ) → has_bit_of result q ≡ list_any (is_from table.now q) ends.now }
{
    let mut row = 0u128;
    for k in 0..ends.len() {
        row = row | writers_of(ends[k], table);
    }
    row
}
