// Which positions write the ports that an invocation reads, by one pass over the ends.
ghost use Rattle.std.specs.Prelude.{◌≡◌, ◌≤◌, ◌<◌, ◌||◌, ◌&&◌, ℕ, false, eqb, length};
ghost use Rattle.std.specs.List.{list_any};
ghost use Rattle.htl_model.specs.Bits.{has_bit, cell};
ghost use Rattle.htl_model.specs.PortTable.{writes_to, is_from};
ghost use Rattle.htl_walk.specs.Writers.{inv_of, reads_of, AreWriters};

use htl_model::Tables;
use htl_model::port_table::{mark_ends, row_of};

// Notes the ports that what stands at position `q` writes.
fn mark_position(t: &Tables, inv: Option<u16>, q: u32, table: &mut [u128])
    requires { q < 128 }
    ensures rows { (p r : ℕ) → p < length table.old → cell table.new p r ≡ (cell table.old p r || (eqb r q && writes_to (inv_of t.now inv) p)) }
    ensures len { length table.new ≡ length table.old }
{
    let invs = t.parts().invs.as_slice();
    if let Some(k) = inv {
        if (k as usize) < invs.len() {
            mark_ends(invs[k as usize].writes.as_slice(), q, table);
        }
    }
}

/// Notes for each port the positions that write it.
pub fn fill_writers(t: &Tables, standing: &[Option<u16>], table: &mut [u128])
    requires few { length standing.now ≤ 128 }
    requires empty { (p q : ℕ) → cell table.old p q ≡ false }
    ensures writers { AreWriters t.now standing.now table.new }
    ensures len { length table.new ≡ length table.old }
{
    for q in 0..standing.len() {
        mark_position(t, standing[q], q as u32, table);
    }
}

/// The positions that write a port which what stands reads, by bits.
pub fn predecessors(t: &Tables, inv: Option<u16>, table: &[u128]) -> u128
    ensures { (q : ℕ) → has_bit result q ≡ list_any (is_from table.now q) (reads_of (inv_of t.now inv)) }
{
    let invs = t.parts().invs.as_slice();
    match inv {
        Some(k) => if (k as usize) < invs.len() {
            row_of(invs[k as usize].reads.as_slice(), table)
        } else {
            0
        },
        None => 0,
    }
}
