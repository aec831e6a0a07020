// Who feeds whom, once for all lines of a log.
ghost use Rattle.std.specs.Prelude.{◌≡◌, ◌<◌, ◌≤◌, [], get_or, length, IfOk};
ghost use Rattle.htl_audit.specs.Feeders.{feeders_of as feeders_of_inv, all_feeders};

use crate::ports::feeds;
use htl_model::Tables;
use std::alloc::{AllocError, Global};
use std::marker::Model;

/// Of each invocation those that write a port that it reads, by number.
#[derive(Drop)]
pub struct Feeders {
    rows: Vec<Vec<u16>>,
}

impl Model for Feeders {
    ghost use Rattle.std.specs.Prelude.{map, List, ℕ};

    ghost Value = { List (List ℕ) };

    ghost view = { λ f. map (λ r. r.items) f.rows.items };
}

// The invocations that feed another.
fn feeders_of(alloc: Global, t: &Tables, inv: u16) -> Result<Vec<u16>, AllocError>
    requires inv { inv < length t.now.invs }
    requires few { length t.now.invs ≤ 65536 }
    ensures { IfOk result (λ v. v.items ≡ feeders_of_inv t.now inv) }
{
    let invs = t.parts().invs.as_slice();
    let mut found = Vec::new(alloc);
    for n in 0..invs.len() {
        if feeds(t, n as u16, inv) {
            found.push(n as u16)?;
        }
    }
    Ok(found)
}

impl Feeders {
    /// Those of tables: for each invocation one pass over all. Want of memory is the one refusal.
    pub fn new(alloc: Global, t: &Tables) -> Result<Feeders, AllocError>
        ensures { IfOk result (λ f. f ≡ all_feeders t.now) }
    {
        t.keeps_ranges();
        let count = t.parts().invs.as_slice().len();
        let mut rows = Vec::new(alloc);
        for i in 0..count {
            let row = feeders_of(alloc, t, i as u16)?;
            rows.push(row)?;
        }
        Ok(Feeders { rows })
    }

    /// The invocations that feed one with a number in range, in order.
    pub fn row(&self, inv: u16) -> &[u16]
        requires { inv < length self.now }
        ensures { result.now ≡ get_or self.now inv [] }
    {
        self.rows[inv as usize].as_slice()
    }
}
