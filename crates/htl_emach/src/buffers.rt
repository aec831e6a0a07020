// Buffers of values, of which clauses see the values alone.
ghost use Rattle.std.specs.Prelude.{◌≡◌, map};
ghost use Rattle.htl_emach.specs.Contents.{buffer, put_in};
ghost use Rattle.htl_emach.specs.Shapes.{HasRow};

use htl_base::Value;
use std::marker::Model;

/// Buffers of values, one for each invocation.
#[derive(Drop)]
pub struct Buffers {
    rows: Vec<Vec<Value>>,
}

impl Model for Buffers {
    ghost use Rattle.std.specs.Prelude.{map, List, ℤ};

    ghost Value = { List (List ℤ) };

    ghost view = { λ b. map (λ r. r.items) b.rows.items };
}

impl Buffers {
    /// The rows.
    pub fn new(rows: Vec<Vec<Value>>) -> Buffers
        ensures { result ≡ map (λ r. r.items) rows.items }
    {
        Buffers { rows }
    }

    /// The value at a place of a row; 0 where there is none.
    pub fn get(&self, row: u16, place: u16) -> Value
        ensures { result ≡ buffer self.now row place }
    {
        if row as usize >= self.rows.len() {
            return 0;
        }
        let r = &self.rows[row as usize];
        if (place as usize) < r.len() {
            r[place as usize]
        } else {
            0
        }
    }

    /// Puts a value at a place of a row; all else stays.
    pub fn put(&mut self, row: u16, place: u16, x: Value)
        requires { HasRow self.old row place }
        ensures { self.new ≡ put_in self.old row place x }
    {
        let r = &mut self.rows[row as usize];
        r[place as usize] = x;
    }
}
