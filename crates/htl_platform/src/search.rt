// The first entry of a table that fails a test.
ghost use Rattle.std.specs.Prelude.{◌≡◌, ◌<◌, ◌^◌};
ghost use Rattle.toml.specs.View.{view, table_view};
ghost use Rattle.htl_platform.specs.Entries.{entries_of};
ghost use Rattle.htl_platform.specs.Faults.{first_failing};

use toml::{Table, Value};

/// What an entry is tested for.
pub trait Test {
    ghost use Rattle.std.specs.Prelude.{Bool};
    ghost use Rattle.htl_platform.specs.Entries.{Entry};

    ghost passes: { Self → Entry → Bool };

    fn passes(&self, key: &str, value: &Value) -> bool
        ensures { result ≡ passes self.now (key.now, view value.now) };
}

/// The number of the first entry that fails, where the table's first entry has the number `start`.
pub fn first_failing<T: Test>(test: &T, start: usize, table: &Table) -> Option<usize>
    requires { start < 2 ^ 63 }
    ensures { result ≡ first_failing (T.passes test.now) start (entries_of (table_view table.now)) }
{
    let mut entry = start;
    'entries: for (key, value) in table.iter() {
        if !test.passes(key.as_str(), value) {
            return Some(entry);
        }
        entry += 1;
    }
    None
}
