// The table that a file is, and what stands in it.
ghost use Rattle.std.specs.Prelude.{◌≡◌, ◌<◌, ◌^◌, option_map, length, Some, IfOk, IfErr};
ghost use Rattle.toml.specs.Data.{get_member};
ghost use Rattle.toml.specs.View.{view, table_view};
ghost use Rattle.htl_platform.specs.Entries.{entries_of, members_or, worst_of};
ghost use Rattle.htl_platform.specs.Faults.{first_failing};
ghost use Rattle.htl_platform.specs.Platforms.{document_in};
ghost use Rattle.htl_platform.specs.Answers.{IsNoDocument};

use crate::fault::{PlatformFault, PlatformStop};
use crate::search::{Test, first_failing};
use std::alloc::Global;
use toml::{Table, Value};

/// The table that the bytes are. `Text` comes only where they are none: no UTF-8, or no TOML.
pub fn document(alloc: Global, bytes: &[u8]) -> Result<Table, PlatformStop>
    ensures found { IfOk result (λ table. document_in bytes.now ≡ Some (table_view table)) }
    ensures refused { IfErr result (IsNoDocument bytes.now) }
{
    match toml::table_from_slice(alloc, bytes) {
        Ok(table) => Ok(table),
        Err(error) => {
            if error.is_memory() {
                Err(PlatformStop::Memory)
            } else {
                Err(PlatformStop::Refused(PlatformFault::Text))
            }
        }
    }
}

/// The value at a key.
pub fn value_at<'a>(table: &'a Table, key: &str) -> Option<&'a Value>
    ensures { option_map (λ v. view v.now) result ≡ get_member key.now (table_view table.now) }
{
    table.get(key)
}

// The table `worst`.
fn worst_table(table: &Table) -> Option<&Table>
    ensures { members_or (option_map (λ m. table_view m.now) result) ≡ worst_of (table_view table.now) }
{
    match value_at(table, "worst") {
        Some(value) => value.as_table(),
        None => None,
    }
}

/// The value in `worst` at a key.
pub fn worst_at<'a>(table: &'a Table, key: &str) -> Option<&'a Value>
    ensures { option_map (λ v. view v.now) result ≡ get_member key.now (worst_of (table_view table.now)) }
{
    match worst_table(table) {
        Some(worst) => value_at(worst, key),
        None => None,
    }
}

/// How many entries the file's own table has.
pub fn entry_count(table: &Table) -> usize
    ensures value { result ≡ length (entries_of (table_view table.now)) }
    ensures small { result < 2 ^ 63 }
{
    table.len()
}

/// The number of the first entry of `worst` that fails.
pub fn first_in_worst<T: Test>(test: &T, table: &Table) -> Option<usize>
    ensures { result ≡ first_failing (T.passes test.now) (length (entries_of (table_view table.now))) (entries_of (worst_of (table_view table.now))) }
{
    match worst_table(table) {
        Some(worst) => first_failing(test, entry_count(table), worst),
        None => None,
    }
}
