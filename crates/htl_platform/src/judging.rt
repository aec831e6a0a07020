// The first fault of a file's table.
ghost use Rattle.std.specs.Prelude.{◌≡◌, MatchResult};
ghost use Rattle.toml.specs.View.{table_view};
ghost use Rattle.htl_platform.specs.Faults.{bad_shape, bad_number, fault_in};
ghost use Rattle.htl_platform.specs.Answers.{IsJudged};
ghost use Rattle.htl_platform.specs.declared.fault.PlatformStop.TheVariants.{Memory};

use crate::entries::{TopEntry, WholeNumber, WorstCase};
use crate::fault::{PlatformFault, PlatformStop};
use crate::keys::bad_key;
use crate::search::first_failing;
use crate::table::{entry_count, first_in_worst, value_at};
use htl_model::Tables;
use std::alloc::Global;
use toml::Table;

// The first entry of another shape, or the number of entries where all are right and `name` is missing.
fn bad_shape(table: &Table) -> Option<usize>
    ensures { result ≡ bad_shape (table_view table.now) }
{
    if let Some(entry) = first_failing(&TopEntry, 0, table) {
        return Some(entry);
    }
    if let Some(entry) = first_in_worst(&WholeNumber, table) {
        return Some(entry);
    }
    match value_at(table, "name") {
        Some(_) => None,
        None => Some(entry_count(table)),
    }
}

// The first entry of `worst` whose number isn't in range.
fn bad_number(table: &Table) -> Option<usize>
    ensures { result ≡ bad_number (table_view table.now) }
{
    first_in_worst(&WorstCase, table)
}

// The number of an entry, as faults have it.
fn number(entry: usize) -> Result<u32, PlatformStop>
    ensures { MatchResult result (λ n. n ≡ entry) (λ stop. stop ≡ Memory) }
{
    if entry <= u32::MAX as usize {
        Ok(entry as u32)
    } else {
        Err(PlatformStop::Memory)
    }
}

/// Tries a file's table for its first fault: the shape of all entries, then the keys of `worst`, then its numbers.
pub fn judge(alloc: Global, table: &Table, t: &Tables) -> Result<(), PlatformStop>
    ensures { IsJudged (fault_in t.now (table_view table.now)) result }
{
    if let Some(entry) = bad_shape(table) {
        let entry = number(entry)?;
        return Err(PlatformStop::Refused(PlatformFault::Shape { entry }));
    }
    if let Some(entry) = bad_key(alloc, t, table)? {
        let entry = number(entry)?;
        return Err(PlatformStop::Refused(PlatformFault::Unknown { entry }));
    }
    if let Some(entry) = bad_number(table) {
        let entry = number(entry)?;
        return Err(PlatformStop::Refused(PlatformFault::Range { entry }));
    }
    Ok(())
}
