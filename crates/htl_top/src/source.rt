// Files of at most 1,048,576 bytes.
ghost use Rattle.std.specs.Prelude.{◌≡◌, ℕ, List, IfOk, IfErr, Some};
ghost use Rattle.htl_open.specs.Files.{files};
ghost use Rattle.htl_open.specs.declared.stop.FetchStop.TheVariants as fetch;
ghost use Rattle.htl_open.specs.declared.stop.ShelfCause.TheVariants as cause;
ghost use Rattle.htl_top.specs.Causes.{IsSource, IsFileStop};

use crate::ShelfCause;
use htl_base::limits::MAX_SOURCE;
use htl_edge::{Shelf, ShelfFault};
use htl_open::FetchStop;
use std::alloc::Global;

/// A file of at most 1,048,576 bytes, or why it isn't had.
pub fn fetch_source<S: Shelf>(
    alloc: Global,
    name: &str,
    shelf: &mut S,
) -> Result<Vec<u8>, FetchStop>
    ensures fetched { IfOk result (λ bytes. IsSource (Some name.now) (S.holds shelf.old) bytes.items) }
    ensures stopped { IfErr result (IsFileStop (Some name.now) (files S.holds S.faults shelf.old shelf.new)) }
    ensures shelf { S.holds shelf.new ≡ S.holds shelf.old }
    ensures fetched_count { IfOk result (λ bytes. (file : List ℕ) → S.faults shelf.new file ≡ S.faults shelf.old file) }
    ensures stopped_count { IfErr result (λ s. (s ≡ fetch.Shelf cause.Failed → ⊥) → (file : List ℕ) → S.faults shelf.new file ≡ S.faults shelf.old file) }
{
    match shelf.fetch(alloc, name, MAX_SOURCE) {
        Ok(bytes) => Ok(bytes),
        Err(ShelfFault::Failed) => Err(FetchStop::Shelf(ShelfCause::Failed)),
        Err(ShelfFault::TooLong { seen }) => Err(FetchStop::Shelf(ShelfCause::TooLong { seen })),
        Err(ShelfFault::Memory) => Err(FetchStop::Memory),
    }
}
