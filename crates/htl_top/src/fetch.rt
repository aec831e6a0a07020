// Files that the shelf gives: an accepted object, and a second file beside it.
ghost use Rattle.std.specs.Prelude.{◌≡◌, List, ℕ, Some, IfOk, IfErr};
ghost use Rattle.htl_open.specs.Files.{files, IsObjectFile};
ghost use Rattle.htl_open.specs.declared.stop.FetchStop.TheVariants as fetch_stop;
ghost use Rattle.htl_open.specs.declared.stop.OpenStop.TheVariants as open_stop;
ghost use Rattle.htl_open.specs.declared.stop.ShelfCause.TheVariants as cause;
ghost use Rattle.htl_top.specs.Fetching.{AreUnhad, IsUnhad};
ghost use Rattle.htl_top.specs.Files.{AreFilesOf};

use htl_edge::Shelf;
use htl_load::Loaded;
use htl_open::fetch::fetch_file;
use htl_open::object::{ObjectStop, read_object};
use htl_open::{FetchStop, OpenStop};
use std::alloc::Global;

// The file of an object and then a second file, or why one isn't had.
fn fetch_both<S: Shelf>(
    alloc: Global,
    name: &str,
    second: &str,
    shelf: &mut S,
) -> Result<(Vec<u8>, Vec<u8>), FetchStop>
    ensures object { IfOk result (λ f. IsObjectFile (Some name.now) (S.holds shelf.old) f.0.items) }
    ensures second { IfOk result (λ f. IsObjectFile (Some second.now) (S.holds shelf.old) f.1.items) }
    ensures stopped { IfErr result (AreUnhad (Some name.now) (Some second.now) (files S.holds S.faults shelf.old shelf.new)) }
    ensures shelf { S.holds shelf.new ≡ S.holds shelf.old }
    ensures fetched_count { IfOk result (λ f. (file : List ℕ) → S.faults shelf.new file ≡ S.faults shelf.old file) }
    ensures stopped_count { IfErr result (λ s. (s ≡ fetch_stop.Shelf cause.Failed → ⊥) → (file : List ℕ) → S.faults shelf.new file ≡ S.faults shelf.old file) }
{
    let object = fetch_file(alloc, name, shelf)?;
    let second = fetch_file(alloc, second, shelf)?;
    Ok((object, second))
}

/// The accepted object in a file, and the bytes of a second file, or why they aren't had. Both files are had before the object is tested.
pub fn open_both<S: Shelf>(
    alloc: Global,
    name: &str,
    second: &str,
    shelf: &mut S,
) -> Result<(Loaded, Vec<u8>), OpenStop>
    ensures opened { IfOk result (λ f. AreFilesOf (Some name.now) (Some second.now) (S.holds shelf.old) (λ o bytes. (o ≡ f.0) × (bytes ≡ f.1.items))) }
    ensures stopped { IfErr result (IsUnhad (Some name.now) (Some second.now) (files S.holds S.faults shelf.old shelf.new)) }
    ensures shelf { S.holds shelf.new ≡ S.holds shelf.old }
    ensures opened_count { IfOk result (λ f. (file : List ℕ) → S.faults shelf.new file ≡ S.faults shelf.old file) }
    ensures stopped_count { IfErr result (λ s. (s ≡ open_stop.Shelf cause.Failed → ⊥) → (file : List ℕ) → S.faults shelf.new file ≡ S.faults shelf.old file) }
{
    let (object, second) = match fetch_both(alloc, name, second, shelf) {
        Ok(files) => files,
        Err(FetchStop::Shelf(why)) => return Err(OpenStop::Shelf(why)),
        Err(FetchStop::Memory) => return Err(OpenStop::Memory),
    };
    match read_object(alloc, object.as_slice()) {
        Ok(object) => Ok((object, second)),
        Err(ObjectStop::Refused { fault, tables }) => Err(OpenStop::Object { fault, tables }),
        Err(ObjectStop::Memory) => Err(OpenStop::Memory),
    }
}
