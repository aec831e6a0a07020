// Files as accepted objects.
ghost use Rattle.std.specs.Prelude.{◌≡◌, ℕ, List, IfOk, IfErr, Some};
ghost use Rattle.htl_load.specs.Faults.{IsRefused};
ghost use Rattle.htl_object.specs.Accepted.{IsAccepted};
ghost use Rattle.htl_object.specs.Ranges.{IsInRange};
ghost use Rattle.htl_open.specs.Files.{files};
ghost use Rattle.htl_open.specs.Objects.{IsObjectRead, IsAcceptedFile};
ghost use Rattle.htl_open.specs.Stops.{IsUnopened};
ghost use Rattle.htl_open.specs.declared.stop.OpenStop.TheVariants as open_stop;
ghost use Rattle.htl_open.specs.declared.stop.ShelfCause.TheVariants as cause;

use crate::fetch::fetch_file;
use crate::{FetchStop, OpenStop};
use htl_edge::Shelf;
use htl_load::{Loaded, ObjectFault, formed, scheduled, spelled};
use htl_model::Tables;
use htl_object::{DecodeFault, Object, decode};
use std::alloc::Global;

/// Why bytes aren't loaded as an accepted object.
#[derive(Drop)]
pub enum ObjectStop {
    /// No accepted object has these bytes.
    Refused {
        /// The first fault.
        fault: ObjectFault,
        /// The tables of the object, where there is one.
        tables: Option<Tables>,
    },
    /// No memory was left.
    Memory,
}

// The three tests, one after the other; a refusal hands the object back.
fn tested(o: Object) -> Result<Loaded, (Object, ObjectFault)>
    requires { IsInRange o }
    ensures accepted { IfOk result (λ l. (l ≡ o) × IsAccepted o) }
    ensures refused { IfErr result (λ e. (e.0 ≡ o) × IsRefused o e.1) }
{
    let formed = match formed(o) {
        Ok(formed) => formed,
        Err(refusal) => return Err(refusal),
    };
    let spelled = match spelled(formed) {
        Ok(spelled) => spelled,
        Err(refusal) => return Err(refusal),
    };
    match scheduled(spelled) {
        Ok(loaded) => Ok(loaded),
        Err(refusal) => Err(refusal),
    }
}

/// The accepted object that has these bytes, or why there is none. Memory may come in place of either.
pub fn read_object(alloc: Global, bytes: &[u8]) -> Result<Loaded, ObjectStop>
    ensures { IsObjectRead bytes.now result }
{
    let o = match decode(alloc, bytes) {
        Ok(o) => o,
        Err(DecodeFault::Malformed(bad)) => {
            return Err(ObjectStop::Refused {
                fault: ObjectFault::Malformed(bad),
                tables: None,
            });
        }
        Err(DecodeFault::Memory) => return Err(ObjectStop::Memory),
    };
    match tested(o) {
        Ok(loaded) => Ok(loaded),
        Err((object, fault)) => Err(ObjectStop::Refused {
            fault,
            tables: Some(object.tables),
        }),
    }
}

/// The accepted object in a file of at most 16,777,216 bytes, or why there is none. Memory may come in place of any answer.
pub fn open<S: Shelf>(alloc: Global, name: &str, shelf: &mut S) -> Result<Loaded, OpenStop>
    ensures opened { IfOk result (λ l. IsAcceptedFile (Some name.now) (S.holds shelf.old) (λ o. o ≡ l)) }
    ensures stopped { IfErr result (IsUnopened (Some name.now) (files S.holds S.faults shelf.old shelf.new)) }
    ensures shelf { S.holds shelf.new ≡ S.holds shelf.old }
    ensures opened_count { IfOk result (λ l. (file : List ℕ) → S.faults shelf.new file ≡ S.faults shelf.old file) }
    ensures stopped_count { IfErr result (λ s. (s ≡ open_stop.Shelf cause.Failed → ⊥) → (file : List ℕ) → S.faults shelf.new file ≡ S.faults shelf.old file) }
{
    let bytes = match fetch_file(alloc, name, shelf) {
        Ok(bytes) => bytes,
        Err(FetchStop::Shelf(why)) => return Err(OpenStop::Shelf(why)),
        Err(FetchStop::Memory) => return Err(OpenStop::Memory),
    };
    match read_object(alloc, bytes.as_slice()) {
        Ok(loaded) => Ok(loaded),
        Err(ObjectStop::Refused { fault, tables }) => Err(OpenStop::Object { fault, tables }),
        Err(ObjectStop::Memory) => Err(OpenStop::Memory),
    }
}
