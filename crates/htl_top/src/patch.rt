// The command `patch`: an object in which a mode has the refinement that another object gives it.
ghost use Rattle.std.specs.Prelude.{◌≡◌, ℕ, List, Some, Err};
ghost use Rattle.htl_load.specs.Loading.{HasBytes};
ghost use Rattle.htl_object.specs.Ranges.{IsInRange};
ghost use Rattle.htl_open.specs.Files.{files};
ghost use Rattle.htl_open.specs.declared.stop.OpenStop.TheVariants as open_stop;
ghost use Rattle.htl_open.specs.declared.stop.ShelfCause.TheVariants as cause;
ghost use Rattle.htl_top.specs.PatchedFiles.{IsDonorTold, IsObjectPut, IsPatchOfFiles};
ghost use Rattle.htl_top.specs.declared.stop.DonorStop.TheVariants as told;
ghost use Rattle.htl_top.specs.declared.stop.PutStop.TheVariants as put;

use crate::fetch::open_both;
use crate::stop::{DonorStop, OnObject, PutStop};
use crate::words::ModeNames;
use htl_edge::{Shelf, Sink, put_all};
use htl_load::Loaded;
use htl_object::{DecodeFault, Object, decode, encode};
use htl_patch::{PatchFault, PatchStop, patch};
use std::alloc::Global;

// Writes the bytes of an accepted object. Nothing is written before all of them are there.
fn put_object<W: Sink>(alloc: Global, l: &Loaded, out: &mut W) -> Result<(), PutStop>
    ensures answer { IsObjectPut l.now (W.written out.old) (W.written out.new) (W.faults out.old) (W.faults out.new) result }
    ensures write_count { (result ≡ Err PutStop.Write → ⊥) → W.faults out.new ≡ W.faults out.old }
{
    match encode(alloc, l.object()) {
        Ok(bytes) => match put_all(out, bytes.as_slice()) {
            Ok(()) => Ok(()),
            Err(_) => Err(PutStop::Write),
        },
        Err(_) => Err(PutStop::Memory),
    }
}

// Takes the refinement of a mode over from a donor, and writes the new object.
fn patch_from<W: Sink>(
    alloc: Global,
    l: &Loaded,
    names: &ModeNames,
    donor: &Object,
    out: &mut W,
) -> Result<(), DonorStop>
    requires { IsInRange donor.now }
    ensures answer { (bytes : List ℕ) → HasBytes bytes donor.now → IsDonorTold l.now names.now.unit names.now.mode bytes
        (W.written out.old) (W.written out.new) (W.faults out.old) (W.faults out.new) result }
    ensures write_count { (result ≡ Err (DonorStop.Put put.Write) → ⊥) → W.faults out.new ≡ W.faults out.old }
{
    match patch(alloc, l, &names.unit, &names.mode, donor) {
        Ok(patched) => match put_object(alloc, &patched, out) {
            Ok(()) => Ok(()),
            Err(stop) => Err(DonorStop::Put(stop)),
        },
        Err(stop) => Err(DonorStop::Patch(stop)),
    }
}

// The same with a donor's bytes.
fn patch_with<W: Sink>(
    alloc: Global,
    l: &Loaded,
    names: &ModeNames,
    donor: &[u8],
    out: &mut W,
) -> Result<(), DonorStop>
    ensures answer { IsDonorTold l.now names.now.unit names.now.mode donor.now
        (W.written out.old) (W.written out.new) (W.faults out.old) (W.faults out.new) result }
    ensures write_count { (result ≡ Err (DonorStop.Put put.Write) → ⊥) → W.faults out.new ≡ W.faults out.old }
{
    match decode(alloc, donor) {
        Ok(donor) => patch_from(alloc, l, names, &donor, out),
        Err(DecodeFault::Malformed(bad)) => Err(DonorStop::Patch(PatchStop::Refused(
            PatchFault::Malformed(bad),
            None,
        ))),
        Err(DecodeFault::Memory) => Err(DonorStop::Patch(PatchStop::Memory)),
    }
}

/// Fetches two objects, and writes the first with the second's refinement of a mode. Both files are had before either is judged, and
/// nothing is written before all is.
pub fn patch_file<S: Shelf, W: Sink>(
    alloc: Global,
    name: &str,
    names: &ModeNames,
    donor: &str,
    shelf: &mut S,
    out: &mut W,
) -> Result<(), OnObject<DonorStop>>
    ensures answer { IsPatchOfFiles names.now.unit names.now.mode (Some name.now) (Some donor.now) (files S.holds S.faults shelf.old shelf.new)
        (W.written out.old) (W.written out.new) (W.faults out.old) (W.faults out.new) result }
    ensures shelf { S.holds shelf.new ≡ S.holds shelf.old }
    ensures shelf_count { (result ≡ Err (OnObject.Open (open_stop.Shelf cause.Failed)) → ⊥) → (file : List ℕ) → S.faults shelf.new file ≡ S.faults shelf.old file }
    ensures write_count { (result ≡ Err (OnObject.Work (told.Put put.Write)) → ⊥) → W.faults out.new ≡ W.faults out.old }
{
    let (host, donor) = open_both(alloc, name, donor, shelf)?;
    match patch_with(alloc, &host, names, donor.as_slice(), out) {
        Ok(()) => Ok(()),
        Err(stop) => Err(OnObject::Work(stop)),
    }
}
