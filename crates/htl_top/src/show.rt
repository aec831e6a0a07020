// The command `show`: the listing of an accepted object.
ghost use Rattle.std.specs.Prelude.{◌≡◌, ℕ, List, Some, Err};
ghost use Rattle.htl_edge.specs.Content.{Puts};
ghost use Rattle.htl_open.specs.Files.{files};
ghost use Rattle.htl_top.specs.Objects.{IsTextOnObject};
ghost use Rattle.htl_top.specs.Shown.{show_text};
ghost use Rattle.htl_open.specs.declared.stop.OpenStop.TheVariants as open_stop;
ghost use Rattle.htl_open.specs.declared.stop.ShelfCause.TheVariants as cause;

use crate::stop::OnObject;
use htl_console::show;
use htl_edge::{Failed, Shelf, Sink};
use htl_load::Loaded;
use htl_open::object::open;
use std::alloc::Global;

// Writes the listing of an accepted object.
fn write_listing<W: Sink>(out: &mut W, l: &Loaded) -> Result<(), Failed>
    ensures { Puts (W.written out.old) (W.written out.new) (W.faults out.old) (W.faults out.new) (show_text l.now) result }
{
    let platform = l.platform();
    show(out, platform.as_ref(), l.tables(), l.ecode(), l.schedules())
}

/// Tests the object in a file, and lists an accepted one.
pub fn show_file<S: Shelf, W: Sink>(
    alloc: Global,
    name: &str,
    shelf: &mut S,
    out: &mut W,
) -> Result<(), OnObject<Failed>>
    ensures answer { IsTextOnObject show_text (Some name.now) (files S.holds S.faults shelf.old shelf.new)
        (W.written out.old) (W.written out.new) (W.faults out.old) (W.faults out.new) result }
    ensures shelf { S.holds shelf.new ≡ S.holds shelf.old }
    ensures shelf_count { (result ≡ Err (OnObject.Open (open_stop.Shelf cause.Failed)) → ⊥) → (file : List ℕ) → S.faults shelf.new file ≡ S.faults shelf.old file }
    ensures write_count { (result ≡ Err (OnObject.Work (record {})) → ⊥) → W.faults out.new ≡ W.faults out.old }
{
    let loaded = open(alloc, name, shelf)?;
    match write_listing(out, &loaded) {
        Ok(()) => Ok(()),
        Err(failed) => Err(OnObject::Work(failed)),
    }
}
