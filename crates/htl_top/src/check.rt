// The command `check`: what is told of an accepted object.
ghost use Rattle.std.specs.Prelude.{◌≡◌, ◌++◌, ℕ, List, Some, None, Err, codes, decimal};
ghost use Rattle.htl_edge.specs.Content.{Puts};
ghost use Rattle.htl_model.specs.Frames.{frame_limit};
ghost use Rattle.htl_open.specs.Files.{files};
ghost use Rattle.htl_top.specs.Checked.{check_text};
ghost use Rattle.htl_top.specs.Objects.{IsTextOnObject};
ghost use Rattle.htl_open.specs.declared.stop.OpenStop.TheVariants as open_stop;
ghost use Rattle.htl_open.specs.declared.stop.ShelfCause.TheVariants as cause;

use crate::positions::most_positions;
use crate::stop::OnObject;
use htl_edge::{Failed, LineBuffer, Shelf, Sink, put_all};
use htl_model::Tables;
use htl_model::frame::Frame;
use htl_open::object::open;
use std::alloc::Global;

// The line of an accepted object.
fn check_line(paths: u32, positions: usize) -> LineBuffer
    ensures { result ≡ codes "accepted selections " ++ decimal paths ++ codes " positions " ++ decimal positions ++ codes "\n" }
{
    let mut line = LineBuffer::new();
    line.text(b"accepted selections ");
    line.number(paths as u64);
    line.text(b" positions ");
    line.number(positions as u64);
    line.text(b"\n");
    line
}

// Writes how many paths there are, and the greatest number of positions of one.
fn write_check<W: Sink>(out: &mut W, t: &Tables) -> Result<(), Failed>
    requires { frame_limit t.now ≡ None }
    ensures { Puts (W.written out.old) (W.written out.new) (W.faults out.old) (W.faults out.new) (check_text t.now) result }
{
    let f = Frame::survey(t);
    let line = check_line(f.paths, most_positions(t, &f));
    put_all(out, line.as_bytes())
}

/// Tests the object in a file, and tells of an accepted one.
pub fn check_file<S: Shelf, W: Sink>(
    alloc: Global,
    name: &str,
    shelf: &mut S,
    out: &mut W,
) -> Result<(), OnObject<Failed>>
    ensures answer { IsTextOnObject (λ o. check_text o.tables) (Some name.now) (files S.holds S.faults shelf.old shelf.new)
        (W.written out.old) (W.written out.new) (W.faults out.old) (W.faults out.new) result }
    ensures shelf { S.holds shelf.new ≡ S.holds shelf.old }
    ensures shelf_count { (result ≡ Err (OnObject.Open (open_stop.Shelf cause.Failed)) → ⊥) → (file : List ℕ) → S.faults shelf.new file ≡ S.faults shelf.old file }
    ensures write_count { (result ≡ Err (OnObject.Work (record {})) → ⊥) → W.faults out.new ≡ W.faults out.old }
{
    let loaded = open(alloc, name, shelf)?;
    match write_check(out, loaded.tables()) {
        Ok(()) => Ok(()),
        Err(failed) => Err(OnObject::Work(failed)),
    }
}
