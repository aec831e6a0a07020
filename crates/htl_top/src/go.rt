// The command `go`: a source, compiled, loaded and run.
ghost use Rattle.std.specs.Prelude.{◌≡◌, ◌≤◌, ◌+◌, Err, List, Option, ℕ, Some, length};
ghost use Rattle.htl_base.specs.declared.limits.TheConstants as limit;
ghost use Rattle.htl_compile.specs.Building.{IsCompiledTo};
ghost use Rattle.htl_compile.specs.Built.{built};
ghost use Rattle.htl_console.specs.declared.shown.Shown.TheVariants as shown;
ghost use Rattle.htl_script.specs.Reading.{LosesFront};
ghost use Rattle.htl_open.specs.Files.{Files, files};
ghost use Rattle.htl_open.specs.declared.stop.FetchStop.TheVariants as fetch;
ghost use Rattle.htl_open.specs.declared.stop.ShelfCause.TheVariants as cause;
ghost use Rattle.htl_top.specs.Answers.{streams};
ghost use Rattle.htl_top.specs.Causes.{IsSource};
ghost use Rattle.htl_top.specs.Going.{IsGoing};
ghost use Rattle.htl_top.specs.Runs.{IsRun};

use crate::execute::execute;
use crate::source::fetch_source;
use crate::stop::{GoStop, RunStop};
use htl_compile::compile_source;
use htl_console::Shown;
use htl_edge::{Shelf, Sink, Source};
use htl_load::{LoadFault, load};
use std::alloc::Global;

/// Compiles the source in a file and runs its object, with the input as script.
pub fn go_file<S: Shelf, R: Source, W: Sink>(
    alloc: Global,
    name: &str,
    shelf: &mut S,
    input: &mut R,
    out: &mut W,
) -> Result<(), GoStop>
    ensures answer { IsGoing (Some name.now)
        (files S.holds S.faults shelf.old shelf.new)
        (streams R.rest R.faults W.written W.faults input.old out.old) (streams R.rest R.faults W.written W.faults input.new out.new)
        result }
    ensures taken { LosesFront (limit.MAX_SCRIPT + 256) (R.rest input.old) (R.rest input.new) }
    ensures shelf { S.holds shelf.new ≡ S.holds shelf.old }
    ensures shelf_count { (result ≡ Err (GoStop.File (fetch.Shelf cause.Failed)) → ⊥) → (file : List ℕ) → S.faults shelf.new file ≡ S.faults shelf.old file }
    ensures read_count { (result ≡ Err (GoStop.Run RunStop.Read) → ⊥) → R.faults input.new ≡ R.faults input.old }
    ensures write_count { (result ≡ Err (GoStop.Run RunStop.Write) → ⊥) → W.faults out.new ≡ W.faults out.old }
{
    match fetch_source(alloc, name, shelf) {
        Ok(bytes) => go(alloc, bytes.as_slice(), input, out),
        Err(stop) => Err(GoStop::File(stop)),
    }
}

// Compiles a source and runs its object.
fn go<R: Source, W: Sink>(
    alloc: Global,
    bytes: &[u8],
    input: &mut R,
    out: &mut W,
) -> Result<(), GoStop>
    requires { length bytes.now ≤ limit.MAX_SOURCE }
    ensures answer { (name : Option (List ℕ)) (shelf : Files) → IsSource name shelf.holds bytes.now → IsGoing name shelf
        (streams R.rest R.faults W.written W.faults input.old out.old) (streams R.rest R.faults W.written W.faults input.new out.new)
        result }
    ensures taken { LosesFront (limit.MAX_SCRIPT + 256) (R.rest input.old) (R.rest input.new) }
    ensures read_count { (result ≡ Err (GoStop.Run RunStop.Read) → ⊥) → R.faults input.new ≡ R.faults input.old }
    ensures write_count { (result ≡ Err (GoStop.Run RunStop.Write) → ⊥) → W.faults out.new ≡ W.faults out.old }
{
    match compile_source(alloc, bytes) {
        Ok(object) => match run_compiled(alloc, object.as_slice(), input, out) {
            Ok(()) => Ok(()),
            Err(stop) => Err(GoStop::Run(stop)),
        },
        Err(stop) => Err(GoStop::Source(stop)),
    }
}

// Loads the bytes of a compiled source, which are accepted, and runs the object.
fn run_compiled<R: Source, W: Sink>(
    alloc: Global,
    object: &[u8],
    input: &mut R,
    out: &mut W,
) -> Result<(), RunStop>
    requires { (source : List ℕ) × IsCompiledTo source object.now }
    ensures answer { (source : List ℕ) (compiled : IsCompiledTo source object.now) → IsRun shown.Jobs compiled.tables (built compiled.tables)
        (streams R.rest R.faults W.written W.faults input.old out.old) (streams R.rest R.faults W.written W.faults input.new out.new)
        result }
    ensures taken { LosesFront (limit.MAX_SCRIPT + 256) (R.rest input.old) (R.rest input.new) }
    ensures read_count { (result ≡ Err RunStop.Read → ⊥) → R.faults input.new ≡ R.faults input.old }
    ensures write_count { (result ≡ Err RunStop.Write → ⊥) → W.faults out.new ≡ W.faults out.old }
{
    match load(alloc, object) {
        Ok(loaded) => execute(alloc, &loaded, Shown::Jobs, input, out),
        Err(LoadFault::Refused(_)) => unreachable!(),
        Err(LoadFault::Memory) => Err(RunStop::Memory),
    }
}
