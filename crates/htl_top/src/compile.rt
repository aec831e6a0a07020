// The command `compile`: the source that the input is, as the bytes of its object; with a platform file, of its object on the
// platform.
ghost use Rattle.std.specs.Prelude.{◌≡◌, ◌+◌, ℕ, List, Some, Err};
ghost use Rattle.htl_base.specs.declared.limits.TheConstants as limit;
ghost use Rattle.htl_script.specs.Reading.{LosesFront};
ghost use Rattle.htl_open.specs.Files.{files};
ghost use Rattle.htl_open.specs.declared.stop.FetchStop.TheVariants as fetch_stop;
ghost use Rattle.htl_open.specs.declared.stop.ShelfCause.TheVariants as cause;
ghost use Rattle.htl_top.specs.Answers.{streams};
ghost use Rattle.htl_top.specs.Compiling.{IsCompiling, IsInputCompiled};
ghost use Rattle.htl_top.specs.CompilingOn.{IsCompilingOn, IsBuiltOn, IsUnbuiltOn};
ghost use Rattle.htl_top.specs.declared.stop.CompileStop.TheVariants as stopped;
ghost use Rattle.htl_top.specs.declared.input.InputStop.TheVariants as unread;

use crate::input::read_input;
use crate::source::fetch_source;
use crate::stop::{CompileStop, CompileWithStop};
use htl_compile::{compile_source, compile_source_on};
use htl_edge::{Shelf, Sink, Source, put_all};
use std::alloc::Global;

/// Compiles the source that the input is, and writes the bytes of its object. Nothing is written before all is judged.
pub fn compile_input<R: Source, W: Sink>(
    alloc: Global,
    input: &mut R,
    out: &mut W,
) -> Result<(), CompileStop>
    ensures answer { IsCompiling
        (streams R.rest R.faults W.written W.faults input.old out.old) (streams R.rest R.faults W.written W.faults input.new out.new)
        result }
    ensures taken { LosesFront (limit.MAX_SOURCE + 4096) (R.rest input.old) (R.rest input.new) }
    ensures read_count { (result ≡ Err (CompileStop.Input unread.Read) → ⊥) → R.faults input.new ≡ R.faults input.old }
    ensures write_count { (result ≡ Err CompileStop.Write → ⊥) → W.faults out.new ≡ W.faults out.old }
{
    let bytes = match read_input(alloc, input) {
        Ok(bytes) => bytes,
        Err(stop) => return Err(CompileStop::Input(stop)),
    };
    let object = match compile_source(alloc, bytes.as_slice()) {
        Ok(object) => object,
        Err(stop) => return Err(CompileStop::Source(stop)),
    };
    match put_all(out, object.as_slice()) {
        Ok(()) => Ok(()),
        Err(_) => Err(CompileStop::Write),
    }
}

/// Fetches a platform file, compiles the source that the input is for the platform, and writes the bytes of its object. Nothing is
/// read before the file is had, and nothing is written before all is judged.
pub fn compile_for_file<S: Shelf, R: Source, W: Sink>(
    alloc: Global,
    platform: &str,
    shelf: &mut S,
    input: &mut R,
    out: &mut W,
) -> Result<(), CompileWithStop>
    ensures answer { IsCompilingOn (Some platform.now)
        (files S.holds S.faults shelf.old shelf.new)
        (streams R.rest R.faults W.written W.faults input.old out.old) (streams R.rest R.faults W.written W.faults input.new out.new)
        result }
    ensures taken { LosesFront (limit.MAX_SOURCE + 4096) (R.rest input.old) (R.rest input.new) }
    ensures shelf { S.holds shelf.new ≡ S.holds shelf.old }
    ensures shelf_count { (result ≡ Err (CompileWithStop.File (fetch_stop.Shelf cause.Failed)) → ⊥) → (file : List ℕ) → S.faults shelf.new file ≡ S.faults shelf.old file }
    ensures read_count { (result ≡ Err (CompileWithStop.Compile (stopped.Input unread.Read)) → ⊥) → R.faults input.new ≡ R.faults input.old }
    ensures write_count { (result ≡ Err (CompileWithStop.Compile stopped.Write) → ⊥) → W.faults out.new ≡ W.faults out.old }
{
    let file = match fetch_source(alloc, platform, shelf) {
        Ok(file) => file,
        Err(stop) => return Err(CompileWithStop::File(stop)),
    };
    match compile_input_on(alloc, file.as_slice(), input, out) {
        Ok(()) => Ok(()),
        Err(stop) => Err(CompileWithStop::Compile(stop)),
    }
}

// Compiles the source that the input is for the platform that a file says, and writes the bytes of its object.
fn compile_input_on<R: Source, W: Sink>(
    alloc: Global,
    platform: &[u8],
    input: &mut R,
    out: &mut W,
) -> Result<(), CompileStop>
    ensures answer { IsInputCompiled (IsBuiltOn platform.now) (IsUnbuiltOn platform.now)
        (streams R.rest R.faults W.written W.faults input.old out.old) (streams R.rest R.faults W.written W.faults input.new out.new)
        result }
    ensures taken { LosesFront (limit.MAX_SOURCE + 4096) (R.rest input.old) (R.rest input.new) }
    ensures read_count { (result ≡ Err (CompileStop.Input unread.Read) → ⊥) → R.faults input.new ≡ R.faults input.old }
    ensures write_count { (result ≡ Err CompileStop.Write → ⊥) → W.faults out.new ≡ W.faults out.old }
{
    let bytes = match read_input(alloc, input) {
        Ok(bytes) => bytes,
        Err(stop) => return Err(CompileStop::Input(stop)),
    };
    let object = match compile_source_on(alloc, bytes.as_slice(), platform) {
        Ok(object) => object,
        Err(stop) => return Err(CompileStop::Source(stop)),
    };
    match put_all(out, object.as_slice()) {
        Ok(()) => Ok(()),
        Err(_) => Err(CompileStop::Write),
    }
}
