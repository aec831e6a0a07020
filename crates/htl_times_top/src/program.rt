// What the program does with its words, files and streams, and the status with which it ends.
ghost use Rattle.std.specs.Prelude.{◌≡◌, map, string_bytes, None};
ghost use Rattle.std.specs.Process.{exit_status};
ghost use Rattle.htl_adapters.specs.Words.{words_of};
ghost use Rattle.htl_open.specs.Files.{counted_files, files};
ghost use Rattle.htl_open.specs.Lines.{Tells};
ghost use Rattle.htl_times_top.specs.Program.{Ends, EndsFresh, counted, untold, written};
ghost use Rattle.htl_times_top.specs.Status.{fault_line, status_of};
ghost use Rattle.htl_times_top.specs.declared.outcome.Outcome.TheVariants.{Memory as NoMemory};

use crate::fault_line::report;
use crate::{Outcome, status, times};
use htl_adapters::folder::{Disk, Folder};
use htl_adapters::output::Output;
use htl_adapters::words::{after_name, held, lent};
use htl_base::Memory;
use htl_edge::{Shelf, Sink};
use std::alloc::Global;
use std::env::Args;
use std::io;
use std::io::{Stderr, Stdout};
use std::process::ExitCode;

/// All that the program does with its arguments. Its files and streams count no fault before, and it ends with the
/// status of what `times` answers to the words that follow its name.
pub fn ended(args: io::Result<Args>, rt: &HostRuntime) -> ExitCode
    ensures { EndsFresh (words_of args) (exit_status result) }
{
    let mut shelf = Folder::new(Disk::new(rt));
    let mut out = Output::new(rt.stdout());
    let mut err = Output::new(rt.stderr());
    let status = program(args, rt.alloc(), &mut shelf, &mut out, &mut err);
    ExitCode::from(status)
}

// The same over real files and streams, whose types say which is which.
fn program(
    args: io::Result<Args>,
    alloc: Global,
    shelf: &mut Folder<Disk<'_, HostRuntime>>,
    out: &mut Output<Stdout>,
    err: &mut Output<Stderr>,
) -> u8
    ensures { Ends (words_of args) (counted_files shelf.old.faults shelf.new.faults) (counted out.old.faults) (counted out.new.faults)
        (Tells untold untold err.old.faults err.new.faults) (untold ≡ untold) result }
{
    command(args, alloc, shelf, out, err)
}

/// Does what the arguments say, of which the first is the program's name, and answers the status of what `times`
/// answers. Where an argument isn't text, they are no words of it. Where there is no memory for them, that is told, and
/// nothing is written.
pub fn command<S: Shelf, W: Sink, E: Sink>(
    args: io::Result<Args>,
    alloc: Global,
    shelf: &mut S,
    out: &mut W,
    err: &mut E,
) -> u8
    ensures { Ends (words_of args) (files S.holds S.faults shelf.old shelf.new)
        (written W.written W.faults out.old) (written W.written W.faults out.new)
        (Tells (E.written err.old) (E.written err.new) (E.faults err.old) (E.faults err.new)) (E.written err.new ≡ E.written err.old) result }
{
    match held(alloc, args) {
        Ok(args) => perform(alloc, after_name(args.as_slice()), shelf, out, err),
        Err(Memory) => refuse(err),
    }
}

// Does what the words say.
fn perform<S: Shelf, W: Sink, E: Sink>(
    alloc: Global,
    words: &[String],
    shelf: &mut S,
    out: &mut W,
    err: &mut E,
) -> u8
    ensures { Ends (map string_bytes words.now) (files S.holds S.faults shelf.old shelf.new)
        (written W.written W.faults out.old) (written W.written W.faults out.new)
        (Tells (E.written err.old) (E.written err.new) (E.faults err.old) (E.faults err.new)) (E.written err.new ≡ E.written err.old) result }
{
    match lent(alloc, words) {
        Ok(words) => status(&times(alloc, words.as_slice(), shelf, out, err)),
        Err(Memory) => refuse(err),
    }
}

// There was no memory for the words.
fn refuse<E: Sink>(err: &mut E) -> u8
    ensures status { result ≡ status_of NoMemory }
    ensures told { Tells (E.written err.old) (E.written err.new) (E.faults err.old) (E.faults err.new) (fault_line None NoMemory) }
{
    let outcome = Outcome::Memory;
    report(err, None, &outcome);
    status(&outcome)
}
