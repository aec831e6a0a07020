// What the program does with its words, files and streams, and the status with which it ends.
ghost use Rattle.std.specs.Prelude.{◌≡◌, map, string_bytes, None};
ghost use Rattle.htl_open.specs.Files.{counted_files, files};
ghost use Rattle.htl_open.specs.Lines.{Tells};
ghost use Rattle.htl_top.specs.Answers.{streams};
ghost use Rattle.htl_top.specs.Status.{fault_line, status_of};
ghost use Rattle.htl_top.specs.declared.outcome.Outcome.TheVariants.{Memory as NoMemory};
ghost use Rattle.std.specs.Process.{exit_status};
ghost use Rattle.htl_program.specs.Program.{Ends, EndsFresh, counted_streams, untold};
ghost use Rattle.htl_adapters.specs.Words.{words_of};

use htl_adapters::folder::{Disk, Folder};
use htl_adapters::input::Input;
use htl_adapters::output::Output;
use htl_adapters::words::{after_name, held, lent};
use htl_base::Memory;
use htl_edge::{Shelf, Sink, Source};
use htl_top::{Outcome, htl, report, status};
use std::alloc::Global;
use std::env::Args;
use std::io;
use std::io::{Stderr, StdinLock, Stdout};
use std::process::ExitCode;

/// All that the program does with its arguments. Its files and streams count no fault before, and it ends with the
/// status of what `htl` answers to the words that follow its name.
pub fn ended(args: io::Result<Args>, rt: &HostRuntime) -> ExitCode
    ensures { EndsFresh (words_of args) (exit_status result) }
{
    let mut shelf = Folder::new(Disk::new(rt));
    let mut input = Input::new(rt.reader());
    let mut out = Output::new(rt.stdout());
    let mut err = Output::new(rt.stderr());
    let status = program(args, rt.alloc(), &mut shelf, &mut input, &mut out, &mut err);
    ExitCode::from(status)
}

// The same over real files and streams, whose types say which is which.
fn program(
    args: io::Result<Args>,
    alloc: Global,
    shelf: &mut Folder<Disk<'_, HostRuntime>>,
    input: &mut Input<StdinLock<'_>>,
    out: &mut Output<Stdout>,
    err: &mut Output<Stderr>,
) -> u8
    ensures { Ends (words_of args) (counted_files shelf.old.faults shelf.new.faults) (counted_streams input.old.faults out.old.faults) (counted_streams input.new.faults out.new.faults)
        (Tells untold untold err.old.faults err.new.faults) (untold ≡ untold) result }
{
    command(args, alloc, shelf, input, out, err)
}

/// Does what the arguments say, of which the first is the program's name, and answers the status of what `htl`
/// answers. Where an argument isn't text, they are no command. Where there is no memory for them, that is told, and
/// nothing is read or written.
pub fn command<S: Shelf, R: Source, W: Sink, E: Sink>(
    args: io::Result<Args>,
    alloc: Global,
    shelf: &mut S,
    input: &mut R,
    out: &mut W,
    err: &mut E,
) -> u8
    ensures { Ends (words_of args) (files S.holds S.faults shelf.old shelf.new)
        (streams R.rest R.faults W.written W.faults input.old out.old) (streams R.rest R.faults W.written W.faults input.new out.new)
        (Tells (E.written err.old) (E.written err.new) (E.faults err.old) (E.faults err.new)) (E.written err.new ≡ E.written err.old) result }
{
    match held(alloc, args) {
        Ok(args) => perform(alloc, after_name(args.as_slice()), shelf, input, out, err),
        Err(Memory) => refuse(err),
    }
}

// Does what the words say.
fn perform<S: Shelf, R: Source, W: Sink, E: Sink>(
    alloc: Global,
    words: &[String],
    shelf: &mut S,
    input: &mut R,
    out: &mut W,
    err: &mut E,
) -> u8
    ensures { Ends (map string_bytes words.now) (files S.holds S.faults shelf.old shelf.new)
        (streams R.rest R.faults W.written W.faults input.old out.old) (streams R.rest R.faults W.written W.faults input.new out.new)
        (Tells (E.written err.old) (E.written err.new) (E.faults err.old) (E.faults err.new)) (E.written err.new ≡ E.written err.old) result }
{
    match lent(alloc, words) {
        Ok(words) => status(&htl(alloc, words.as_slice(), shelf, input, out, err)),
        Err(Memory) => refuse(err),
    }
}

// There was no memory for the words.
fn refuse<E: Sink>(err: &mut E) -> u8
    ensures status { result ≡ status_of NoMemory }
    ensures told { Tells (E.written err.old) (E.written err.new) (E.faults err.old) (E.faults err.new) (fault_line None NoMemory) }
{
    let outcome = Outcome::Memory;
    report(err, None, &outcome);
    status(&outcome)
}
