// Whole programs over fakes, and over readers and writers in memory: the status, and what each stream got.
ghost use Rattle.std.specs.Prelude.{None};

use crate::asserts::{same, same_in};
use htl_adapters::folder::{Folder, Open};
use htl_adapters::input::Input;
use htl_adapters::output::Output;
use htl_edge::{Page, Tape};
use htl_program::program::command;
use htl_samples::files::shelf_of;
use std::alloc::{AllocError, Global};
use std::env::Args;
use std::io;

const SOURCE: &str =
    "program P { sensor int s period 10 init 0; communicator int u period 10 init 7; module M start m { mode m period 20 { } } }";

const SCRIPT: &[u8] = b"at 0\nsense s 3\nend 9\n";

const LINES: &str = "v 0 s 3\nv 0 u 7\nm 0 M m\nend 9 jobs 0 e 3 s 1\n";

// One file in memory.
#[derive(Drop)]
struct OneFile {
    name: &'static str,
    bytes: &'static [u8],
}

impl Open for OneFile {
    type File = &'static [u8];

    ghost held = { λ _ _. None };

    fn open(&self, name: &str) -> io::Result<&'static [u8]> {
        if name == self.name {
            Ok(self.bytes)
        } else {
            Err(io::ErrorKind::NotFound.into())
        }
    }
}

fn arguments(alloc: Global, words: &[&str]) -> Result<Args, AllocError> {
    let mut args = Vec::new(alloc);
    for word in words {
        args.push(String::from_str(alloc, word)?)?;
    }
    Ok(args.into_iter())
}

// The status, and what is written and told.
type Ended = (u8, &'static str, &'static str);

// Whether a program with these arguments ends so.
fn ends(alloc: Global, args: io::Result<Args>, wanted: Ended) -> Option<bool> {
    let source = Vec::from_slice(alloc, SOURCE.as_bytes()).ok()?;
    let mut shelf = shelf_of(alloc, source, Vec::new(alloc), &[])?;
    let mut input = Tape::new(alloc, SCRIPT, 7, &[]).ok()?;
    let mut out = Page::new(alloc, 100, &[]).ok()?;
    let mut err = Page::new(alloc, 100, &[]).ok()?;
    let status = command(args, alloc, &mut shelf, &mut input, &mut out, &mut err);
    let (ended, written, told) = wanted;
    Some(status == ended && out.bytes() == written.as_bytes() && err.bytes() == told.as_bytes())
}

// The same of these words.
fn ends_with(alloc: Global, words: &[&str], wanted: Ended) -> Option<bool> {
    let args = arguments(alloc, words).ok()?;
    ends(alloc, Ok(args), wanted)
}

const CALLS: [(&[&str], Ended); 4] = [
    (&["htl", "go", "A"], (0, LINES, "")),
    (&["htl", "go", "C"], (8, "", "htl: shelf failed\n")),
    (&["htl", "A"], (2, "", "htl: usage\n")),
    (&[], (2, "", "htl: usage\n")),
];

#[test]
fn words_are_done(rt: HostRuntime) {
    for (words, wanted) in CALLS {
        same_in(&rt, words, ends_with(rt.alloc(), words, wanted), Some(true));
    }
}

const NO_ARGUMENTS: [(io::ErrorKind, Ended); 2] = [
    (io::ErrorKind::InvalidData, (2, "", "htl: usage\n")),
    (io::ErrorKind::OutOfMemory, (11, "", "htl: memory\n")),
];

#[test]
fn arguments_that_are_not_there_are_told(rt: HostRuntime) {
    for (kind, wanted) in NO_ARGUMENTS {
        same(&rt, ends(rt.alloc(), Err(kind.into()), wanted), Some(true));
    }
}

// Whether a program over readers and writers in memory, with a file A, runs a file of this name so.
fn serves(alloc: Global, name: &str, wanted: Ended) -> Result<bool, AllocError> {
    let mut shelf = Folder::new(OneFile {
        name: "A",
        bytes: SOURCE.as_bytes(),
    });
    let mut input = Input::new(SCRIPT);
    let mut lines = Vec::new(alloc);
    let mut faults = Vec::new(alloc);
    let args = arguments(alloc, &["htl", "go", name])?;
    let status = {
        let mut out = Output::new(&mut lines);
        let mut err = Output::new(&mut faults);
        command(Ok(args), alloc, &mut shelf, &mut input, &mut out, &mut err)
    };
    let (ended, written, told) = wanted;
    Ok(
        status == ended
            && lines.as_slice() == written.as_bytes()
            && faults.as_slice() == told.as_bytes(),
    )
}

#[test]
fn readers_and_writers_in_memory_serve(rt: HostRuntime) {
    same(&rt, serves(rt.alloc(), "A", (0, LINES, "")), Ok(true));
    let missing = (8, "", "htl: shelf failed\n");
    same(&rt, serves(rt.alloc(), "B", missing), Ok(true));
}
