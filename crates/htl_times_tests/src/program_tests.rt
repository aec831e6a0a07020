// The program over fakes: the status, and what each stream got.
use crate::asserts::same;
use htl_edge::Page;
use htl_samples::files::shelf_of;
use htl_samples::object_bytes::DOUBLING;
use htl_times_top::program::command;
use std::alloc::{AllocError, Global};
use std::env::Args;
use std::io;

const TIMES: &str = "time M.m.dbl worst 4 window 0 10 done 4 left 6 path 0
frame 20 paths 1 busy 4 path 0
";

fn arguments(alloc: Global, words: &[&str]) -> Result<Args, AllocError> {
    let mut args = Vec::new(alloc);
    for word in words {
        args.push(String::from_str(alloc, word)?)?;
    }
    Ok(args.into_iter())
}

// The status, and what is written and told.
type Ended = (u8, &'static str, &'static str);

// Whether the program with these arguments ends so.
fn ends(alloc: Global, args: io::Result<Args>, wanted: Ended) -> Option<bool> {
    let object = Vec::from_slice(alloc, &DOUBLING).ok()?;
    let mut shelf = shelf_of(alloc, object, Vec::new(alloc), &[])?;
    let mut out = Page::new(alloc, 100, &[]).ok()?;
    let mut err = Page::new(alloc, 100, &[]).ok()?;
    let status = command(args, alloc, &mut shelf, &mut out, &mut err);
    let (ended, written, told) = wanted;
    Some(status == ended && out.bytes() == written.as_bytes() && err.bytes() == told.as_bytes())
}

// The same of these words.
fn ends_with(alloc: Global, words: &[&str], wanted: Ended) -> Option<bool> {
    let args = arguments(alloc, words).ok()?;
    ends(alloc, Ok(args), wanted)
}

// Arguments that aren't there, and the end.
const NO_ARGUMENTS: [(io::ErrorKind, Ended); 2] = [
    (io::ErrorKind::InvalidData, (2, "", "htl-times: usage\n")),
    (io::ErrorKind::OutOfMemory, (11, "", "htl: memory\n")),
];

#[test]
fn words_are_done(rt: HostRuntime) {
    let alloc = rt.alloc();
    let told = (0, TIMES, "");
    same(&rt, ends_with(alloc, &["times", "A"], told), Some(true));
    let wrong = (2, "", "htl-times: usage\n");
    same(&rt, ends_with(alloc, &["times"], wrong), Some(true));
    for (kind, wanted) in NO_ARGUMENTS {
        same(&rt, ends(alloc, Err(kind.into()), wanted), Some(true));
    }
}
