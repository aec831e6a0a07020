// The fakes, call by call.
use crate::asserts::{holds, holds_in, same};
use htl_edge::{Drawer, Failed, LineBuffer, Page, Shelf, ShelfFault, Sink, Source, Tape, put_all};
use htl_samples::files::{is_fetched, shelf_of};
use std::alloc::Global;

// What a read with so much room answers, and what is in the buffer then.
fn read(tape: &mut Tape, room: usize) -> (Result<usize, Failed>, [u8; 3]) {
    let mut buf = [0u8; 3];
    let answer = tape.read(&mut buf[..room.min(3)]);
    (answer, buf)
}

// Reads of `abcde` by two bytes, of which the third fails.
const READS: [(usize, (Result<usize, Failed>, [u8; 3])); 6] = [
    (0, (Ok(0), [0, 0, 0])),
    (3, (Ok(2), [b'a', b'b', 0])),
    (3, (Err(Failed), [0, 0, 0])),
    (3, (Ok(2), [b'c', b'd', 0])),
    (3, (Ok(1), [b'e', 0, 0])),
    (3, (Ok(0), [0, 0, 0])),
];

#[test]
fn tape_gives_its_bytes_by_steps(rt: HostRuntime) {
    let mut tape = Tape::new(rt.alloc(), b"abcde", 2, &[3]).expect(&rt, "memory");
    for (room, wanted) in READS {
        same(&rt, read(&mut tape, room), wanted);
    }
}

// Pieces for a page of five bytes whose second write fails.
const WRITES: [(&[u8], Result<usize, Failed>); 3] = [
    (b"abc", Ok(3)),
    (b"d", Err(Failed)),
    (b"", Ok(0)),
];

#[test]
fn page_takes_what_fits(rt: HostRuntime) {
    let mut page = Page::new(rt.alloc(), 5, &[2]).expect(&rt, "memory");
    for (piece, wanted) in WRITES {
        same(&rt, page.write(piece), wanted);
    }
    holds(
        &rt,
        put_all(&mut page, b"defg") == Err(Failed) && page.bytes() == b"abcde".as_slice(),
    );
}

#[test]
fn pieces_are_put_whole(rt: HostRuntime) {
    let mut page = Page::new(rt.alloc(), 5, &[]).expect(&rt, "memory");
    holds(
        &rt,
        put_all(&mut page, b"abcde") == Ok(()) && page.bytes() == b"abcde".as_slice(),
    );
}

// Fetches of files A and B with two and three bytes, of which the fourth fails: the name, and the most bytes.
const FETCHES: [(&str, u64, Result<&[u8], ShelfFault>); 5] = [
    ("B", 3, Ok(b"345")),
    ("B", 2, Err(ShelfFault::TooLong { seen: 3 })),
    ("C", 3, Err(ShelfFault::Failed)),
    ("A", 3, Err(ShelfFault::Failed)),
    ("A", 2, Ok(b"12")),
];

// The files, where the fourth fetch fails.
fn two_files(alloc: Global) -> Option<Drawer> {
    let first = Vec::from_slice(alloc, b"12").ok()?;
    shelf_of(alloc, first, Vec::from_slice(alloc, b"345").ok()?, &[4])
}

#[test]
fn drawer_gives_files_by_name(rt: HostRuntime) {
    let alloc = rt.alloc();
    let mut shelf = two_files(alloc).expect(&rt, "memory");
    for (name, limit, wanted) in FETCHES {
        holds_in(
            &rt,
            (name, limit),
            is_fetched(shelf.fetch(alloc, name, limit), wanted),
        );
    }
}

#[test]
fn a_line_is_put_together(rt: HostRuntime) {
    let mut line = LineBuffer::new();
    line.text(b"left");
    line.clear();
    line.push(b'v');
    line.text(b" at ");
    line.number(18_446_744_073_709_551_615);
    line.push(b' ');
    line.signed(-9_223_372_036_854_775_808);
    same(
        &rt,
        line.as_bytes(),
        b"v at 18446744073709551615 -9223372036854775808".as_slice(),
    );
}
