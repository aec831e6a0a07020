// Readers and writers that fail, and files.
use crate::asserts::{holds, same};
use htl_adapters::folder::{Disk, Folder, read_up_to};
use htl_adapters::input::Input;
use htl_adapters::output::Output;
use htl_edge::{Failed, Shelf, ShelfFault, Sink, Source};
use htl_samples::files::is_fetched;
use std::alloc::Global;
use std::io::{Read, Write};
use std::{fs, io, process};

/// What a reader or a writer does at a call.
#[derive(Clone, Copy)]
enum Turn {
    Refuse,
    RefuseFlush,
    Take(usize),
}

// Does as it is told, turn by turn: it gives or takes so many bytes. Then it is at its end.
#[derive(Drop)]
struct Script {
    turns: &'static [Turn],
}

impl Script {
    fn next(&mut self) -> Turn {
        match self.turns.split_first() {
            Some((turn, rest)) => {
                self.turns = rest;
                *turn
            }
            None => Turn::Take(0),
        }
    }
}

impl Read for Script {
    fn read(&mut self, buf: &mut [u8]) -> io::Result<usize> {
        match self.next() {
            Turn::Take(count) => {
                let count = count.min(buf.len());
                buf[..count].fill(b'x');
                Ok(count)
            }
            _ => Err(io::ErrorKind::Other.into()),
        }
    }
}

impl Write for Script {
    fn write(&mut self, buf: &[u8]) -> io::Result<usize> {
        match self.next() {
            Turn::Take(count) => Ok(count.min(buf.len())),
            _ => Err(io::ErrorKind::Other.into()),
        }
    }

    fn flush(&mut self) -> io::Result<()> {
        match self.turns.first() {
            Some(Turn::RefuseFlush) => Err(io::ErrorKind::Other.into()),
            _ => Ok(()),
        }
    }
}

// Reads with so much room, what they answer, and what is in the buffer then.
const READS: [(usize, Result<usize, Failed>, [u8; 4]); 5] = [
    (0, Ok(0), [0; 4]),
    (4, Ok(2), [b'x', b'x', 0, 0]),
    (4, Err(Failed), [0; 4]),
    (4, Ok(4), [b'x'; 4]),
    (4, Ok(0), [0; 4]),
];

#[test]
fn input_reads_and_fails(rt: HostRuntime) {
    let mut input = Input::new(Script {
        turns: &[Turn::Take(2), Turn::Refuse, Turn::Take(9)],
    });
    for (room, wanted, bytes) in READS {
        let mut buf = [0u8; 4];
        let answer = input.read(&mut buf[..room.min(4)]);
        holds(&rt, answer == wanted && buf == bytes);
    }
}

// Pieces that are written, and what is answered.
const WRITES: [(&[u8], Result<usize, Failed>); 7] = [
    (b"", Ok(0)),
    (b"line", Ok(2)),
    // refused
    (b"line", Err(Failed)),
    // nothing taken
    (b"line", Err(Failed)),
    // not flushed
    (b"line", Err(Failed)),
    // refused
    (b"line", Err(Failed)),
    (b"line", Ok(4)),
];

#[test]
fn output_writes_and_fails(rt: HostRuntime) {
    let mut out = Output::new(Script {
        turns: &[
            Turn::Take(2),
            Turn::Refuse,
            Turn::Take(0),
            Turn::Take(2),
            Turn::RefuseFlush,
            Turn::Take(9),
        ],
    });
    for (piece, wanted) in WRITES {
        same(&rt, out.write(piece), wanted);
    }
}

// Whether a read that fails counts, and one that gets to the end doesn't.
fn counts_faults(alloc: Global) -> bool {
    let mut faults = 0;
    let mut file = Script {
        turns: &[Turn::Take(3), Turn::Refuse, Turn::Take(1)],
    };
    let cut = read_up_to(alloc, &mut file, 5, &mut faults);
    let counted = faults;
    let rest = read_up_to(alloc, &mut file, 5, &mut faults);
    is_fetched(cut, Err(ShelfFault::Failed))
        && counted == 1
        && is_fetched(rest, Ok(b"x"))
        && faults == 1
}

// Whether a file of five bytes is fetched, is too long for four, and fails once it is gone.
fn fetches(rt: &HostRuntime, path: &str) -> io::Result<[bool; 3]> {
    let alloc = rt.alloc();
    fs::write(rt, path, "12345")?;
    let mut folder = Folder::new(Disk::new(rt));
    let held = is_fetched(folder.fetch(alloc, path, 5), Ok(b"12345"));
    let long = ShelfFault::TooLong { seen: 5 };
    let cut = is_fetched(folder.fetch(alloc, path, 4), Err(long));
    fs::remove_file(rt, path)?;
    let gone = is_fetched(folder.fetch(alloc, path, 5), Err(ShelfFault::Failed));
    Ok([held, cut, gone])
}

#[test]
fn files_are_read_up_to_a_limit(rt: HostRuntime) {
    // A file of this process alone.
    let name = format!(in rt.alloc(); "/tmp/htl_adapter_test_{}", process::id(rt.process())).expect(
        &rt, "memory",
    );
    same(&rt, fetches(&rt, name.as_str()).ok(), Some([true; 3]));
    holds(&rt, counts_faults(rt.alloc()));
}
