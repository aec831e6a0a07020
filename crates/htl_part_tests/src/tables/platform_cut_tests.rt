// Platform files that are cut.
use crate::asserts::holds_in;
use crate::tables::platform_file_tests::tables;
use htl_model::Tables;
use htl_platform::{PlatformFault, PlatformStop, read_platform};
use std::alloc::Global;

const FILE: &[u8] = b"name = \"fast\"\n[worst]\n\"M.a\" = 6\n\"M.b\" = 2\n";

// What a file is read as: the worst cases of the two tasks on the platform `fast`, or a fault.
type Reading = Result<[u32; 2], PlatformFault>;

// How the first bytes of the file are to be read. No end of a line, of the table's head or of a number is cut; nothing is no file.
fn wanted(length: usize) -> Reading {
    match length {
        0 => Err(PlatformFault::Shape { entry: 0 }),
        13 | 14 | 21 | 22 => Ok([7, 3]),
        31 | 32 => Ok([6, 3]),
        41 | 42 => Ok([6, 2]),
        _ => Err(PlatformFault::Text),
    }
}

// Whether these bytes are read so.
fn is_read(alloc: Global, t: &Tables, bytes: &[u8], reading: Reading) -> bool {
    match (read_platform(alloc, bytes, t), reading) {
        (Ok(platform), Ok(worst)) => {
            platform.name.as_bytes() == b"fast".as_slice()
                && platform.worst.as_slice() == worst.as_slice()
        }
        (Err(stop), Err(fault)) => stop == PlatformStop::Refused(fault),
        _ => false,
    }
}

#[test]
fn a_cut_file_gives_no_other_worst_case(rt: HostRuntime) {
    let alloc = rt.alloc();
    let t = tables(alloc).expect(&rt, "tables");
    for n in 0..=FILE.len() {
        holds_in(&rt, n, is_read(alloc, &t, &FILE[..n], wanted(n)));
    }
}
