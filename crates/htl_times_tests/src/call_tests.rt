// `times` over objects in memory.
ghost use Rattle.std.specs.Prelude.{None};

use crate::asserts::same;
use crate::calls::{Faults, NO_FAULTS, Row, first_wrong, is_answered_on};
use crate::objects::FOUR_PATHS;
use htl_edge::{Shelf, ShelfFault};
use htl_samples::object_bytes::{DOUBLING, NO_MODULE, REFINED, TWO_JOBS, TWO_MODES};
use std::alloc::Global;

const TWO_JOBS_TIMES: &str = "time M.m.a worst 7 window 0 10 done 10 left 0 path 0
time M.m.b worst 3 window 2 6 done 5 left 1 path 0
frame 10 paths 1 busy 10 path 0
";

// The object, and its times.
const TOLD: &[Row] = &[
    (
        &["A"],
        &NO_MODULE,
        NO_FAULTS,
        (0, "frame 0 paths 0 busy 0 path 0\n", ""),
    ),
    // b interrupts a
    (&["A"], &TWO_JOBS, NO_FAULTS, (0, TWO_JOBS_TIMES, "")),
    (
        &["A"],
        &TWO_MODES,
        NO_FAULTS,
        (
            0,
            "time M.one.f worst 3 window 0 10 done 3 left 7 path 0
time M.two.h worst 4 window 0 10 done 4 left 6 path 1
frame 10 paths 2 busy 4 path 1
",
            "",
        ),
    ),
    // f and h stand in the place of plan
    (
        &["A"],
        &REFINED,
        NO_FAULTS,
        (
            0,
            "time M.m.plan worst 4 window 0 10 done 4 left 6 path 0
time N.one.f worst 3 window 0 10 within M.m.plan
time N.two.h worst 4 window 0 10 within M.m.plan
frame 10 paths 2 busy 4 path 0
",
            "",
        ),
    ),
    // in its second round a waits for b
    (
        &["A"],
        &FOUR_PATHS,
        NO_FAULTS,
        (
            0,
            "time F.m.a worst 3 window 0 10 done 5 left 5 path 0
time G.m.b worst 9 window 0 20 done 12 left 8 path 0
frame 20 paths 4 busy 15 path 0
",
            "",
        ),
    ),
];

#[test]
fn latest_finishes_are_told(rt: HostRuntime) {
    same(&rt, first_wrong(rt.alloc(), TOLD), None);
}

// Words, objects and faults, and what is told of them.
const REFUSED: &[Row] = &[
    (&[], &DOUBLING, NO_FAULTS, (2, "", "htl-times: usage\n")),
    (
        &["A", "B"],
        &DOUBLING,
        NO_FAULTS,
        (2, "", "htl-times: usage\n"),
    ),
    // no such file
    (&["C"], &DOUBLING, NO_FAULTS, (8, "", "htl: shelf failed\n")),
    // the read of the file fails
    (
        &["A"],
        &DOUBLING,
        Faults {
            fetch: 1,
            ..NO_FAULTS
        },
        (8, "", "htl: shelf failed\n"),
    ),
    // no object
    (
        &["B"],
        &DOUBLING,
        NO_FAULTS,
        (6, "", "htl: object malformed short 0\n"),
    ),
    // the first write fails
    (
        &["A"],
        &TWO_JOBS,
        Faults {
            write: 1,
            ..NO_FAULTS
        },
        (10, "", "htl: write\n"),
    ),
    // that of the second line fails
    (
        &["A"],
        &TWO_JOBS,
        Faults {
            write: 3,
            ..NO_FAULTS
        },
        (
            10,
            "time M.m.a worst 7 window 0 10 done 10 left 0 path 0\n",
            "htl: write\n",
        ),
    ),
    // the output is full
    (
        &["A"],
        &TWO_JOBS,
        Faults {
            room: 11,
            ..NO_FAULTS
        },
        (10, "time M.m.a ", "htl: write\n"),
    ),
];

#[test]
fn refusals_are_told(rt: HostRuntime) {
    same(&rt, first_wrong(rt.alloc(), REFUSED), None);
}

// A shelf with no memory for any file.
#[derive(Drop)]
struct NoMemory;

impl Shelf for NoMemory {
    ghost holds = { λ _. None };

    ghost faults = { λ _ _. 0 };

    fn fetch(&mut self, _alloc: Global, _name: &str, _limit: u64) -> Result<Vec<u8>, ShelfFault> {
        Err(ShelfFault::Memory)
    }
}

#[test]
fn want_of_memory_is_told(rt: HostRuntime) {
    let answer = (11, "", "htl: memory\n");
    let alloc = rt.alloc();
    same(
        &rt,
        is_answered_on(alloc, &["A"], &mut NoMemory, NO_FAULTS, answer),
        Some(true),
    );
}
