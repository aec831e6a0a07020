// `run`, `jobs` and `code` over objects in memory.
use crate::asserts::same;
use crate::calls::{Content, EMPTY, Group, Place, Row, Streams, Tried, first_other, first_wrong};
use crate::commands::lines_tests::{DIVIDED, DIVIDED_VALUES, IDLED, INSTRUCTIONS, JUMPED};
use htl_samples::object_bytes::{DOUBLING, IDLING, NO_MODULE, TWO_JOBS};
use htl_samples::samples::{DOUBLED_BEFORE, READINGS};

// The values and modes of DOUBLING over READINGS.
const VALUES: &str = "v 0 s 3
v 0 u 7
m 0 M m
v 10 s 5
v 10 u 6
end 10 jobs 1 e 10 s 2
";

// E code and S code for DOUBLING: the trigger of the read block is set to a jump to it, which stands last.
const JUMPING: [u8; 77] = [
    0, 0, 0, 12, 8, 0, 0, 4, 0, 0, 0, 10, 1, 0, 0, 0, 5, 4, 0, 0, 0, 0, 3, 0, 0, 0, 11, 4, 0, 0, 0,
    20, 2, 0, 0, 0, 10, 11, 1, 0, 0, 0, 0, 11, 2, 0, 0, 0, 0, 3, 0, 0, 11, 6, 0, 0, 0, 1, 6, 0, 0,
    0, 7, 0, 1, 0, 0, 0, 2, 1, 0, 0, 0, 0, 0, 4, 3,
];

// S code for TWO_JOBS that dispatches the first job twice before the second.
const DIVIDING: [u8; 33] = [
    0, 0, 0, 5, 1, 0, 0, 0, 0, 0, 1, 1, 0, 0, 0, 0, 0, 2, 1, 0, 1, 0, 0, 0, 5, 1, 0, 0, 0, 0, 0,
    10, 3,
];

const RUN: &[Row] = &[
    (
        Content::Changed(&NO_MODULE, 0, &[], true),
        EMPTY,
        "end 0\n",
        0,
        Content::Text("v 0 u 7\nend 0 jobs 0 e 0 s 0\n"),
        "",
    ),
    (
        Content::Changed(&DOUBLING, 0, &[], true),
        EMPTY,
        READINGS,
        0,
        Content::Text(VALUES),
        "",
    ),
    (
        Content::Changed(&TWO_JOBS, 305, &DIVIDING, false),
        EMPTY,
        "end 10\n",
        0,
        Content::Text(DIVIDED_VALUES),
        "",
    ),
];

const SHOWN_JOBS: &[Row] = &[
    (
        Content::Changed(&DOUBLING, 138, &JUMPING, false),
        EMPTY,
        READINGS,
        0,
        Content::Text(JUMPED),
        "",
    ),
    (
        Content::Changed(&DOUBLING, 198, &IDLING, false),
        EMPTY,
        READINGS,
        0,
        Content::Text(IDLED),
        "",
    ),
    (
        Content::Changed(&TWO_JOBS, 305, &DIVIDING, false),
        EMPTY,
        "end 10\n",
        0,
        Content::Text(DIVIDED),
        "",
    ),
];

const SHOWN_CODE: &[Row] = &[(
    Content::Changed(&DOUBLING, 0, &[], true),
    EMPTY,
    READINGS,
    0,
    Content::Text(INSTRUCTIONS),
    "",
)];

// Files that aren't accepted objects, one of each kind. The script isn't read: its first read would fail.
const REFUSED: &[Row] = &[
    (
        Content::Changed(&[], 0, &[], true),
        EMPTY,
        "end 0\n",
        6,
        EMPTY,
        "htl: object malformed short 0\n",
    ),
    (
        Content::Changed(&NO_MODULE, 42, &[0], true),
        EMPTY,
        "end 0\n",
        6,
        EMPTY,
        "htl: object malformed trailing 42\n",
    ),
    (
        Content::Changed(&DOUBLING, 73, &[0, 0, 0, 21], true),
        EMPTY,
        "end 0\n",
        6,
        EMPTY,
        "htl: object ill-formed 7 at M.m.dbl have 21 need 20\n",
    ),
    (
        Content::Changed(&DOUBLING, 125, &[5], true),
        EMPTY,
        "end 0\n",
        6,
        EMPTY,
        "htl: object function 0\n",
    ),
    (
        Content::Changed(&DOUBLING, 181, &[9], true),
        EMPTY,
        "end 0\n",
        6,
        EMPTY,
        "htl: object ecode 6 action\n",
    ),
    (
        Content::Changed(&TWO_JOBS, 326, &[0, 0, 0, 9], true),
        EMPTY,
        "end 0\n",
        6,
        EMPTY,
        "htl: object schedule 0 unfinished 0 left 1\n",
    ),
];

const TOO_LONG: &[Row] = &[(
    Content::Filled(0, 16_777_217),
    EMPTY,
    "end 0\n",
    8,
    EMPTY,
    "htl: shelf too-long 16777217\n",
)];

// Scripts with a fault: what `run` writes.
const FAULTY_VALUES: &[Row] = &[
    (
        Content::Changed(&DOUBLING, 0, &[], true),
        EMPTY,
        "",
        7,
        Content::Text(""),
        "htl: script 1 no-end\n",
    ),
    (
        Content::Changed(&DOUBLING, 0, &[], true),
        EMPTY,
        "at 0\nsense u 3\n",
        7,
        Content::Text(""),
        "htl: script 2 unknown\n",
    ),
    (
        Content::Changed(&DOUBLING, 0, &[], true),
        EMPTY,
        "at 0\nsense s 3\nat 10\ntook M.m.dbl 5\n",
        7,
        Content::Text("v 0 s 3\nv 0 u 7\nm 0 M m\n"),
        "htl: script 4 overrun 5 4\n",
    ),
    (
        Content::Changed(&DOUBLING, 0, &[], true),
        EMPTY,
        "at 0\nsense s 3\nend 5\nend 5\n",
        7,
        Content::Text("v 0 s 3\nv 0 u 7\nm 0 M m\n"),
        "htl: script 4 after\n",
    ),
];

// What `jobs` writes.
const FAULTY_JOBS: &[Row] = &[
    (
        Content::Changed(&DOUBLING, 0, &[], true),
        EMPTY,
        "",
        7,
        Content::Text(""),
        "htl: script 1 no-end\n",
    ),
    (
        Content::Changed(&DOUBLING, 0, &[], true),
        EMPTY,
        "at 0\nsense u 3\n",
        7,
        Content::Text(""),
        "htl: script 2 unknown\n",
    ),
    (
        Content::Changed(&DOUBLING, 0, &[], true),
        EMPTY,
        "at 0\nsense s 3\nat 10\ntook M.m.dbl 5\n",
        7,
        Content::Text(DOUBLED_BEFORE),
        "htl: script 4 overrun 5 4\n",
    ),
    (
        Content::Changed(&DOUBLING, 0, &[], true),
        EMPTY,
        "at 0\nsense s 3\nend 5\nend 5\n",
        7,
        Content::Text(DOUBLED_BEFORE),
        "htl: script 4 after\n",
    ),
];

const GROUPS: &[Group] = &[
    Group {
        name: "objects are run",
        words: &["run", "A"],
        place: Place::Files,
        streams: Streams::Usual,
        rows: RUN,
    },
    Group {
        name: "objects' jobs are shown",
        words: &["jobs", "A"],
        place: Place::Files,
        streams: Streams::Usual,
        rows: SHOWN_JOBS,
    },
    Group {
        name: "objects' code is shown",
        words: &["code", "A"],
        place: Place::Files,
        streams: Streams::Usual,
        rows: SHOWN_CODE,
    },
    Group {
        name: "other objects are not run",
        words: &["run", "A"],
        place: Place::Files,
        streams: Streams::Fails(1, 0),
        rows: REFUSED,
    },
    Group {
        name: "other objects' jobs are not shown",
        words: &["jobs", "A"],
        place: Place::Files,
        streams: Streams::Fails(1, 0),
        rows: REFUSED,
    },
    Group {
        name: "a file is too long for an object",
        words: &["run", "A"],
        place: Place::Files,
        streams: Streams::Usual,
        rows: TOO_LONG,
    },
    Group {
        name: "scripts of objects are refused by `run`",
        words: &["run", "A"],
        place: Place::Files,
        streams: Streams::Usual,
        rows: FAULTY_VALUES,
    },
    Group {
        name: "scripts of objects are refused by `jobs`",
        words: &["jobs", "A"],
        place: Place::Files,
        streams: Streams::Usual,
        rows: FAULTY_JOBS,
    },
];

// Each write of `run` fails once, and each read.
const FAILING: &[(Streams, u8, Content, &str)] = &[
    (
        Streams::Fails(0, 1),
        10,
        Content::Lines(VALUES, 0),
        "htl: write\n",
    ),
    (
        Streams::Fails(0, 2),
        10,
        Content::Lines(VALUES, 1),
        "htl: write\n",
    ),
    (
        Streams::Fails(0, 3),
        10,
        Content::Lines(VALUES, 2),
        "htl: write\n",
    ),
    (
        Streams::Fails(0, 4),
        10,
        Content::Lines(VALUES, 3),
        "htl: write\n",
    ),
    (
        Streams::Fails(0, 5),
        10,
        Content::Lines(VALUES, 4),
        "htl: write\n",
    ),
    (
        Streams::Fails(0, 6),
        10,
        Content::Lines(VALUES, 5),
        "htl: write\n",
    ),
    (
        Streams::Fails(1, 0),
        9,
        Content::Lines(VALUES, 0),
        "htl: read\n",
    ),
    (
        Streams::Fails(2, 0),
        9,
        Content::Lines(VALUES, 0),
        "htl: read\n",
    ),
    (
        Streams::Fails(3, 0),
        9,
        Content::Lines(VALUES, 0),
        "htl: read\n",
    ),
    (
        Streams::Fails(4, 0),
        9,
        Content::Lines(VALUES, 3),
        "htl: read\n",
    ),
    (
        Streams::Fails(5, 0),
        9,
        Content::Lines(VALUES, 3),
        "htl: read\n",
    ),
    (
        Streams::Fails(6, 0),
        9,
        Content::Lines(VALUES, 3),
        "htl: read\n",
    ),
    (
        Streams::Fails(7, 0),
        9,
        Content::Lines(VALUES, 5),
        "htl: read\n",
    ),
];

const TRIED: &[Tried] = &[Tried {
    name: "failing streams are told of runs",
    words: &["run", "A"],
    place: Place::Files,
    contents: (Content::Changed(&DOUBLING, 0, &[], true), EMPTY),
    script: READINGS,
    rows: FAILING,
}];

#[test]
fn calls_are_answered(rt: HostRuntime) {
    same(&rt, first_wrong(rt.alloc(), GROUPS), None);
    same(&rt, first_other(rt.alloc(), TRIED), None);
}
