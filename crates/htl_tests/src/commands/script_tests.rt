// Scripts that `go` refuses, and streams that fail.
use crate::asserts::same;
use crate::calls::{Content, EMPTY, Group, Place, Row, Streams, Tried, first_other, first_wrong};
use htl_samples::samples::{
    DOUBLED, DOUBLED_BEFORE, DOUBLING, EMPTY_MODE, READINGS, SOMETIMES, TWO_MODES,
};

// The lines of EMPTY_MODE before its sensor changes, and until then.
const STARTED: &str = "v 0 s 3\nv 0 u 7\nm 0 M m\n";

const CHANGED: &str = "v 0 s 3\nv 0 u 7\nm 0 M m\nv 10 s 5\n";

// All lines of DOUBLING over READINGS but the totals.
const DOUBLED_OPEN: &str = "v 0 s 3
v 0 u 7
m 0 M m
j 0 4 M.m.dbl
d 4 M.m.dbl
v 10 s 5
v 10 u 6
";

// A source, a script with a fault, what is told, and what is written: the lines of all instants before the last
// reading, or behind an `end` all lines but the totals.
const REFUSED: &[Row] = &[
    (
        Content::Text(EMPTY_MODE),
        EMPTY,
        "",
        7,
        Content::Text(""),
        "htl: script 1 no-end\n",
    ),
    (
        Content::Text(EMPTY_MODE),
        EMPTY,
        "at 01\nend 20\n",
        7,
        Content::Text(""),
        "htl: script 1 form\n",
    ),
    (
        Content::Text(EMPTY_MODE),
        EMPTY,
        "at 0\nat 0\nend 20\n",
        7,
        Content::Text(""),
        "htl: script 2 order\n",
    ),
    (
        Content::Text(EMPTY_MODE),
        EMPTY,
        "at 0\nsense s 3\nat 1\nsense u 3\nend 20\n",
        7,
        Content::Text(STARTED),
        "htl: script 4 unknown\n",
    ),
    (
        Content::Text(EMPTY_MODE),
        EMPTY,
        "at 0\nsense s 3\nat 10\nsense s 5\n",
        7,
        Content::Text(STARTED),
        "htl: script 5 no-end\n",
    ),
    (
        Content::Text(EMPTY_MODE),
        EMPTY,
        "at 0\nsense s 3\nat 10\nsense s 5\nat 11\nend 1000000001\n",
        7,
        Content::Text(CHANGED),
        "htl: script 6 range\n",
    ),
    (
        Content::Text(EMPTY_MODE),
        EMPTY,
        "at 0\nsense s 3\nat 10\nsense s 5\nend 9\n",
        7,
        Content::Text(STARTED),
        "htl: script 5 order\n",
    ),
    (
        Content::Text(EMPTY_MODE),
        EMPTY,
        "at 0\nsense s 3\nat 10\nsense s 5\nend 20\nx",
        7,
        Content::Text(CHANGED),
        "htl: script 6 after\n",
    ),
    // a job that takes more than its worst case
    (
        Content::Text(DOUBLING),
        EMPTY,
        "at 0\nsense s 3\nat 10\ntook M.m.dbl 5\n",
        7,
        Content::Text(DOUBLED_BEFORE),
        "htl: script 4 overrun 5 4\n",
    ),
    // or no time
    (
        Content::Text(DOUBLING),
        EMPTY,
        "at 0\nsense s 3\nat 10\ntook M.m.dbl 0\nend 10\n",
        7,
        Content::Text(DOUBLED_BEFORE),
        "htl: script 4 range\n",
    ),
    (
        Content::Text(DOUBLING),
        EMPTY,
        "at 0\ntook M.m.dbl 9223372036854775808\nend 10\n",
        7,
        Content::Text(""),
        "htl: script 2 range\n",
    ),
    // no invocation, one of another mode, and an abstract one
    (
        Content::Text(DOUBLING),
        EMPTY,
        "at 0\ntook M.m.half 1\nend 10\n",
        7,
        Content::Text(""),
        "htl: script 2 unknown\n",
    ),
    (
        Content::Text(TWO_MODES),
        EMPTY,
        "at 0\ntook M.two.f 1\nend 10\n",
        7,
        Content::Text(""),
        "htl: script 2 unknown\n",
    ),
    (
        Content::Text(SOMETIMES),
        EMPTY,
        "at 0\ntook M.m.plan 1\nend 10\n",
        7,
        Content::Text(""),
        "htl: script 2 unknown\n",
    ),
    // before the first reading
    (
        Content::Text(DOUBLING),
        EMPTY,
        "took M.m.dbl 1\nat 0\nend 10\n",
        7,
        Content::Text(""),
        "htl: script 1 order\n",
    ),
    // no end
    (
        Content::Text(DOUBLING),
        EMPTY,
        "at 0\nsense s 3\nat 10\nsense s 5\n",
        7,
        Content::Text(DOUBLED_BEFORE),
        "htl: script 5 no-end\n",
    ),
    // behind the end
    (
        Content::Text(DOUBLING),
        EMPTY,
        "at 0\nsense s 3\nat 10\nsense s 5\nend 10\nend 10\n",
        7,
        Content::Text(DOUBLED_OPEN),
        "htl: script 6 after\n",
    ),
    (
        Content::Text(DOUBLING),
        EMPTY,
        "at 0\nsense s 3\nend 5\n# x\n\nat 6\n",
        7,
        Content::Text(DOUBLED_BEFORE),
        "htl: script 6 after\n",
    ),
];

const GROUPS: &[Group] = &[Group {
    name: "scripts are refused",
    words: &["go", "A"],
    place: Place::Files,
    streams: Streams::Usual,
    rows: REFUSED,
}];

// Each write fails once, and each read.
const FAILING: &[(Streams, u8, Content, &str)] = &[
    (
        Streams::Fails(0, 1),
        10,
        Content::Lines(DOUBLED, 0),
        "htl: write\n",
    ),
    (
        Streams::Fails(0, 2),
        10,
        Content::Lines(DOUBLED, 1),
        "htl: write\n",
    ),
    (
        Streams::Fails(0, 3),
        10,
        Content::Lines(DOUBLED, 2),
        "htl: write\n",
    ),
    (
        Streams::Fails(0, 4),
        10,
        Content::Lines(DOUBLED, 3),
        "htl: write\n",
    ),
    (
        Streams::Fails(0, 5),
        10,
        Content::Lines(DOUBLED, 4),
        "htl: write\n",
    ),
    (
        Streams::Fails(0, 6),
        10,
        Content::Lines(DOUBLED, 5),
        "htl: write\n",
    ),
    (
        Streams::Fails(0, 7),
        10,
        Content::Lines(DOUBLED, 6),
        "htl: write\n",
    ),
    (
        Streams::Fails(0, 8),
        10,
        Content::Lines(DOUBLED, 7),
        "htl: write\n",
    ),
    // seven reads of at most seven bytes: the third gives the second reading, the sixth the end of the run, the last no more
    (
        Streams::Fails(1, 0),
        9,
        Content::Lines(DOUBLED, 0),
        "htl: read\n",
    ),
    (
        Streams::Fails(2, 0),
        9,
        Content::Lines(DOUBLED, 0),
        "htl: read\n",
    ),
    (
        Streams::Fails(3, 0),
        9,
        Content::Lines(DOUBLED, 0),
        "htl: read\n",
    ),
    (
        Streams::Fails(4, 0),
        9,
        Content::Lines(DOUBLED, 5),
        "htl: read\n",
    ),
    (
        Streams::Fails(5, 0),
        9,
        Content::Lines(DOUBLED, 5),
        "htl: read\n",
    ),
    (
        Streams::Fails(6, 0),
        9,
        Content::Lines(DOUBLED, 5),
        "htl: read\n",
    ),
    (
        Streams::Fails(7, 0),
        9,
        Content::Lines(DOUBLED, 7),
        "htl: read\n",
    ),
    // in the middle of a line
    (
        Streams::Room(11),
        10,
        Content::Text("v 0 s 3\nv 0"),
        "htl: write\n",
    ),
];

// Each write before the end fails once, where a script has no end.
const FAILING_OPEN: &[(Streams, u8, Content, &str)] = &[
    (
        Streams::Fails(0, 1),
        10,
        Content::Lines(DOUBLED, 0),
        "htl: write\n",
    ),
    (
        Streams::Fails(0, 2),
        10,
        Content::Lines(DOUBLED, 1),
        "htl: write\n",
    ),
    (
        Streams::Fails(0, 3),
        10,
        Content::Lines(DOUBLED, 2),
        "htl: write\n",
    ),
    (
        Streams::Fails(0, 4),
        10,
        Content::Lines(DOUBLED, 3),
        "htl: write\n",
    ),
    (
        Streams::Fails(0, 5),
        10,
        Content::Lines(DOUBLED, 4),
        "htl: write\n",
    ),
];

const TRIED: &[Tried] = &[
    Tried {
        name: "failing streams are told",
        words: &["go", "A"],
        place: Place::Files,
        contents: (Content::Text(DOUBLING), EMPTY),
        script: READINGS,
        rows: FAILING,
    },
    Tried {
        name: "failing outputs are told without an end",
        words: &["go", "A"],
        place: Place::Files,
        contents: (Content::Text(DOUBLING), EMPTY),
        script: "at 0\nsense s 3\nat 10\nsense s 5\n",
        rows: FAILING_OPEN,
    },
];

#[test]
fn calls_are_answered(rt: HostRuntime) {
    same(&rt, first_wrong(rt.alloc(), GROUPS), None);
    same(&rt, first_other(rt.alloc(), TRIED), None);
}
