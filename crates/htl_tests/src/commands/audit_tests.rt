// `audit` over objects of sources and job logs in memory: a log of each kind, and the answers that come before its verdict.
use crate::asserts::same;
use crate::calls::{
    Content, EMPTY, Group, Place, Row, Streams, StreamsRow, Tried, first_other, first_wrong,
};
use htl_samples::samples::{PORT, TWO_JOBS};

const LINES: &str = "v 0 x 1\nv 0 y 0\nv 0 z 0\nm 0 M m\nv 6 y 5\nv 10 z 2\n";

// Sources, logs for their objects, and a run that ends at 10.
const LOGS: &[Row] = &[
    (
        Content::Text(TWO_JOBS),
        Content::Text("j 0 3 M.m.a\nj 3 6 M.m.b\nj 6 10 M.m.a\n"),
        "end 10\n",
        0,
        Content::Text(
            "v 0 x 1\nv 0 y 0\nv 0 z 0\nm 0 M m\nv 6 y 5\nv 10 z 2\naudited 10 jobs 2 slices 3\n",
        ),
        "",
    ),
    // the last line lacks its end
    (
        Content::Text(TWO_JOBS),
        Content::Text("j 0 2 M.m.a\nj 2 5 M.m.b\nj 5 10 M.m.a"),
        "end 10\n",
        0,
        Content::Text(
            "v 0 x 1\nv 0 y 0\nv 0 z 0\nm 0 M m\nv 6 y 5\nv 10 z 2\naudited 10 jobs 2 slices 3\n",
        ),
        "",
    ),
    (
        Content::Text(TWO_JOBS),
        Content::Text("j 0 3 M.m.a\nj 3 6 M.m.b\nj 6 9 M.m.a\n"),
        "end 10\n",
        13,
        Content::Text(LINES),
        "htl: log 4 short\n",
    ),
    (
        Content::Text(TWO_JOBS),
        Content::Text("j 0 3 M.m.a\nj 3 7 M.m.b\nj 6 10 M.m.a\n"),
        "end 10\n",
        13,
        Content::Text(LINES),
        "htl: log 2 outside\n",
    ),
    (
        Content::Text(TWO_JOBS),
        Content::Text("j 0 3 M.m.a\nj 2 5 M.m.b\n"),
        "end 10\n",
        13,
        Content::Text(LINES),
        "htl: log 2 order\n",
    ),
    (
        Content::Text(TWO_JOBS),
        Content::Text("j 0 11 M.m.a\n"),
        "end 10\n",
        13,
        Content::Text(LINES),
        "htl: log 1 order\n",
    ),
    (
        Content::Text(TWO_JOBS),
        Content::Text("j 2 5 M.m.b\nj 5 6 M.m.b\n"),
        "end 10\n",
        13,
        Content::Text(LINES),
        "htl: log 2 over\n",
    ),
    (
        Content::Text(PORT),
        Content::Text("j 0 4 M.m.q\n"),
        "end 10\n",
        13,
        Content::Text("v 0 x 2\nv 0 u 0\nm 0 M m\nv 10 u 14\n"),
        "htl: log 1 before\n",
    ),
    // nothing is read or written for a line that can't be read
    (
        Content::Text(TWO_JOBS),
        Content::Text("j 0 3 M.m.a\n\n"),
        "end 10\n",
        13,
        Content::Text(""),
        "htl: log 2 form\n",
    ),
    (
        Content::Text(TWO_JOBS),
        Content::Text("j 0 3 M.m.c\n# no\n"),
        "end 10\n",
        13,
        Content::Text(""),
        "htl: log 1 unknown\n",
    ),
];

// Scripts with a fault, and logs that have one too.
const STOPS: &[Row] = &[
    (
        Content::Text(TWO_JOBS),
        Content::Text("j 0 1 M.m.a\n"),
        "end 10\nat 10\n",
        7,
        Content::Text(LINES),
        "htl: script 2 after\n",
    ),
    (
        Content::Text(TWO_JOBS),
        Content::Text("j 0 1 M.m.a\n"),
        "at 1\n",
        7,
        Content::Text("v 0 x 1\nv 0 y 0\nv 0 z 0\nm 0 M m\n"),
        "htl: script 2 no-end\n",
    ),
];

// The object is tested before the log is read.
const UNTESTED: &[Row] = &[(
    Content::Text("x"),
    Content::Text("j\n"),
    "end 10\n",
    6,
    EMPTY,
    "htl: object malformed short 1\n",
)];

// A log that is too long is not read, nor the script.
const TOO_LONG: &[Row] = &[(
    Content::Text(TWO_JOBS),
    Content::Filled(b'j', 16_777_217),
    "end 10\n",
    8,
    EMPTY,
    "htl: shelf too-long 16777217\n",
)];

const GROUPS: &[Group] = &[
    Group {
        name: "logs are judged",
        words: &["audit", "A", "B"],
        place: Place::Compiled,
        streams: Streams::Usual,
        rows: LOGS,
    },
    Group {
        name: "scripts come before verdicts",
        words: &["audit", "A", "B"],
        place: Place::Compiled,
        streams: Streams::Usual,
        rows: STOPS,
    },
    Group {
        name: "objects come before logs",
        words: &["audit", "A", "B"],
        place: Place::Files,
        streams: Streams::Usual,
        rows: UNTESTED,
    },
    Group {
        name: "a log may be too long",
        words: &["audit", "A", "B"],
        place: Place::Compiled,
        streams: Streams::Usual,
        rows: TOO_LONG,
    },
];

const AUDITED: &str =
    "v 0 x 1\nv 0 y 0\nv 0 z 0\nm 0 M m\nv 6 y 5\nv 10 z 2\naudited 10 jobs 2 slices 3\n";

// Each write of `audit` fails once, and each read.
const FAILING: &[StreamsRow] = &[
    (
        Streams::Fails(0, 1),
        10,
        Content::Lines(AUDITED, 0),
        "htl: write\n",
    ),
    (
        Streams::Fails(0, 2),
        10,
        Content::Lines(AUDITED, 1),
        "htl: write\n",
    ),
    (
        Streams::Fails(0, 3),
        10,
        Content::Lines(AUDITED, 2),
        "htl: write\n",
    ),
    (
        Streams::Fails(0, 4),
        10,
        Content::Lines(AUDITED, 3),
        "htl: write\n",
    ),
    (
        Streams::Fails(0, 5),
        10,
        Content::Lines(AUDITED, 4),
        "htl: write\n",
    ),
    (
        Streams::Fails(0, 6),
        10,
        Content::Lines(AUDITED, 5),
        "htl: write\n",
    ),
    (
        Streams::Fails(0, 7),
        10,
        Content::Lines(AUDITED, 6),
        "htl: write\n",
    ),
    (
        Streams::Fails(1, 0),
        9,
        Content::Lines(AUDITED, 0),
        "htl: read\n",
    ),
    (
        Streams::Fails(2, 0),
        9,
        Content::Lines(AUDITED, 6),
        "htl: read\n",
    ),
];

const TRIED: &[Tried] = &[Tried {
    name: "failing streams are told of audits",
    words: &["audit", "A", "B"],
    place: Place::Compiled,
    contents: (
        Content::Text(TWO_JOBS),
        Content::Text("j 0 3 M.m.a\nj 3 6 M.m.b\nj 6 10 M.m.a\n"),
    ),
    script: "end 10\n",
    rows: FAILING,
}];

#[test]
fn calls_are_answered(rt: HostRuntime) {
    same(&rt, first_wrong(rt.alloc(), GROUPS), None);
    same(&rt, first_other(rt.alloc(), TRIED), None);
}
