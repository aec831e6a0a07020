// Root modules of different periods, from their source to their run.
use crate::asserts::same;
use crate::calls::{Content, EMPTY, Group, Place, Row, Streams, Text, first_wrong};
use htl_samples::samples::{TWO_PERIODS, TWO_PERIODS_AND_MODES};

// `b` goes on where the second round of F begins; the modes of F change inside a round of G.
const RUNS: &[Row] = &[
    (
        Content::Text(TWO_PERIODS),
        EMPTY,
        "end 20\n",
        0,
        Content::Text(
            "v 0 u 1
v 0 w 0
m 0 F m
m 0 G m
j 0 3 F.m.a
d 3 F.m.a
j 3 10 G.m.b
v 10 u 2
j 10 12 G.m.b
d 12 G.m.b
j 12 15 F.m.a
d 15 F.m.a
v 20 u 3
v 20 w 10
end 20 jobs 3 e 46 s 6
",
        ),
        "",
    ),
    (
        Content::Text(TWO_PERIODS_AND_MODES),
        EMPTY,
        "at 10\nsense g 1\nat 20\nsense g 0\ntook G.m.b 5\nend 40\n",
        0,
        Content::Text(
            "v 0 g 0
v 0 u 1
v 0 w 0
m 0 F m
m 0 G m
j 0 3 F.m.a
d 3 F.m.a
j 3 10 G.m.b
v 10 g 1
v 10 u 2
m 10 F e
j 10 12 G.m.b
d 12 G.m.b
v 20 g 0
v 20 w 10
m 20 F m
j 20 23 F.m.a
d 23 F.m.a
j 23 28 G.m.b
d 28 G.m.b
v 30 u 3
j 30 33 F.m.a
d 33 F.m.a
v 40 u 4
v 40 w 20
end 40 jobs 5 e 73 s 11
",
        ),
        "",
    ),
];

// 21 ticks in a frame of 20.
const OVERLOADED: &[Row] = &[(
    Content::Made(Text::Edited(TWO_PERIODS, &[("worst 9", "worst 15")])),
    EMPTY,
    "end 0\n",
    5,
    EMPTY,
    "htl: unschedulable 0 from 0 to 20 demand 21\n",
)];

const ACCEPTED: &[Row] = &[
    (
        Content::Text(TWO_PERIODS),
        EMPTY,
        "",
        0,
        Content::Text("accepted selections 1 positions 3\n"),
        "",
    ),
    (
        Content::Text(TWO_PERIODS_AND_MODES),
        EMPTY,
        "",
        0,
        Content::Text("accepted selections 4 positions 3\n"),
        "",
    ),
];

const GROUPS: &[Group] = &[
    Group {
        name: "`go` runs sources of two periods",
        words: &["go", "A"],
        place: Place::Files,
        streams: Streams::Usual,
        rows: RUNS,
    },
    Group {
        name: "`jobs` runs their objects",
        words: &["jobs", "A"],
        place: Place::Compiled,
        streams: Streams::Usual,
        rows: RUNS,
    },
    Group {
        name: "`check` accepts them",
        words: &["check", "A"],
        place: Place::Compiled,
        streams: Streams::Usual,
        rows: ACCEPTED,
    },
    Group {
        name: "an overloaded frame is refused",
        words: &["go", "A"],
        place: Place::Files,
        streams: Streams::Usual,
        rows: OVERLOADED,
    },
];

#[test]
fn root_modules_of_two_periods_run(rt: HostRuntime) {
    same(&rt, first_wrong(rt.alloc(), GROUPS), None);
}
