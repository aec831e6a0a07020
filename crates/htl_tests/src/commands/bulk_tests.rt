// Whole calls of `bulk`: its rows, and an output that fails.
use crate::asserts::same;
use crate::calls::{Content, EMPTY, Group, Place, Row, Streams, Tried, first_other, first_wrong};

// The lines of one module.
const ONE_LINES: &str = "v 100000 s 99\nv 100000 c0 4950\nend 100000 jobs 200 e 1210 s 300\n";

const ONE: &[Row] = &[(EMPTY, EMPTY, "at 0\n", 0, Content::Text(ONE_LINES), "")];

const TWO: &[Row] = &[(
    EMPTY,
    EMPTY,
    "at 0\n",
    0,
    Content::Text(
        "v 100000 s 99\nv 100000 c0 7400\nv 100000 c1 7451\nend 100000 jobs 400 e 2420 s 500\n",
    ),
    "",
)];

const GROUPS: &[Group] = &[
    Group {
        name: "last values and totals are written, one module",
        words: &["bulk", "1"],
        place: Place::Files,
        streams: Streams::Usual,
        rows: ONE,
    },
    Group {
        name: "last values and totals are written, two modules",
        words: &["bulk", "2"],
        place: Place::Files,
        streams: Streams::Usual,
        rows: TWO,
    },
];

// Each write fails once.
const CUTS: &[(Streams, u8, Content, &str)] = &[
    (
        Streams::Fails(0, 1),
        10,
        Content::Lines(ONE_LINES, 0),
        "htl: write\n",
    ),
    (
        Streams::Fails(0, 2),
        10,
        Content::Lines(ONE_LINES, 1),
        "htl: write\n",
    ),
    (
        Streams::Fails(0, 3),
        10,
        Content::Lines(ONE_LINES, 2),
        "htl: write\n",
    ),
];

const TRIED: &[Tried] = &[Tried {
    name: "a failing output cuts the lines of `bulk`",
    words: &["bulk", "1"],
    place: Place::Files,
    contents: (EMPTY, EMPTY),
    script: "",
    rows: CUTS,
}];

#[test]
fn calls_are_answered(rt: HostRuntime) {
    same(&rt, first_wrong(rt.alloc(), GROUPS), None);
    same(&rt, first_other(rt.alloc(), TRIED), None);
}
