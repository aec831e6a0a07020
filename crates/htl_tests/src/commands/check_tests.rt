// `check` over objects in memory.
use crate::asserts::same;
use crate::calls::{Content, EMPTY, Group, Place, Row, Streams, first_wrong};
use htl_samples::object_bytes::{DOUBLING, NO_MODULE, PORT, REFINED, TWO_JOBS, TWO_MODES};

const ACCEPTED: &[Row] = &[
    (
        Content::Changed(&NO_MODULE, 0, &[], true),
        EMPTY,
        "",
        0,
        Content::Text("accepted selections 0 positions 0\n"),
        "",
    ),
    (
        Content::Changed(&DOUBLING, 0, &[], true),
        EMPTY,
        "",
        0,
        Content::Text("accepted selections 1 positions 1\n"),
        "",
    ),
    (
        Content::Changed(&TWO_JOBS, 0, &[], true),
        EMPTY,
        "",
        0,
        Content::Text("accepted selections 1 positions 2\n"),
        "",
    ),
    (
        Content::Changed(&REFINED, 0, &[], true),
        EMPTY,
        "",
        0,
        Content::Text("accepted selections 2 positions 1\n"),
        "",
    ),
    (
        Content::Changed(&TWO_MODES, 0, &[], true),
        EMPTY,
        "",
        0,
        Content::Text("accepted selections 2 positions 1\n"),
        "",
    ),
];

// Bytes that are no object, and tables that break a form rule.
const BYTES: &[Row] = &[
    // its last byte is missing
    (
        Content::Changed(&NO_MODULE, 41, &[], false),
        EMPTY,
        "",
        6,
        EMPTY,
        "htl: object malformed short 41\n",
    ),
    // a byte behind it
    (
        Content::Changed(&NO_MODULE, 42, &[0], true),
        EMPTY,
        "",
        6,
        EMPTY,
        "htl: object malformed trailing 42\n",
    ),
    // another text
    (
        Content::Changed(&NO_MODULE, 0, &[73], true),
        EMPTY,
        "",
        6,
        EMPTY,
        "htl: object malformed magic 0\n",
    ),
    // another version
    (
        Content::Changed(&NO_MODULE, 5, &[3], true),
        EMPTY,
        "",
        6,
        EMPTY,
        "htl: object malformed version 4\n",
    ),
    // no platform's name
    (
        Content::Changed(&NO_MODULE, 5, &[2], true),
        EMPTY,
        "",
        6,
        EMPTY,
        "htl: object malformed spelling 6\n",
    ),
    // no name
    (
        Content::Changed(&NO_MODULE, 21, &[49], true),
        EMPTY,
        "",
        6,
        EMPTY,
        "htl: object malformed spelling 20\n",
    ),
    // no type
    (
        Content::Changed(&NO_MODULE, 22, &[2], true),
        EMPTY,
        "",
        6,
        EMPTY,
        "htl: object malformed tag 22\n",
    ),
    // a period of 0
    (
        Content::Changed(&NO_MODULE, 27, &[0], true),
        EMPTY,
        "",
        6,
        EMPTY,
        "htl: object malformed index 24\n",
    ),
    // a worst case above the period
    (
        Content::Changed(&DOUBLING, 73, &[0, 0, 0, 21], true),
        EMPTY,
        "",
        6,
        EMPTY,
        "htl: object ill-formed 7 at M.m.dbl have 21 need 20\n",
    ),
    // a worst case above that of the refined task
    (
        Content::Changed(&REFINED, 125, &[0, 0, 0, 5], true),
        EMPTY,
        "",
        6,
        EMPTY,
        "htl: object ill-formed 16 at N.one.f have 5 need 4\n",
    ),
];

// A byte of the E code of DOUBLING, another in its place, and what is told of the first departure.
const DEPARTURES: &[Row] = &[
    // the write block comes a tick too late
    (
        Content::Changed(&DOUBLING, 149, &[11], true),
        EMPTY,
        "",
        6,
        EMPTY,
        "htl: object ecode 1 delay\n",
    ),
    // the read block would stand behind the last instruction
    (
        Content::Changed(&DOUBLING, 164, &[11], true),
        EMPTY,
        "",
        6,
        EMPTY,
        "htl: object ecode 11 target\n",
    ),
    // the round's end goes to an instruction that doesn't begin the next round
    (
        Content::Changed(&DOUBLING, 174, &[9], true),
        EMPTY,
        "",
        6,
        EMPTY,
        "htl: object ecode 3 branch\n",
    ),
    // `leave` in place of `return`
    (
        Content::Changed(&DOUBLING, 181, &[9], true),
        EMPTY,
        "",
        6,
        EMPTY,
        "htl: object ecode 6 action\n",
    ),
    // a jump to itself
    (
        Content::Changed(&DOUBLING, 195, &[10], true),
        EMPTY,
        "",
        6,
        EMPTY,
        "htl: object ecode 10 endless\n",
    ),
];

// Functions and schedules that aren't accepted.
const CODES: &[Row] = &[
    // `not` in place of `mul`
    (
        Content::Changed(&DOUBLING, 125, &[5], true),
        EMPTY,
        "",
        6,
        EMPTY,
        "htl: object function 0\n",
    ),
    // a last dispatch that ends too soon
    (
        Content::Changed(&TWO_JOBS, 326, &[0, 0, 0, 9], true),
        EMPTY,
        "",
        6,
        EMPTY,
        "htl: object schedule 0 unfinished 0 left 1\n",
    ),
    // the second job runs last
    (
        Content::Changed(
            &TWO_JOBS,
            305,
            &[0, 0, 0, 3, 1, 0, 0, 0, 0, 0, 10, 1, 0, 1, 0, 0, 0, 10, 3],
            false,
        ),
        EMPTY,
        "",
        6,
        EMPTY,
        "htl: object schedule 0 late 1 finish 10 end 6\n",
    ),
    // a dispatch past the round
    (
        Content::Changed(
            &TWO_JOBS,
            305,
            &[0, 0, 0, 3, 1, 0, 0, 0, 0, 0, 11, 1, 0, 1, 0, 0, 0, 10, 3],
            false,
        ),
        EMPTY,
        "",
        6,
        EMPTY,
        "htl: object schedule 0 order 0\n",
    ),
    // the reader runs first
    (
        Content::Changed(
            &PORT,
            254,
            &[0, 0, 0, 3, 1, 0, 0, 0, 0, 0, 10, 1, 0, 1, 0, 0, 0, 10, 3],
            false,
        ),
        EMPTY,
        "",
        6,
        EMPTY,
        "htl: object schedule 0 before 0 1 at 0\n",
    ),
    // too little for the second selection
    (
        Content::Changed(&TWO_MODES, 400, &[0, 0, 0, 3], true),
        EMPTY,
        "",
        6,
        EMPTY,
        "htl: object schedule 1 unfinished 0 left 1\n",
    ),
];

const UNWRITTEN: &[Row] = &[(
    Content::Changed(&DOUBLING, 0, &[], true),
    EMPTY,
    "",
    10,
    EMPTY,
    "htl: write\n",
)];

const MISSING: &[Row] = &[(
    Content::Changed(&DOUBLING, 0, &[], true),
    EMPTY,
    "",
    8,
    EMPTY,
    "htl: shelf failed\n",
)];

const GROUPS: &[Group] = &[
    Group {
        name: "accepted objects are told",
        words: &["check", "A"],
        place: Place::Files,
        streams: Streams::Usual,
        rows: ACCEPTED,
    },
    Group {
        name: "bytes and forms are refused",
        words: &["check", "A"],
        place: Place::Files,
        streams: Streams::Usual,
        rows: BYTES,
    },
    Group {
        name: "departures are refused",
        words: &["check", "A"],
        place: Place::Files,
        streams: Streams::Usual,
        rows: DEPARTURES,
    },
    Group {
        name: "codes and schedules are refused",
        words: &["check", "A"],
        place: Place::Files,
        streams: Streams::Usual,
        rows: CODES,
    },
    Group {
        name: "a failing output is told of `check`",
        words: &["check", "A"],
        place: Place::Files,
        streams: Streams::Fails(0, 1),
        rows: UNWRITTEN,
    },
    Group {
        name: "`check` lacks its file",
        words: &["check", "X"],
        place: Place::Files,
        streams: Streams::Usual,
        rows: MISSING,
    },
];

#[test]
fn calls_are_answered(rt: HostRuntime) {
    same(&rt, first_wrong(rt.alloc(), GROUPS), None);
}
