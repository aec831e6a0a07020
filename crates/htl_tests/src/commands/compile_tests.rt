// The objects that `compile` writes, and what the commands on objects say of these.
use crate::asserts::same;
use crate::calls::{Content, EMPTY, Group, Place, Row, Streams, Tried, first_other, first_wrong};
use htl_samples::object_bytes;
use htl_samples::samples::{
    DOUBLING, PORT, REFINED, SOMETIMES, TANKS, TWO_JOBS, TWO_MODES, TWO_MODULES,
};

const WRITTEN: &[Row] = &[
    (
        Content::Text("program P { communicator int u period 10 init 7; }"),
        EMPTY,
        "",
        0,
        Content::Changed(&object_bytes::NO_MODULE, 0, &[], true),
        "",
    ),
    (
        Content::Text(DOUBLING),
        EMPTY,
        "",
        0,
        Content::Changed(&object_bytes::DOUBLING, 0, &[], true),
        "",
    ),
    (
        Content::Text(TWO_JOBS),
        EMPTY,
        "",
        0,
        Content::Changed(&object_bytes::TWO_JOBS, 0, &[], true),
        "",
    ),
    (
        Content::Text(PORT),
        EMPTY,
        "",
        0,
        Content::Changed(&object_bytes::PORT, 0, &[], true),
        "",
    ),
    (
        Content::Text(TWO_MODES),
        EMPTY,
        "",
        0,
        Content::Changed(&object_bytes::TWO_MODES, 0, &[], true),
        "",
    ),
    (
        Content::Text(REFINED),
        EMPTY,
        "",
        0,
        Content::Changed(&object_bytes::REFINED, 0, &[], true),
        "",
    ),
];

const CHECKED: &[Row] = &[
    (
        Content::Text(TWO_JOBS),
        EMPTY,
        "",
        0,
        Content::Text("accepted selections 1 positions 2\n"),
        "",
    ),
    (
        Content::Text(SOMETIMES),
        EMPTY,
        "",
        0,
        Content::Text("accepted selections 1 positions 2\n"),
        "",
    ),
    (
        Content::Text(TANKS),
        EMPTY,
        "",
        0,
        Content::Text("accepted selections 1 positions 2\n"),
        "",
    ),
    (
        Content::Text(TWO_MODULES),
        EMPTY,
        "",
        0,
        Content::Text("accepted selections 4 positions 2\n"),
        "",
    ),
];

const PLANNED: &[Row] = &[
    (
        Content::Text(SOMETIMES),
        EMPTY,
        "mode M m\nmode N on\n",
        0,
        Content::Text(
            "j 0 3 N.on.fast\nd 3 N.on.fast\nj 3 5 M.m.fix\nd 5 M.m.fix\nplan 10 jobs 2 s 3\n",
        ),
        "",
    ),
    (
        Content::Text(SOMETIMES),
        EMPTY,
        "mode M m\nmode N off\n",
        0,
        Content::Text("j 0 2 M.m.fix\nd 2 M.m.fix\nplan 10 jobs 1 s 3\n"),
        "",
    ),
    (
        Content::Text(TWO_MODULES),
        EMPTY,
        "mode A two\nmode B low\n",
        0,
        Content::Text(
            "j 0 3 A.two.k\nd 3 A.two.k\nj 3 7 B.low.p\nd 7 B.low.p\nplan 10 jobs 2 s 3\n",
        ),
        "",
    ),
    (
        Content::Text(TANKS),
        EMPTY,
        "mode T1 hold\nmode C1 pi\nmode T2 hold\n",
        0,
        Content::Text(
            "j 100 210 C1.pi.damp\nd 210 C1.pi.damp\nj 210 310 T2.hold.direct\nd 310 T2.hold.direct\nplan 500 jobs 2 s 3\n",
        ),
        "",
    ),
];

const RUN: &[Row] = &[
    (
        Content::Text(TWO_JOBS),
        EMPTY,
        "end 10\n",
        0,
        Content::Text(
            "v 0 x 1\nv 0 y 0\nv 0 z 0\nm 0 M m\nv 6 y 5\nv 10 z 2\nend 10 jobs 2 e 26 s 4\n",
        ),
        "",
    ),
    (
        Content::Text(TANKS),
        EMPTY,
        "at 0\nsense h1 250\nsense h2 300\nend 500\n",
        0,
        Content::Text(
            "v 0 h1 250\nv 0 h2 300\nv 0 u1 0\nv 0 u2 0\nm 0 T1 hold\nm 0 C1 p\nm 0 T2 hold\nv 400 u1 300\nv 400 u2 100\nend 500 jobs 2 e 39 s 3\n",
        ),
        "",
    ),
];

// What was read before the read that fails is no source.
const UNREAD: &[Row] = &[(
    Content::Text("program P { #"),
    EMPTY,
    "",
    9,
    EMPTY,
    "htl: read\n",
)];

const GROUPS: &[Group] = &[
    Group {
        name: "objects are written",
        words: &["compile"],
        place: Place::Input,
        streams: Streams::Usual,
        rows: WRITTEN,
    },
    Group {
        name: "written objects are accepted",
        words: &["check", "A"],
        place: Place::Compiled,
        streams: Streams::Usual,
        rows: CHECKED,
    },
    Group {
        name: "written objects are planned",
        words: &["plan", "A"],
        place: Place::Compiled,
        streams: Streams::Usual,
        rows: PLANNED,
    },
    Group {
        name: "written objects are run",
        words: &["run", "A"],
        place: Place::Compiled,
        streams: Streams::Usual,
        rows: RUN,
    },
    Group {
        name: "a failing input is told before a fault",
        words: &["compile"],
        place: Place::Input,
        streams: Streams::StepFails(100, 2),
        rows: UNREAD,
    },
];

// Each of four reads of at most 100 bytes fails once, of which the last finds the end; and the write.
const FAILING: &[(Streams, u8, Content, &str)] = &[
    (Streams::StepFails(100, 1), 9, EMPTY, "htl: read\n"),
    (Streams::StepFails(100, 2), 9, EMPTY, "htl: read\n"),
    (Streams::StepFails(100, 3), 9, EMPTY, "htl: read\n"),
    (Streams::StepFails(100, 4), 9, EMPTY, "htl: read\n"),
    (Streams::Fails(0, 1), 10, EMPTY, "htl: write\n"),
    // in the middle
    (
        Streams::Room(100),
        10,
        Content::Changed(&object_bytes::DOUBLING, 100, &[], false),
        "htl: write\n",
    ),
];

const TRIED: &[Tried] = &[Tried {
    name: "failing streams are told of sources",
    words: &["compile"],
    place: Place::Input,
    contents: (Content::Text(DOUBLING), EMPTY),
    script: "",
    rows: FAILING,
}];

#[test]
fn calls_are_answered(rt: HostRuntime) {
    same(&rt, first_wrong(rt.alloc(), GROUPS), None);
    same(&rt, first_other(rt.alloc(), TRIED), None);
}
