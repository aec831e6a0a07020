// `plan` over objects in memory.
use crate::asserts::same;
use crate::calls::{Content, EMPTY, Group, Place, Row, Streams, Tried, first_other, first_wrong};
use htl_samples::object_bytes::{NO_MODULE, REFINED};

// A module of two modes, of which the first is refined by a module of two modes; and no module.
const PLANS: &[Row] = &[
    (
        Content::Changed(&REFINED, 0, &[], true),
        EMPTY,
        "mode M m\nmode N one\n",
        0,
        Content::Text("j 0 3 N.one.f\nd 3 N.one.f\nplan 10 jobs 1 s 2\n"),
        "",
    ),
    (
        Content::Changed(&REFINED, 0, &[], true),
        EMPTY,
        "# the other mode\n\nmode M m\nmode N two",
        0,
        Content::Text("j 0 4 N.two.h\nd 4 N.two.h\nplan 10 jobs 1 s 2\n"),
        "",
    ),
    (
        Content::Changed(&REFINED, 0, &[], true),
        EMPTY,
        "mode M rest\nmode N -\n",
        0,
        Content::Text("plan 10 jobs 0 s 1\n"),
        "",
    ),
    (
        Content::Changed(&NO_MODULE, 0, &[], true),
        EMPTY,
        "",
        0,
        Content::Text("plan 0 jobs 0 s 0\n"),
        "",
    ),
];

// Inputs with a fault.
const FAULTY: &[Row] = &[
    (
        Content::Changed(&REFINED, 0, &[], true),
        EMPTY,
        "mode M m\nmode N -\n",
        7,
        EMPTY,
        "htl: script 2 order\n",
    ),
    (
        Content::Changed(&REFINED, 0, &[], true),
        EMPTY,
        "mode M rest\nmode N one\n",
        7,
        EMPTY,
        "htl: script 2 order\n",
    ),
    (
        Content::Changed(&REFINED, 0, &[], true),
        EMPTY,
        "mode N one\n",
        7,
        EMPTY,
        "htl: script 1 order\n",
    ),
    (
        Content::Changed(&REFINED, 0, &[], true),
        EMPTY,
        "mode M one\n",
        7,
        EMPTY,
        "htl: script 1 unknown\n",
    ),
    (
        Content::Changed(&REFINED, 0, &[], true),
        EMPTY,
        "mode M\n",
        7,
        EMPTY,
        "htl: script 1 form\n",
    ),
    (
        Content::Changed(&REFINED, 0, &[], true),
        EMPTY,
        "mode M m\n",
        7,
        EMPTY,
        "htl: script 2 no-end\n",
    ),
    (
        Content::Changed(&REFINED, 0, &[], true),
        EMPTY,
        "mode M m\nmode N one\nmode N one\n",
        7,
        EMPTY,
        "htl: script 3 after\n",
    ),
];

const GROUPS: &[Group] = &[
    Group {
        name: "plans are written",
        words: &["plan", "A"],
        place: Place::Files,
        streams: Streams::Usual,
        rows: PLANS,
    },
    Group {
        name: "selections are refused",
        words: &["plan", "A"],
        place: Place::Files,
        streams: Streams::Usual,
        rows: FAULTY,
    },
];

// The second write fails, and then the second read too.
const FAILING: &[(Streams, u8, Content, &str)] = &[
    (
        Streams::Fails(0, 2),
        10,
        Content::Text("j 0 3 N.one.f\n"),
        "htl: write\n",
    ),
    (Streams::Fails(2, 2), 9, EMPTY, "htl: read\n"),
];

const TRIED: &[Tried] = &[Tried {
    name: "failing streams are told of plans",
    words: &["plan", "A"],
    place: Place::Files,
    contents: (Content::Changed(&REFINED, 0, &[], true), EMPTY),
    script: "mode M m\nmode N one\n",
    rows: FAILING,
}];

#[test]
fn calls_are_answered(rt: HostRuntime) {
    same(&rt, first_wrong(rt.alloc(), GROUPS), None);
    same(&rt, first_other(rt.alloc(), TRIED), None);
}
