// `show` over objects in memory.
use crate::asserts::same;
use crate::calls::{Content, EMPTY, Group, Place, Row, Streams, Text, first_wrong};
use htl_samples::object_bytes::{DOUBLING, IDLING, NO_MODULE, REFINED};

const DOUBLING_LISTED: &str = "sensor s int period 10 init 0
comm u int period 10 init 7
module M start m
mode M.m period 20
inv M.m.dbl worst 4 window 0 10
fn 0 instrs 3
E 0 enter M.m
E 1 future 10 write 5
E 2 future 0 read 7
E 3 future 20 switch 10
E 4 return
E 5 call write M.m.dbl 0
E 6 return
E 7 call read M.m.dbl 0
E 8 release M.m.dbl
E 9 return
E 10 jump 1
S 0:0 dispatch 0 until 4
S 0:1 end
";

const REFINED_LISTED: &str = "sensor g bool period 10 init 0
comm u int period 10 init 0
module M start m
module N start one parent M.m
mode M.m period 10
mode M.rest period 10
mode N.one period 10
mode N.two period 10
inv M.m.plan worst 4 window 0 10 abstract
inv N.one.f worst 3 window 0 10 parent M.m.plan
inv N.two.h worst 4 window 0 10 parent M.m.plan
fn 0 instrs 3
fn 1 instrs 3
fn 2 instrs 1
fn 3 instrs 2
fn 4 instrs 3
E 0 enter M.m
E 1 fork N
E 2 future 10 switch 4
E 3 return
E 4 jumpif 0 6
E 5 jump 2
E 6 enter M.rest
E 7 future 10 switch 9
E 8 return
E 9 jumpif 1 0
E 10 jump 7
E 11 enter N.one
E 12 future 10 write 16
E 13 future 0 read 18
E 14 future 10 switch 21
E 15 return
E 16 call write N.one.f 0
E 17 return
E 18 call read N.one.f 0
E 19 release N.one.f
E 20 return
E 21 ifmode M.m 24
E 22 leave
E 23 return
E 24 jumpif 2 26
E 25 jump 12
E 26 enter N.two
E 27 future 10 write 31
E 28 future 0 read 33
E 29 future 10 switch 36
E 30 return
E 31 call write N.two.h 0
E 32 return
E 33 call read N.two.h 0
E 34 release N.two.h
E 35 return
E 36 ifmode M.m 39
E 37 leave
E 38 return
E 39 jump 27
S 0:0 dispatch 0 until 4
S 0:1 end
S 1:0 end
";

// E code for NO_MODULE that nothing reaches and whose items don't exist, and no S code.
const UNREACHED: [u8; 39] = [
    // seven instructions
    0, 0, 0, 7, 8, 0, 7, 10, 0, 5, 3, 0, 9, 1, 0, 9, 0, 1, 2, 0, 9, 0, 2, 7, 0, 7, 0, 0, 0, 2, 5,
    0, 4, 0, 0, 0, 3, 0, 0,
];

// Numbers stand for the names.
const UNREACHED_LISTED: &str = "comm u int period 10 init 7
E 0 enter 7
E 1 fork 5
E 2 release 9
E 3 call write 9 1
E 4 call read 9 2
E 5 ifmode 7 2
E 6 jumpif 4 3
";

const LISTED: &[Row] = &[
    (
        Content::Changed(&NO_MODULE, 0, &[], true),
        EMPTY,
        "",
        0,
        Content::Text("comm u int period 10 init 7\n"),
        "",
    ),
    (
        Content::Changed(&DOUBLING, 0, &[], true),
        EMPTY,
        "",
        0,
        Content::Text(DOUBLING_LISTED),
        "",
    ),
    (
        Content::Changed(&REFINED, 0, &[], true),
        EMPTY,
        "",
        0,
        Content::Text(REFINED_LISTED),
        "",
    ),
    (
        Content::Changed(&NO_MODULE, 36, &UNREACHED, true),
        EMPTY,
        "",
        0,
        Content::Text(UNREACHED_LISTED),
        "",
    ),
    // an `idle`
    (
        Content::Changed(&DOUBLING, 198, &IDLING, true),
        EMPTY,
        "",
        0,
        Content::Made(Text::Edited(
            DOUBLING_LISTED,
            &[(
                "S 0:0 dispatch 0 until 4\nS 0:1 end\n",
                "S 0:0 idle until 3\nS 0:1 dispatch 0 until 7\nS 0:2 end\n",
            )],
        )),
        "",
    ),
    (
        Content::Changed(&DOUBLING, 125, &[5], true),
        EMPTY,
        "",
        6,
        EMPTY,
        "htl: object function 0\n",
    ),
];

// The second write fails.
const CUT: &[Row] = &[(
    Content::Changed(&DOUBLING, 0, &[], true),
    EMPTY,
    "",
    10,
    Content::Text("sensor s int period 10 init 0\n"),
    "htl: write\n",
)];

const GROUPS: &[Group] = &[
    Group {
        name: "accepted objects are listed",
        words: &["show", "A"],
        place: Place::Files,
        streams: Streams::Usual,
        rows: LISTED,
    },
    Group {
        name: "a failing output cuts the listing",
        words: &["show", "A"],
        place: Place::Files,
        streams: Streams::Fails(0, 2),
        rows: CUT,
    },
];

#[test]
fn calls_are_answered(rt: HostRuntime) {
    same(&rt, first_wrong(rt.alloc(), GROUPS), None);
}
