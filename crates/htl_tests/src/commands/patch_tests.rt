// `patch` over the objects of sources in memory: what it writes is the object of the whole source, and runs.
use crate::asserts::same;
use crate::calls::{Content, EMPTY, Group, Place, Row, Streams, Text, first_wrong};
use htl_samples::samples::{NESTED, REFINED, SOMETIMES, TANKS};

// Mode `rest` of M is refined by a program with one module, and by an empty one.
const RESTING: &str = "program P {
  communicator int u period 10 init 0;
  module M start rest { mode rest period 10 program R { } }
}
program R { module O start o { mode o period 10 { } } }";

const EMPTY_PROGRAM: &str = "program P {
  communicator int u period 10 init 0;
  module M start rest { mode rest period 10 program R { } }
}
program R { }";

const UNREFINED: &str = "program P {
  communicator int u period 10 init 0;
  module M start rest { mode rest period 10 { } }
}";

// A source, the donor with another piece in it, and the object of this.
const OF_M: &[Row] = &[
    (
        Content::Object(Text::Whole(SOMETIMES)),
        Content::Object(Text::Edited(SOMETIMES, &[("i * 10) worst 3", "i * 20) worst 4")])),
        "",
        0,
        Content::Object(Text::Edited(SOMETIMES, &[("i * 10) worst 3", "i * 20) worst 4")])),
        "",
    ),
    // the refinement as it was
    (
        Content::Object(Text::Whole(SOMETIMES)),
        Content::Object(Text::Edited(SOMETIMES, &[("i * 10", "i * 10")])),
        "",
        0,
        Content::Object(Text::Edited(SOMETIMES, &[("i * 10", "i * 10")])),
        "",
    ),
    // a module more, and a switch less
    (
        Content::Object(Text::Whole(SOMETIMES)),
        Content::Object(Text::Edited(
            SOMETIMES,
            &[(
                "}\nprogram Q {\n",
                "}\nprogram Q {\n  module L start l { mode l period 10 { } }\n",
            )],
        )),
        "",
        0,
        Content::Object(Text::Edited(
            SOMETIMES,
            &[(
                "}\nprogram Q {\n",
                "}\nprogram Q {\n  module L start l { mode l period 10 { } }\n",
            )],
        )),
        "",
    ),
    (
        Content::Object(Text::Whole(SOMETIMES)),
        Content::Object(Text::Edited(SOMETIMES, &[("      switch (!g, off);\n", "")])),
        "",
        0,
        Content::Object(Text::Edited(SOMETIMES, &[("      switch (!g, off);\n", "")])),
        "",
    ),
    // a refinement that is refined in turn, as a whole and its inner part
    (
        Content::Object(Text::Whole(NESTED)),
        Content::Object(Text::Edited(NESTED, &[("i + 1) worst 3", "i + 2) worst 4")])),
        "",
        0,
        Content::Object(Text::Edited(NESTED, &[("i + 1) worst 3", "i + 2) worst 4")])),
        "",
    ),
];

// The inner part of a refinement that is refined in turn.
const OF_N: &[Row] = &[(
    Content::Object(Text::Whole(NESTED)),
    Content::Object(Text::Edited(NESTED, &[("i + 1) worst 3", "i + 2) worst 4")])),
    "",
    0,
    Content::Object(Text::Edited(NESTED, &[("i + 1) worst 3", "i + 2) worst 4")])),
    "",
)];

// A refinement that is empty, or none.
const OF_REST: &[Row] = &[
    // a mode that nothing refined
    (
        Content::Object(Text::Whole(REFINED)),
        Content::Object(Text::Edited(
            REFINED,
            &[(
                "mode rest period 10 { switch (!g, m); }\n  }\n}",
                "mode rest period 10 program R { switch (!g, m); }\n  }\n}\nprogram R { module O start o { mode o period 10 { } } }",
            )],
        )),
        "",
        0,
        Content::Object(Text::Edited(
            REFINED,
            &[(
                "mode rest period 10 { switch (!g, m); }\n  }\n}",
                "mode rest period 10 program R { switch (!g, m); }\n  }\n}\nprogram R { module O start o { mode o period 10 { } } }",
            )],
        )),
        "",
    ),
    (
        Content::Object(Text::Whole(RESTING)),
        Content::Object(Text::Whole(EMPTY_PROGRAM)),
        "",
        0,
        Content::Object(Text::Whole(EMPTY_PROGRAM)),
        "",
    ),
    (
        Content::Object(Text::Whole(EMPTY_PROGRAM)),
        Content::Object(Text::Whole(RESTING)),
        "",
        0,
        Content::Object(Text::Whole(RESTING)),
        "",
    ),
    (
        Content::Object(Text::Whole(RESTING)),
        Content::Object(Text::Whole(UNREFINED)),
        "",
        0,
        Content::Object(Text::Whole(UNREFINED)),
        "",
    ),
    (
        Content::Object(Text::Whole(UNREFINED)),
        Content::Object(Text::Whole(RESTING)),
        "",
        0,
        Content::Object(Text::Whole(RESTING)),
        "",
    ),
];

const LAW: &str = "(400 - h) * 3 / 2) worst 110";

const SOFTER: &str = "if(h < 300, 100, 400 - h)) worst 80";

// Tank 2, which no donor needs.
const TANK_2: &str = "  module T2 start hold {
    task direct input (int h) output (int u = if(h < 350, 100, 0)) worst 100;
    mode hold period 500 { invoke direct input ((h2, 1)) output ((u2, 4)); }
  }
";

// The donor is a part.
const OF_PART: &[Row] = &[(
    Content::Object(Text::Whole(TANKS)),
    Content::Object(Text::Edited(TANKS, &[(LAW, SOFTER), (TANK_2, "")])),
    "",
    0,
    Content::Object(Text::Edited(TANKS, &[(LAW, SOFTER)])),
    "",
)];

// The worst case of a task that stays, on a platform.
const FAST: &str = "name = \"fast\"\n[worst]\n\"M.fix\" = 1\n";

// The platform stays.
const ON_PLATFORM: &[Row] = &[(
    Content::ObjectOn(Text::Whole(SOMETIMES), FAST),
    Content::Object(Text::Edited(SOMETIMES, &[("i * 10", "i * 20")])),
    "",
    0,
    Content::ObjectOn(Text::Edited(SOMETIMES, &[("i * 10", "i * 20")]), FAST),
    "",
)];

// The refinement takes longer, and its output is greater.
const DOUBLED_ON: &str = "v 0 u 3
v 0 w 0
v 0 g 0
m 0 M m
m 0 N off
j 0 2 M.m.fix
d 2 M.m.fix
v 10 w 1
v 10 g 1
m 10 N on
j 10 14 N.on.fast
d 14 N.on.fast
j 14 16 M.m.fix
d 16 M.m.fix
v 20 u 20
v 20 w 2
end 20 jobs 3 e 54 s 6
";

// A patched object.
const RUN: &[Row] = &[(
    Content::Patched(
        Text::Whole(SOMETIMES),
        "M.m",
        Text::Edited(SOMETIMES, &[("i * 10) worst 3", "i * 20) worst 4")]),
    ),
    EMPTY,
    "at 10\nsense g 1\nend 20\n",
    0,
    Content::Text(DOUBLED_ON),
    "",
)];

// A donor that is too long is not read.
const TOO_LONG: &[Row] = &[(
    Content::Object(Text::Whole(SOMETIMES)),
    Content::Filled(0, 16_777_217),
    "",
    8,
    EMPTY,
    "htl: shelf too-long 16777217\n",
)];

const GROUPS: &[Group] = &[
    Group {
        name: "a refinement is replaced",
        words: &["patch", "A", "M.m", "B"],
        place: Place::Files,
        streams: Streams::Usual,
        rows: OF_M,
    },
    Group {
        name: "an inner refinement is replaced",
        words: &["patch", "A", "N.n", "B"],
        place: Place::Files,
        streams: Streams::Usual,
        rows: OF_N,
    },
    Group {
        name: "a refinement may be empty",
        words: &["patch", "A", "M.rest", "B"],
        place: Place::Files,
        streams: Streams::Usual,
        rows: OF_REST,
    },
    Group {
        name: "a donor may be a part",
        words: &["patch", "A", "T1.hold", "B"],
        place: Place::Files,
        streams: Streams::Usual,
        rows: OF_PART,
    },
    Group {
        name: "a platform stays",
        words: &["patch", "A", "M.m", "B"],
        place: Place::Files,
        streams: Streams::Usual,
        rows: ON_PLATFORM,
    },
    Group {
        name: "a patched object runs",
        words: &["jobs", "A"],
        place: Place::Files,
        streams: Streams::Usual,
        rows: RUN,
    },
    Group {
        name: "a donor may be too long",
        words: &["patch", "A", "M.m", "B"],
        place: Place::Files,
        streams: Streams::Usual,
        rows: TOO_LONG,
    },
];

#[test]
fn calls_are_answered(rt: HostRuntime) {
    same(&rt, first_wrong(rt.alloc(), GROUPS), None);
}
