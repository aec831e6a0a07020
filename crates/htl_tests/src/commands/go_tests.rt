// Runs of sources, by `go` and by `jobs` on their objects.
use crate::asserts::same;
use crate::calls::{
    Content, EMPTY, Group, Place, Row, Streams, Text, Tried, first_other, first_wrong,
};
use crate::commands::lines_tests::{
    CONTROLLED, DOUBLED_SOON, DOUBLED_TWICE, INTERRUPTED, KEPT, LEFT, LEFT_BOTH, LEFT_LATER,
    PASSED_ON, RELEASED, SELECTED, SWITCHED, SWITCHED_ON, SWITCHED_ON_SOON,
};
use htl_samples::samples::{
    DOUBLED, DOUBLING, EMPTY_MODE, NESTED, PORT, READINGS, REFINED, SOMETIMES, TANKS, TWO_JOBS,
    TWO_MODES, TWO_MODULES,
};
use std::alloc::Global;

const SCRIPT: &str = "at 0\nsense s 3\nat 10\nsense s 5\nend 20\n";

const WHOLE: &str = "v 0 s 3\nv 0 u 7\nm 0 M m\nv 10 s 5\nend 20 jobs 0 e 6 s 2\n";

// Sums that wrap, and quotients that are rounded or have no divisor.
const ARITHMETIC: &str = "program P {
  communicator int a period 10 init 1;
  communicator int b period 10 init 1;
  communicator int c period 10 init 1;
  communicator int d period 10 init 1;
  communicator int e period 10 init 1;
  communicator int f period 10 init 1;
  module M start m {
    task t input () output (int a = -9223372036854775807 - 1, int b = (-9223372036854775807 - 1) / -1,
      int c = 7 % 0, int d = -7 / 2, int e = -7 % 2, int f = 9223372036854775807 + 1) worst 1;
    mode m period 10 {
      invoke t input () output ((a, 1), (b, 1), (c, 1), (d, 1), (e, 1), (f, 1));
    }
  }
}";

const COMPUTED: &str = "v 0 a 1
v 0 b 1
v 0 c 1
v 0 d 1
v 0 e 1
v 0 f 1
m 0 M m
j 0 1 M.m.t
d 1 M.m.t
v 10 a -9223372036854775808
v 10 b -9223372036854775808
v 10 c 0
v 10 d -3
v 10 e -1
v 10 f -9223372036854775808
end 10 jobs 1 e 21 s 2
";

// A source, a script and what is written.
const FIRST_RUNS: &[Row] = &[
    (
        Content::Text(EMPTY_MODE),
        EMPTY,
        SCRIPT,
        0,
        Content::Text(WHOLE),
        "",
    ),
    (
        Content::Text(EMPTY_MODE),
        EMPTY,
        "at 0\nsense s 3\nat 3\nat 7\nat 10\nsense s 5\nat 15\nend 20",
        0,
        Content::Text(WHOLE),
        "",
    ),
    (
        Content::Text(
            "program P { sensor int s period 10 init 0; communicator int u period 10 init 7; module M start m { mode m period 20 { } } } // x",
        ),
        EMPTY,
        SCRIPT,
        0,
        Content::Text(WHOLE),
        "",
    ),
    (
        Content::Text(
            "program P { sensor int s period 10 init 0; communicator int u period 10 init 7; }",
        ),
        EMPTY,
        SCRIPT,
        0,
        Content::Text("v 0 s 3\nv 0 u 7\nv 10 s 5\nend 20 jobs 0 e 0 s 0\n"),
        "",
    ),
    (
        Content::Text("program P { communicator int u period 10 init 7; }"),
        EMPTY,
        "end 0\n",
        0,
        Content::Text("v 0 u 7\nend 0 jobs 0 e 0 s 0\n"),
        "",
    ),
];

const SECOND_RUNS: &[Row] = &[
    (
        Content::Text("program P { }"),
        EMPTY,
        "# nothing\n\nend 7\n",
        0,
        Content::Text("end 7 jobs 0 e 0 s 0\n"),
        "",
    ),
    // a task that is never invoked
    (
        Content::Text(
            "program P { module M start m { abstract task t input () output () worst 1; mode m period 1 { } } }",
        ),
        EMPTY,
        "end 0\n",
        0,
        Content::Text("m 0 M m\nend 0 jobs 0 e 3 s 1\n"),
        "",
    ),
    // the longest run, in which 1,001 instants have something to do
    (
        Content::Text("program P { module M start m { mode m period 1000000 { } } }"),
        EMPTY,
        "end 1000000000\n",
        0,
        Content::Text("m 0 M m\nend 1000000000 jobs 0 e 3003 s 1001\n"),
        "",
    ),
    (
        Content::Text(DOUBLING),
        EMPTY,
        READINGS,
        0,
        Content::Text(DOUBLED),
        "",
    ),
    (
        Content::Text(DOUBLING),
        EMPTY,
        "at 0\nsense s 3\ntook M.m.dbl 1\nat 10\nsense s 5\nend 10\n",
        0,
        Content::Text(DOUBLED_SOON),
        "",
    ),
];

const THIRD_RUNS: &[Row] = &[
    (
        Content::Text(DOUBLING),
        EMPTY,
        "at 0\nsense s 3\nat 3\nat 7\nat 10\nsense s 5\nend 10\n",
        0,
        Content::Text(DOUBLED),
        "",
    ),
    (
        Content::Text(DOUBLING),
        EMPTY,
        "at 3\nsense s 4\ntook M.m.dbl 1\nend 30\n",
        0,
        Content::Text(DOUBLED_TWICE),
        "",
    ),
    (
        Content::Text(TWO_JOBS),
        EMPTY,
        "end 10\n",
        0,
        Content::Text(INTERRUPTED),
        "",
    ),
    (
        Content::Text(TWO_JOBS),
        EMPTY,
        "at 0\ntook M.m.a 1\nend 10\n",
        0,
        Content::Text(RELEASED),
        "",
    ),
    (
        Content::Text(PORT),
        EMPTY,
        "at 0\ntook M.m.p 1\nend 10\n",
        0,
        Content::Text(PASSED_ON),
        "",
    ),
];

const FOURTH_RUNS: &[Row] = &[
    (
        Content::Text(SOMETIMES),
        EMPTY,
        "at 10\nsense g 1\nend 20\n",
        0,
        Content::Text(SWITCHED_ON),
        "",
    ),
    (
        Content::Text(SOMETIMES),
        EMPTY,
        "at 10\nsense g 1\ntook N.on.fast 1\nend 20\n",
        0,
        Content::Text(SWITCHED_ON_SOON),
        "",
    ),
    (
        Content::Text(REFINED),
        EMPTY,
        "at 10\nsense g 1\nat 20\nsense g 0\nend 30\n",
        0,
        Content::Text(LEFT),
        "",
    ),
    (
        Content::Text(REFINED),
        EMPTY,
        "at 20\nsense g 1\nat 30\nsense g 0\nend 30\n",
        0,
        Content::Text(LEFT_LATER),
        "",
    ),
    (
        Content::Text(TANKS),
        EMPTY,
        "at 0\nsense h1 250\nsense h2 300\nend 500\n",
        0,
        Content::Text(CONTROLLED),
        "",
    ),
];

const LAST_RUNS: &[Row] = &[
    (
        Content::Text(TWO_MODES),
        EMPTY,
        "at 10\nsense g 1\nend 20\n",
        0,
        Content::Text(SWITCHED),
        "",
    ),
    (
        Content::Text(TWO_MODULES),
        EMPTY,
        "at 10\nsense h 1\nat 20\nsense g 1\nat 30\nsense h 0\nend 40\n",
        0,
        Content::Text(SELECTED),
        "",
    ),
    (
        Content::Text(NESTED),
        EMPTY,
        "at 10\nsense g 1\nat 20\nsense g 0\nend 30\n",
        0,
        Content::Text(LEFT_BOTH),
        "",
    ),
    (
        Content::Text(ARITHMETIC),
        EMPTY,
        "end 10\n",
        0,
        Content::Text(COMPUTED),
        "",
    ),
    // a switch to the mode that is running
    (
        Content::Made(Text::Edited(REFINED, &[("(g, rest)", "(g, m)")])),
        EMPTY,
        "at 10\nsense g 1\nend 20\n",
        0,
        Content::Text(KEPT),
        "",
    ),
];

// Whether `go` runs these sources, and `jobs` their objects; the first row that comes to something else.
fn first_other_run(alloc: Global, rows: &'static [Row]) -> Option<(&'static str, usize)> {
    let groups = [
        Group {
            name: "`go` runs sources",
            words: &["go", "A"],
            place: Place::Files,
            streams: Streams::Usual,
            rows,
        },
        Group {
            name: "`jobs` runs the objects of sources",
            words: &["jobs", "A"],
            place: Place::Compiled,
            streams: Streams::Usual,
            rows,
        },
    ];
    first_wrong(alloc, &groups)
}

const BY_PIECES: &[(Streams, u8, Content, &str)] = &[
    (Streams::Step(1), 0, Content::Text(WHOLE), ""),
    (Streams::Step(4096), 0, Content::Text(WHOLE), ""),
];

const DOUBLED_BY_PIECES: &[(Streams, u8, Content, &str)] = &[
    (Streams::Step(1), 0, Content::Text(DOUBLED), ""),
    (Streams::Step(4096), 0, Content::Text(DOUBLED), ""),
];

const SWITCHED_BY_PIECES: &[(Streams, u8, Content, &str)] = &[
    (Streams::Step(1), 0, Content::Text(SWITCHED_ON), ""),
    (Streams::Step(255), 0, Content::Text(SWITCHED_ON), ""),
    (Streams::Step(4096), 0, Content::Text(SWITCHED_ON), ""),
];

const TRIED: &[Tried] = &[
    Tried {
        name: "`go` reads its script by pieces, 0",
        words: &["go", "A"],
        place: Place::Files,
        contents: (Content::Text(EMPTY_MODE), EMPTY),
        script: SCRIPT,
        rows: BY_PIECES,
    },
    Tried {
        name: "`jobs` reads its script by pieces, 0",
        words: &["jobs", "A"],
        place: Place::Compiled,
        contents: (Content::Text(EMPTY_MODE), EMPTY),
        script: SCRIPT,
        rows: BY_PIECES,
    },
    Tried {
        name: "`go` reads its script by pieces, 1",
        words: &["go", "A"],
        place: Place::Files,
        contents: (Content::Text(DOUBLING), EMPTY),
        script: READINGS,
        rows: DOUBLED_BY_PIECES,
    },
    Tried {
        name: "`jobs` reads its script by pieces, 1",
        words: &["jobs", "A"],
        place: Place::Compiled,
        contents: (Content::Text(DOUBLING), EMPTY),
        script: READINGS,
        rows: DOUBLED_BY_PIECES,
    },
    Tried {
        name: "`go` reads its script by pieces, 2",
        words: &["go", "A"],
        place: Place::Files,
        contents: (Content::Text(SOMETIMES), EMPTY),
        script: "at 10\nsense g 1\nend 20\n",
        rows: SWITCHED_BY_PIECES,
    },
    Tried {
        name: "`jobs` reads its script by pieces, 2",
        words: &["jobs", "A"],
        place: Place::Compiled,
        contents: (Content::Text(SOMETIMES), EMPTY),
        script: "at 10\nsense g 1\nend 20\n",
        rows: SWITCHED_BY_PIECES,
    },
];

const RUNS: [&[Row]; 5] = [FIRST_RUNS, SECOND_RUNS, THIRD_RUNS, FOURTH_RUNS, LAST_RUNS];

#[test]
fn sources_run(rt: HostRuntime) {
    for rows in RUNS {
        same(&rt, first_other_run(rt.alloc(), rows), None);
    }
}

#[test]
fn scripts_are_read_by_pieces(rt: HostRuntime) {
    same(&rt, first_other(rt.alloc(), TRIED), None);
}
