// Sources that `go` and `compile` refuse, and sources at their limits.
use crate::asserts::same;
use crate::calls::{Content, EMPTY, Group, Piece, Place, Row, Streams, Text, first_wrong};
use htl_samples::samples::{
    DOUBLING, MORE_SELECTIONS, SELECTIONS, SOMETIMES, TWO_JOBS, TWO_MODULES,
};

// Sources that are refused: a fault of each kind, and broken form rules. `go` doesn't read its script, whose first read would fail.
const FAULTY: &[Row] = &[
    (
        Content::Text("program P { #"),
        EMPTY,
        "end 0\n",
        3,
        EMPTY,
        "htl: source char 12\n",
    ),
    // also where the grammar is left before it
    (
        Content::Text("program { } #"),
        EMPTY,
        "end 0\n",
        3,
        EMPTY,
        "htl: source char 12\n",
    ),
    (
        Content::Text("program P { communicator int u period 9223372036854775808 init 0; }"),
        EMPTY,
        "end 0\n",
        3,
        EMPTY,
        "htl: source number 38\n",
    ),
    (
        Content::Text("program aaaaaaaaaaaaaaaaaaaaaaaaaaaaaaaaaaaaaaaaaaaaaaaaa { }"),
        EMPTY,
        "end 0\n",
        3,
        EMPTY,
        "htl: source name-long 8\n",
    ),
    (
        Content::Text(""),
        EMPTY,
        "end 0\n",
        3,
        EMPTY,
        "htl: source syntax 0\n",
    ),
    (
        Content::Text("program P ;"),
        EMPTY,
        "end 0\n",
        3,
        EMPTY,
        "htl: source syntax 10\n",
    ),
    (
        Content::Text("program P {"),
        EMPTY,
        "end 0\n",
        3,
        EMPTY,
        "htl: source syntax 11\n",
    ),
    (
        Content::Text("program P { module M start m { } }"),
        EMPTY,
        "end 0\n",
        3,
        EMPTY,
        "htl: source unknown 27\n",
    ),
    (
        Content::Text(
            "program P { communicator int u period 1 init 0; communicator int u period 1 init 0; }",
        ),
        EMPTY,
        "end 0\n",
        3,
        EMPTY,
        "htl: source twice 65\n",
    ),
    (
        Content::Text("program P { communicator bool b period 1 init 3; }"),
        EMPTY,
        "end 0\n",
        3,
        EMPTY,
        "htl: source kind 46\n",
    ),
    (
        Content::Text("program P { } program Q { }"),
        EMPTY,
        "end 0\n",
        3,
        EMPTY,
        "htl: source not-a-tree 1\n",
    ),
    // a name rule, though a function before it has a wrong type
    (
        Content::Text(
            "program P { module M start m { task t input () output (int y = true) worst 1; mode m period 0 { } } }",
        ),
        EMPTY,
        "end 0\n",
        3,
        EMPTY,
        "htl: source kind 92\n",
    ),
    // a function of a wrong type, though a form rule is broken
    (
        Content::Text(
            "program P { module M start a { task t input () output (int y = true) worst 1; mode a period 10 { } mode b period 20 { } } }",
        ),
        EMPTY,
        "end 0\n",
        3,
        EMPTY,
        "htl: source type 63\n",
    ),
    (
        Content::Text(
            "program P { module M start a { mode a period 10 { } mode b period 20 { } } }",
        ),
        EMPTY,
        "end 0\n",
        4,
        EMPTY,
        "htl: ill-formed 1 at M.b have 20 need 10\n",
    ),
    (
        Content::Text(
            "program P { module A start m { mode m period 1000000 { } } module B start m { mode m period 999999 { } } }",
        ),
        EMPTY,
        "end 0\n",
        4,
        EMPTY,
        "htl: ill-formed 2 at B.m have 999999000000 need 1000000\n",
    ),
    (
        Content::Text(
            "program P { module A start m { mode m period 10 { } } module B start m { mode m period 330 { } } }",
        ),
        EMPTY,
        "end 0\n",
        4,
        EMPTY,
        "htl: ill-formed 2 at B.m have 33 need 32\n",
    ),
    (
        Content::Text(
            "program P { module A start m { mode m period 10 { } mode n period 10 { } } module B start m { mode m period 110 { } } }",
        ),
        EMPTY,
        "end 0\n",
        4,
        EMPTY,
        "htl: ill-formed 2 at B.m have 2048 need 1024\n",
    ),
    // an invocation of a refinement without a parent
    (
        Content::Text(
            "program P { module M start m { mode m period 10 program Q { } } } program Q { module N start n { task t input () output () worst 1; mode n period 10 { invoke t input () output (); } } }",
        ),
        EMPTY,
        "end 0\n",
        4,
        EMPTY,
        "htl: ill-formed 14 at N.n.t have 0 need 1\n",
    ),
    // two modules whose invocations have one parent
    (
        Content::Text(
            "program P { module M start m { abstract task a input () output () worst 2; mode m period 10 program Q { invoke a input () output (); } } } program Q { module N start n { task t input () output () worst 1; mode n period 10 { invoke t input () output () parent a; } } module O start o { task t input () output () worst 1; mode o period 10 { invoke t input () output () parent a; } } }",
        ),
        EMPTY,
        "end 0\n",
        4,
        EMPTY,
        "htl: ill-formed 15 at O.o.t have 1 need 0\n",
    ),
    // a comparison as the value of an int
    (
        Content::Made(Text::Edited(DOUBLING, &[("x * 2", "x < 2")])),
        EMPTY,
        "end 0\n",
        3,
        EMPTY,
        "htl: source type 148\n",
    ),
    // more time than the parent has
    (
        Content::Made(Text::Edited(SOMETIMES, &[("worst 3", "worst 5")])),
        EMPTY,
        "end 0\n",
        4,
        EMPTY,
        "htl: ill-formed 16 at N.on.fast have 5 need 4\n",
    ),
    // eleven ticks in ten
    (
        Content::Made(Text::Edited(TWO_JOBS, &[("worst 7", "worst 8")])),
        EMPTY,
        "end 0\n",
        5,
        EMPTY,
        "htl: unschedulable 0 from 0 to 10 demand 11\n",
    ),
    // so in the last of four root selections alone
    (
        Content::Made(Text::Edited(TWO_MODULES, &[("worst 5", "worst 8")])),
        EMPTY,
        "end 0\n",
        5,
        EMPTY,
        "htl: unschedulable 3 from 0 to 10 demand 11\n",
    ),
];

// ---- limits

// 512 tokens between two semicolons or braces.
const SUM: &[Piece] = &[
    Piece::Once("program P { module M start m { task t input () output (int y = 1"),
    Piece::Copies(249, " + 1"),
    Piece::Once(") worst 1; mode m period 1 { } } }"),
];

// 514 tokens.
const LONG_SUM: &[Piece] = &[
    Piece::Once("program P { module M start m { task t input () output (int y = 1"),
    Piece::Copies(250, " + 1"),
    Piece::Once(") worst 1; mode m period 1 { } } }"),
];

// A sum in brackets that holds 64 values at a time.
const NESTED_SUM: &[Piece] = &[
    Piece::Once("program P { module M start m { task t input () output (int y = "),
    Piece::Copies(63, "1 + ("),
    Piece::Once("1"),
    Piece::Copies(63, ")"),
    Piece::Once(") worst 1; mode m period 1 { } } }"),
];

// 65 values.
const DEEP_SUM: &[Piece] = &[
    Piece::Once("program P { module M start m { task t input () output (int y = "),
    Piece::Copies(64, "1 + ("),
    Piece::Once("1"),
    Piece::Copies(64, ")"),
    Piece::Once(") worst 1; mode m period 1 { } } }"),
];

const FITTING: &[Row] = &[
    (
        Content::Made(Text::Pieces(SUM)),
        EMPTY,
        "end 0\n",
        0,
        Content::Text("m 0 M m\nend 0 jobs 0 e 3 s 1\n"),
        "",
    ),
    (
        Content::Made(Text::Pieces(NESTED_SUM)),
        EMPTY,
        "end 0\n",
        0,
        Content::Text("m 0 M m\nend 0 jobs 0 e 3 s 1\n"),
        "",
    ),
];

const CHECKED: &[Row] = &[(
    Content::Made(Text::Pieces(SELECTIONS)),
    EMPTY,
    "",
    0,
    Content::Text("accepted selections 1024 positions 0\n"),
    "",
)];

const TOO_LARGE: &[Row] = &[
    (
        Content::Made(Text::Pieces(LONG_SUM)),
        EMPTY,
        "end 0\n",
        3,
        EMPTY,
        "htl: source long 1066\n",
    ),
    (
        Content::Made(Text::Pieces(DEEP_SUM)),
        EMPTY,
        "end 0\n",
        3,
        EMPTY,
        "htl: source deep 63\n",
    ),
    (
        Content::Made(Text::Pieces(MORE_SELECTIONS)),
        EMPTY,
        "end 0\n",
        3,
        EMPTY,
        "htl: source limit 10 count 1025\n",
    ),
];

// 1,048,576 bytes, and one more.
const BLANKS: &[Row] = &[
    (
        Content::Filled(b' ', 1_048_576),
        EMPTY,
        "",
        3,
        EMPTY,
        "htl: source syntax 1048576\n",
    ),
    (
        Content::Filled(b' ', 1_048_577),
        EMPTY,
        "",
        3,
        EMPTY,
        "htl: source too-long 1048577\n",
    ),
];

const FIRST_GROUPS: &[Group] = &[Group {
    name: "`compile` refuses sources",
    words: &["compile"],
    place: Place::Input,
    streams: Streams::Usual,
    rows: FAULTY,
}];

const SECOND_GROUPS: &[Group] = &[
    Group {
        name: "`go` refuses sources",
        words: &["go", "A"],
        place: Place::Files,
        streams: Streams::Fails(1, 0),
        rows: FAULTY,
    },
    Group {
        name: "sources fit their limits",
        words: &["go", "A"],
        place: Place::Files,
        streams: Streams::Usual,
        rows: FITTING,
    },
];

const THIRD_GROUPS: &[Group] = &[
    Group {
        name: "selections fit their limit",
        words: &["check", "A"],
        place: Place::Compiled,
        streams: Streams::Usual,
        rows: CHECKED,
    },
    Group {
        name: "`compile` refuses too large sources",
        words: &["compile"],
        place: Place::Input,
        streams: Streams::Usual,
        rows: TOO_LARGE,
    },
];

const LAST_GROUPS: &[Group] = &[
    Group {
        name: "`go` refuses too large sources",
        words: &["go", "A"],
        place: Place::Files,
        streams: Streams::Fails(1, 0),
        rows: TOO_LARGE,
    },
    Group {
        name: "inputs end at their limit",
        words: &["compile"],
        place: Place::Input,
        streams: Streams::Step(4096),
        rows: BLANKS,
    },
];

#[test]
fn calls_are_answered(rt: HostRuntime) {
    same(&rt, first_wrong(rt.alloc(), FIRST_GROUPS), None);
}

#[test]
fn further_calls_are_answered(rt: HostRuntime) {
    same(&rt, first_wrong(rt.alloc(), SECOND_GROUPS), None);
}

#[test]
fn later_calls_are_answered(rt: HostRuntime) {
    same(&rt, first_wrong(rt.alloc(), THIRD_GROUPS), None);
}

#[test]
fn last_calls_are_answered(rt: HostRuntime) {
    same(&rt, first_wrong(rt.alloc(), LAST_GROUPS), None);
}
