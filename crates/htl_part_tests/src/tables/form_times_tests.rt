// Sources that break a form rule on times or ends, or several rules.
use crate::tables::form_tests::Row;

// Periods and offsets.
pub const TIMES: &[Row] = &[
    // 1: the modes of a module have one period
    (
        "program P { module M start a { mode a period 10 { } mode b period 20 { } } }",
        1,
        (0, 1, None),
        20,
        10,
    ),
    (
        "program P { module M start b { mode a period 10 { } mode b period 20 { } } }",
        1,
        (0, 1, None),
        20,
        10,
    ),
    // in a refinement it is the refined mode's: the first mode too
    (
        "program P { module M start m { mode m period 10 program Q { } } } program Q { module N start n { mode n period 20 { } mode k period 10 { } } }",
        1,
        (1, 1, None),
        20,
        10,
    ),
    (
        "program P { module M start m { mode m period 10 program Q { } } } program Q { module N start n { mode n period 20 { } mode k period 20 { } } }",
        1,
        (1, 1, None),
        20,
        10,
    ),
    (
        "program P { module M start m { mode m period 10 program Q { } } } program Q { module N start n { mode n period 10 { } mode k period 20 { } } }",
        1,
        (1, 2, None),
        20,
        10,
    ),
    (
        "program P { module M start m { mode m period 10 program Q { } } } program Q { module N start n { mode n period 10 program R { } } } program R { module O start o { mode o period 5 { } } }",
        1,
        (2, 2, None),
        5,
        10,
    ),
    // 2: the multiple of the periods up to each root module is a million at most
    (
        "program P { module A start m { mode m period 1000000 { } } module B start m { mode m period 999999 { } } module C start m { mode m period 10 { } } }",
        2,
        (1, 1, None),
        999_999_000_000,
        1_000_000,
    ),
    // there are 32 starts at most, which are those of all: the last root module's first mode is the site
    (
        "program P { module A start m { mode m period 10 { } } module B start n { mode m period 330 { } mode n period 330 { } } }",
        2,
        (1, 1, None),
        33,
        32,
    ),
    (
        "program P { module A start m { mode m period 10 { } } module B start m { mode m period 330 { } } module C start m { mode m period 10 { } } }",
        2,
        (2, 2, None),
        33,
        32,
    ),
    (
        "program P { module A start m { mode m period 10 program Q { } } module B start m { mode m period 330 { } } } program Q { module N start n { mode n period 10 { } } }",
        2,
        (2, 2, None),
        33,
        32,
    ),
    // 1,024 paths at most; they are told up to a cap
    (
        "program P { module A start m { mode m period 10 { } mode n period 10 { } } module B start m { mode m period 110 { } } }",
        2,
        (1, 2, None),
        2_048,
        1_024,
    ),
    (
        "program P { module A start m { mode m period 10 { } mode n period 10 { } } module B start m { mode m period 320 { } } }",
        2,
        (1, 2, None),
        4_294_967_295,
        1_024,
    ),
    // 128 positions in a path at most: here five in each of 26 rounds
    (
        "program P { module A start m { task a input () output () worst 1; task b input () output () worst 1; task c input () output () worst 1; task d input () output () worst 1; task e input () output () worst 1; mode m period 10 { invoke a input () output (); invoke b input () output (); invoke c input () output (); invoke d input () output (); invoke e input () output (); } } module B start m { mode m period 260 { } } }",
        2,
        (1, 1, None),
        130,
        128,
    ),
    // 3: the period of what a mode reads, writes or tests divides its own
    (
        "program P { communicator int u period 3 init 0; module M start m { task t input (int x) output () worst 1; mode m period 10 { invoke t input ((u, 0)) output (); } } }",
        3,
        (0, 0, Some(0)),
        3,
        10,
    ),
    (
        "program P { communicator int u period 20 init 0; module M start m { task t input (int x) output () worst 1; mode m period 10 { invoke t input ((u, 0)) output (); } } }",
        3,
        (0, 0, Some(0)),
        20,
        10,
    ),
    (
        "program P { communicator int u period 3 init 0; module M start m { task t input () output (int y = 1) worst 1; mode m period 10 { invoke t input () output ((u, 2)); } } }",
        3,
        (0, 0, Some(0)),
        3,
        10,
    ),
    (
        "program P { sensor bool g period 3 init true; module M start m { mode m period 10 { switch (true, m); switch (g, m); } } }",
        3,
        (0, 0, None),
        3,
        10,
    ),
    // inputs before outputs, each by place
    (
        "program P { communicator int w period 4 init 0; communicator int u period 3 init 0; module M start m { task t input (int x) output (int y = x) worst 1; mode m period 10 { invoke t input ((u, 0)) output ((w, 1)); } } }",
        3,
        (0, 0, Some(0)),
        3,
        10,
    ),
    (
        "program P { communicator int u period 3 init 0; communicator int w period 4 init 0; module M start m { task t input (int x, int y) output () worst 1; mode m period 10 { invoke t input ((w, 0), (u, 0)) output (); } } }",
        3,
        (0, 0, Some(0)),
        4,
        10,
    ),
    // a condition's communicators in the order in which it names them
    (
        "program P { sensor bool g period 3 init true; sensor bool h period 4 init true; module M start m { mode m period 10 { switch (h && g, m); } } }",
        3,
        (0, 0, None),
        4,
        10,
    ),
    // switches behind the invocations of their mode
    (
        "program P { sensor bool g period 3 init true; communicator int w period 4 init 0; module M start m { task n input () output () worst 1; task t input (int x) output () worst 1; mode m period 10 { invoke n input () output (); invoke t input ((w, 0)) output (); switch (g, m); } } }",
        3,
        (0, 0, Some(1)),
        4,
        10,
    ),
    // and before the next mode
    (
        "program P { sensor bool g period 3 init true; communicator int w period 4 init 0; module M start m { task t input (int x) output () worst 1; mode m period 10 { switch (g, m); } mode n period 10 { invoke t input ((w, 0)) output (); } } }",
        3,
        (0, 0, None),
        3,
        10,
    ),
    // 4: a write not behind the period's end, and behind its start
    (
        "program P { communicator int u period 10 init 0; module M start m { task t input () output (int y = 1) worst 1; mode m period 10 { invoke t input () output ((u, 2)); } } }",
        4,
        (0, 0, Some(0)),
        20,
        10,
    ),
    (
        "program P { communicator int u period 10 init 0; module M start m { task t input () output (int y = 1) worst 1; mode m period 10 { invoke t input () output ((u, 0)); } } }",
        4,
        (0, 0, Some(0)),
        0,
        10,
    ),
    (
        "program P { communicator int u period 10 init 0; communicator int w period 10 init 0; module M start m { task t input () output (int y = 1, int z = 2) worst 1; mode m period 10 { invoke t input () output ((u, 1), (w, 3)); } } }",
        4,
        (0, 0, Some(0)),
        30,
        10,
    ),
    // a read before the period's end
    (
        "program P { communicator int u period 10 init 0; module M start m { task t input (int x) output () worst 1; mode m period 10 { invoke t input ((u, 1)) output (); } } }",
        4,
        (0, 0, Some(0)),
        10,
        10,
    ),
    // inputs before outputs
    (
        "program P { communicator int u period 10 init 0; module M start m { task t input (int x) output (int y = x) worst 1; mode m period 10 { invoke t input ((u, 1)) output ((u, 2)); } } }",
        4,
        (0, 0, Some(0)),
        10,
        10,
    ),
    // 6: a window isn't empty
    (
        "program P { communicator int u period 5 init 0; module M start m { task t input (int x) output (int y = x) worst 1; mode m period 10 { invoke t input ((u, 1)) output ((u, 1)); } } }",
        6,
        (0, 0, Some(0)),
        5,
        5,
    ),
    // the latest read and the earliest write
    (
        "program P { communicator int u period 1 init 0; communicator int w period 1 init 0; module M start m { task t input (int x, int y) output (int z = x, int v = y) worst 1; mode m period 10 { invoke t input ((u, 7), (u, 0)) output ((w, 9), (u, 3)); } } }",
        6,
        (0, 0, Some(0)),
        7,
        3,
    ),
    // 7: a worst case isn't longer than the period
    (
        "program P { module M start m { task t input () output () worst 11; mode m period 10 { invoke t input () output (); } } }",
        7,
        (0, 0, Some(0)),
        11,
        10,
    ),
];

// 5: inputs and outputs are as many as the task's, and of its types.
pub const ENDS: &[Row] = &[
    (
        "program P { module M start m { task t input (int x) output () worst 1; mode m period 10 { invoke t input () output (); } } }",
        5,
        (0, 0, Some(0)),
        0,
        1,
    ),
    (
        "program P { communicator int u period 10 init 0; module M start m { task t input () output () worst 1; mode m period 10 { invoke t input ((u, 0)) output (); } } }",
        5,
        (0, 0, Some(0)),
        1,
        0,
    ),
    (
        "program P { module M start m { task t input () output (int y = 1, int z = 2) worst 1; mode m period 10 { invoke t input () output (); } } }",
        5,
        (0, 0, Some(0)),
        0,
        2,
    ),
    (
        "program P { communicator int u period 10 init 0; module M start m { task t input () output () worst 1; mode m period 10 { invoke t input () output ((u, 1)); } } }",
        5,
        (0, 0, Some(0)),
        1,
        0,
    ),
    // types: 0 for int, 1 for bool
    (
        "program P { communicator int u period 10 init 0; module M start m { task t input (bool x) output () worst 1; mode m period 10 { invoke t input ((u, 0)) output (); } } }",
        5,
        (0, 0, Some(0)),
        0,
        1,
    ),
    (
        "program P { communicator bool b period 10 init true; module M start m { task t input () output (int y = 1) worst 1; mode m period 10 { invoke t input () output ((b, 1)); } } }",
        5,
        (0, 0, Some(0)),
        1,
        0,
    ),
    (
        "program P { module M start m { task w input () output (bool y = true) worst 1; task t input (int x) output () worst 1; mode m period 10 { port bool p; invoke w input () output (p); invoke t input (p) output (); } } }",
        5,
        (0, 0, Some(1)),
        1,
        0,
    ),
    (
        "program P { module M start m { task w input () output (bool y = true) worst 1; mode m period 10 { port int p; invoke w input () output (p); } } }",
        5,
        (0, 0, Some(0)),
        0,
        1,
    ),
    // the count of inputs before that of outputs
    (
        "program P { module M start m { task t input (int x, int z) output (int y = 1) worst 1; mode m period 10 { invoke t input () output (); } } }",
        5,
        (0, 0, Some(0)),
        0,
        2,
    ),
    // counts before types
    (
        "program P { communicator bool b period 10 init true; module M start m { task t input (int x) output (int y = 1) worst 1; mode m period 10 { invoke t input ((b, 0)) output (); } } }",
        5,
        (0, 0, Some(0)),
        0,
        1,
    ),
    // types of inputs before those of outputs
    (
        "program P { communicator int u period 10 init 0; communicator bool b period 10 init true; module M start m { task t input (int x) output (bool y = true) worst 1; mode m period 10 { invoke t input ((b, 0)) output ((u, 1)); } } }",
        5,
        (0, 0, Some(0)),
        1,
        0,
    ),
    // by place
    (
        "program P { communicator int u period 10 init 0; communicator bool b period 10 init true; module M start m { task t input (bool x, int y) output () worst 1; mode m period 10 { invoke t input ((u, 0), (b, 0)) output (); } } }",
        5,
        (0, 0, Some(0)),
        0,
        1,
    ),
    (
        "program P { communicator int u period 10 init 0; communicator bool b period 10 init true; module M start m { task t input () output (int y = 1, int z = 2) worst 1; mode m period 10 { invoke t input () output ((u, 1), (b, 1)); } } }",
        5,
        (0, 0, Some(0)),
        1,
        0,
    ),
];

// Sources that break several rules, or one at several places.
pub const SEVERAL: &[Row] = &[
    // 7 in the first invocation, 4 in the second
    (
        "program P { communicator int u period 10 init 0; module M start m { task t input () output () worst 11; task r input () output (int y = 1) worst 1; mode m period 10 { invoke t input () output (); invoke r input () output ((u, 2)); } } }",
        4,
        (0, 0, Some(1)),
        20,
        10,
    ),
    // 2 in the second module, 3 in the first
    (
        "program P { sensor bool g period 3 init true; module A start m { mode m period 10 { switch (g, m); } } module B start m { mode m period 330 { } } }",
        2,
        (1, 1, None),
        33,
        32,
    ),
    // 2 in the second module, 1 in the third
    (
        "program P { module A start m { mode m period 10 { } } module B start m { mode m period 330 { } } module C start m { mode m period 10 { } mode n period 5 { } } }",
        1,
        (2, 3, None),
        5,
        10,
    ),
    // 12 in the first mode, 9 in the second, 3 in the third
    (
        "program P { communicator int u period 10 init 0; sensor bool g period 3 init true; module M start m { task t input () output (int y = 1, int z = 2) worst 1; task r input (int x) output (int y = x) worst 1; mode m period 10 { invoke t input () output ((u, 1), (u, 1)); } mode n period 10 { port int p; invoke r input (p) output (p); } mode k period 10 { switch (g, k); } } }",
        3,
        (0, 2, None),
        3,
        10,
    ),
    // 11 in the first invocation, 10 in the last
    (
        "program P { sensor int s period 10 init 0; module M start m { task w input () output (int y = 1) worst 1; abstract task a input () output (int y) worst 1; task t input (int x) output () worst 1; mode m period 10 { port int p; invoke w input () output ((s, 1)); invoke a input () output (p); invoke t input (p) output (); } } }",
        10,
        (0, 0, Some(2)),
        0,
        0,
    ),
    // 8 in the first invocation, 5 in the second
    (
        "program P { module M start m { task t input (int x) output () worst 1; task r input (int x) output () worst 1; mode m period 10 { port int p; invoke t input (p) output (); invoke r input () output (); } } }",
        5,
        (0, 0, Some(1)),
        0,
        1,
    ),
    // 7 in a refinement, and in a root module that stands before it in the source and behind it in the tree
    (
        "program P { module A start m { mode m period 10 program Q { } } module B start m { task t input () output () worst 12; mode m period 10 { invoke t input () output (); } } } program Q { module N start n { task t input () output () worst 11; mode n period 10 { invoke t input () output (); } } }",
        7,
        (1, 1, Some(0)),
        11,
        10,
    ),
];
