// Sources that are no tree of programs, and sources at the limits.
use crate::asserts::{same, same_in};
use crate::texts::{judged, judged_text};
use htl_compile::SourceFault;
use htl_samples::pieces::{Piece, push, push_number};
use std::alloc::{AllocError, Global};

// A text, and its fault where it has no tables.
type Source = (&'static [Piece], Option<SourceFault>);

// Programs that are no tree, with the first that is out of place.
const NO_TREES: &[Source] = &[
    // no mode names it
    (
        &[Piece::Once("program P { } program Q { }")],
        Some(SourceFault::NotATree { program: 1 }),
    ),
    (
        &[Piece::Once(
            "program P { module M start m { mode m period 1 program Q { } } } program Q { } program R { }",
        )],
        Some(SourceFault::NotATree { program: 2 }),
    ),
    // two modes name it: of one module, of two programs
    (
        &[Piece::Once(
            "program P { module M start m { mode m period 1 program Q { } mode n period 1 program Q { } } } program Q { }",
        )],
        Some(SourceFault::NotATree { program: 1 }),
    ),
    (
        &[Piece::Once(
            "program P { module M start m { mode m period 1 program Q { } mode n period 1 program R { } } } program Q { } program R { module N start n { mode n period 1 program Q { } } }",
        )],
        Some(SourceFault::NotATree { program: 1 }),
    ),
    // it names itself, apart from the root
    (
        &[Piece::Once(
            "program P { } program Q { module M start m { mode m period 1 program Q { } } }",
        )],
        Some(SourceFault::NotATree { program: 1 }),
    ),
    // two name one another, apart from the root
    (
        &[Piece::Once(
            "program P { } program Q { module M start m { mode m period 1 program R { } } } program R { module N start n { mode n period 1 program Q { } } }",
        )],
        Some(SourceFault::NotATree { program: 1 }),
    ),
    // one mode names it, in a program that isn't reached
    (
        &[Piece::Once(
            "program P { } program Q { } program R { module N start n { mode n period 1 program Q { } mode k period 1 program R { } } }",
        )],
        Some(SourceFault::NotATree { program: 1 }),
    ),
    // it is reached, and a mode of a ring names it too
    (
        &[Piece::Once(
            "program P { module M start m { mode m period 1 program Q { } } } program Q { } program R { module N start n { mode n period 1 program R { } mode k period 1 program Q { } } }",
        )],
        Some(SourceFault::NotATree { program: 1 }),
    ),
    // a mode names the root: its own, and one below it
    (
        &[Piece::Once("program P { module M start m { mode m period 1 program P { } } }")],
        Some(SourceFault::NotATree { program: 0 }),
    ),
    (
        &[Piece::Once(
            "program P { module M start m { mode m period 1 program Q { } } } program Q { module N start n { mode n period 1 program P { } } }",
        )],
        Some(SourceFault::NotATree { program: 0 }),
    ),
    // an unknown parent before it
    (
        &[Piece::Once(
            "program P { module M start m { task t input () output () worst 1; mode m period 1 { invoke t input () output () parent a; } } } program Q { }",
        )],
        Some(SourceFault::NotATree { program: 1 }),
    ),
];

// Sources that keep the rules on names.
const KEPT: &[Source] = &[
    (&[Piece::Once("program P { }")], None),
    // one name in different spaces, and in different items of a space
    (
        &[Piece::Once(
            "program a { communicator int a period 1 init 0; communicator int b period 1 init 0; module a start a { task a input (int a) output (int b = a) worst 1; task b input (int a) output (int b = a) worst 1; mode a period 1 program b { port int a; port int b; invoke a input (a) output (b); invoke b input ((a, 0)) output (a); switch (a == b, a); } mode b period 1 { port int a; invoke a input ((b, 0)) output (a); } } } program b { module b start a { task a input (int a) output (int b = a) worst 1; mode a period 1 { port int a; invoke a input (a) output ((a, 1)) parent a; } } }",
        )],
        None,
    ),
    // a program before the one that names it
    (
        &[Piece::Once(
            "program P { module M start m { mode m period 1 program R { } } } program Q { } program R { module N start n { mode n period 1 program Q { } } }",
        )],
        None,
    ),
    // numbers at their ends
    (
        &[Piece::Once(
            "program P { communicator int u period 1 init -9223372036854775807; sensor bool b period 1000000 init false; module M start m { task t input (int x) output (int y = x) worst 1000000; mode m period 1000000 { invoke t input ((u, 1000000)) output ((u, 1000000)); } } }",
        )],
        None,
    ),
    (
        &[Piece::Once(
            "program P { communicator int u period 01 init -0; module M start m { task t input (int x) output () worst 1; mode m period 1 { invoke t input ((u, 0)) output (); } } }",
        )],
        None,
    ),
];

// A full list, and one item more.
const LISTS: &[Source] = &[
    // communicators
    (
        &[
            Piece::Once("program P {"),
            Piece::Numbered(1_024, " communicator int c", " period 1 init 0;"),
            Piece::Once(" }"),
        ],
        None,
    ),
    (
        &[
            Piece::Once("program P {"),
            Piece::Numbered(1_025, " communicator int c", " period 1 init 0;"),
            Piece::Once(" }"),
        ],
        Some(SourceFault::Limit {
            which: 1,
            count: 1_025,
        }),
    ),
    // modules
    (
        &[
            Piece::Once("program P {"),
            Piece::Numbered(64, " module M", " start m { mode m period 1 { } }"),
            Piece::Once(" }"),
        ],
        None,
    ),
    (
        &[
            Piece::Once("program P {"),
            Piece::Numbered(65, " module M", " start m { mode m period 1 { } }"),
            Piece::Once(" }"),
        ],
        Some(SourceFault::Limit {
            which: 2,
            count: 65,
        }),
    ),
    // modes
    (
        &[
            Piece::Once("program P { module M start m0 {"),
            Piece::Numbered(256, " mode m", " period 1 { }"),
            Piece::Once(" } }"),
        ],
        None,
    ),
    (
        &[
            Piece::Once("program P { module M start m0 {"),
            Piece::Numbered(257, " mode m", " period 1 { }"),
            Piece::Once(" } }"),
        ],
        Some(SourceFault::Limit {
            which: 3,
            count: 257,
        }),
    ),
    // ports
    (
        &[
            Piece::Once("program P { module M start m { mode m period 1 {"),
            Piece::Numbered(4_096, " port int p", ";"),
            Piece::Once(" } } }"),
        ],
        None,
    ),
    (
        &[
            Piece::Once("program P { module M start m { mode m period 1 {"),
            Piece::Numbered(4_097, " port int p", ";"),
            Piece::Once(" } } }"),
        ],
        Some(SourceFault::Limit {
            which: 4,
            count: 4_097,
        }),
    ),
    // tasks
    (
        &[
            Piece::Once("program P { module M start m {"),
            Piece::Numbered(4_096, " task t", " input () output () worst 1;"),
            Piece::Once(" mode m period 1 { } } }"),
        ],
        None,
    ),
    (
        &[
            Piece::Once("program P { module M start m {"),
            Piece::Numbered(4_097, " task t", " input () output () worst 1;"),
            Piece::Once(" mode m period 1 { } } }"),
        ],
        Some(SourceFault::Limit {
            which: 5,
            count: 4_097,
        }),
    ),
    // switches
    (
        &[
            Piece::Once("program P { module M start m { mode m period 1 {"),
            Piece::Numbered(4_096, " switch (", " < 1, m);"),
            Piece::Once(" } } }"),
        ],
        None,
    ),
    (
        &[
            Piece::Once("program P { module M start m { mode m period 1 {"),
            Piece::Numbered(4_097, " switch (", " < 1, m);"),
            Piece::Once(" } } }"),
        ],
        Some(SourceFault::Limit {
            which: 7,
            count: 4_097,
        }),
    ),
];

// Eight levels of programs, each named by a mode of the one before it, and nine.
const LEVELS: &[Source] = &[
    (
        &[Piece::Once(
            "program P0 { module M1 start m { mode m period 1 program P1 { } } } program P1 { module M2 start m { mode m period 1 program P2 { } } } program P2 { module M3 start m { mode m period 1 program P3 { } } } program P3 { module M4 start m { mode m period 1 program P4 { } } } program P4 { module M5 start m { mode m period 1 program P5 { } } } program P5 { module M6 start m { mode m period 1 program P6 { } } } program P6 { module M7 start m { mode m period 1 program P7 { } } } program P7 { }",
        )],
        None,
    ),
    (
        &[Piece::Once(
            "program P0 { module M1 start m { mode m period 1 program P1 { } } } program P1 { module M2 start m { mode m period 1 program P2 { } } } program P2 { module M3 start m { mode m period 1 program P3 { } } } program P3 { module M4 start m { mode m period 1 program P4 { } } } program P4 { module M5 start m { mode m period 1 program P5 { } } } program P5 { module M6 start m { mode m period 1 program P6 { } } } program P6 { module M7 start m { mode m period 1 program P7 { } } } program P7 { module M8 start m { mode m period 1 program P8 { } } } program P8 { }",
        )],
        Some(SourceFault::Limit { which: 9, count: 9 }),
    ),
];

// A name behind `parent` that stands for nothing, in a source of 65 modules.
const ORPHAN: &[Source] = &[(
    &[
        Piece::Once(
            "program P { module M start m { task t input () output () worst 1; mode m period 1 { invoke t input () output () parent ",
        ),
        Piece::Once("a; } }"),
        Piece::Numbered(64, " module M", " start m { mode m period 1 { } }"),
        Piece::Once(" }"),
    ],
    Some(SourceFault::Unknown { at: 119 }),
)];

// The number of the first source that has another answer.
fn first_wrong(alloc: Global, sources: &[Source]) -> Option<usize> {
    for (k, (pieces, fault)) in sources.iter().enumerate() {
        let want = match fault {
            Some(fault) => Err(*fault),
            None => Ok(()),
        };
        if judged(alloc, pieces) != Ok(Some(want)) {
            return Some(k);
        }
    }
    None
}

#[test]
fn sources_are_judged(rt: HostRuntime) {
    let tables = [
        ("programs that are no tree", NO_TREES),
        ("names that keep the rules", KEPT),
        ("lists end at their limits", LISTS),
        ("programs have at most 8 levels", LEVELS),
        ("an unknown parent stands before a limit", ORPHAN),
    ];
    for (name, sources) in tables {
        same_in(&rt, name, first_wrong(rt.alloc(), sources), None);
    }
}

// For each module, how many tasks each of its modes invokes.
type Counts = &'static [&'static [usize]];

// Invocations that keep the limits, and invocations beyond one, with its number and the count.
const INVOCATIONS: &[(Counts, Option<(u8, u32)>)] = &[
    (&[&[128]], None),
    (&[&[128; 16]], None),
    (&[&[64], &[64]], None),
    (&[&[1, 64, 2], &[3, 64]], None),
    (
        &[
            &[0; 2], &[0; 2], &[0; 2], &[0; 2], &[0; 2], &[0; 2], &[0; 2], &[0; 2], &[0; 2],
            &[0; 2],
        ],
        None,
    ),
    (&[&[129]], Some((8, 129))),
    (&[&[1, 129, 2]], Some((8, 129))),
    (
        &[&[
            128, 128, 128, 128, 128, 128, 128, 128, 128, 128, 128, 128, 128, 128, 128, 128, 1,
        ]],
        Some((6, 2_049)),
    ),
    (&[&[65], &[64]], Some((11, 129))),
    (&[&[1, 65, 2], &[64, 3]], Some((11, 129))),
    (&[&[0; 41], &[0; 5], &[0; 5]], Some((10, 1_025))),
    // two limits: the lower number
    (&[&[129; 16]], Some((6, 2_064))),
    (&[&[129], &[0; 256]], Some((3, 257))),
];

// Puts a mode that invokes so many tasks behind a text.
fn push_mode(
    alloc: Global,
    text: &mut String,
    number: usize,
    count: usize,
) -> Result<(), AllocError> {
    push_number(alloc, text, number, (" mode m", " period 1 {"))?;
    let invoked = Piece::Numbered(count, " invoke t", " input () output ();");
    push(alloc, text, invoked)?;
    text.push_str(" }")
}

// A module with 129 tasks and these modes.
fn push_module(
    alloc: Global,
    text: &mut String,
    number: usize,
    modes: &[usize],
) -> Result<(), AllocError> {
    push_number(alloc, text, number, (" module M", " start m0 {"))?;
    let tasks = Piece::Numbered(129, " task t", " input () output () worst 1;");
    push(alloc, text, tasks)?;
    for (k, count) in modes.iter().enumerate() {
        push_mode(alloc, text, k, *count)?;
    }
    text.push_str(" }")
}

fn modules(alloc: Global, counts: &[&[usize]]) -> Result<String, AllocError> {
    let mut text = String::from_str(alloc, "program P {")?;
    for (k, modes) in counts.iter().enumerate() {
        push_module(alloc, &mut text, k, modes)?;
    }
    text.push_str(" }")?;
    Ok(text)
}

// Whether these modules are a source, or the first name rule that they break.
fn judged_modules(
    alloc: Global,
    counts: &[&[usize]],
) -> Result<Option<Result<(), SourceFault>>, AllocError> {
    let text = modules(alloc, counts)?;
    Ok(judged_text(alloc, text.as_bytes()))
}

#[test]
fn invocations_end_at_their_limits(rt: HostRuntime) {
    for (counts, exceeded) in INVOCATIONS {
        let want = match *exceeded {
            Some((which, count)) => Err(SourceFault::Limit { which, count }),
            None => Ok(()),
        };
        same(&rt, judged_modules(rt.alloc(), counts), Ok(Some(want)));
    }
}
