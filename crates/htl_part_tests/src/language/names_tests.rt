// Sources whose names break a rule.
use crate::asserts::same_in;
use crate::texts::judged;
use htl_compile::SourceFault;
use htl_samples::pieces::Piece;

// A text in two pieces, the second of which begins at the place of a fault.
type Cut = (&'static str, &'static str);

// Names that repeat an earlier one of their space.
const TWICE: &[Cut] = &[
    // a program
    ("program P { } program ", "P { }"),
    (
        "program P { module M start m { mode m period 1 program Q { } } } program Q { } program ",
        "Q { }",
    ),
    // a communicator, over the whole source
    (
        "program P { communicator int u period 1 init 0; communicator int ",
        "u period 1 init 0; }",
    ),
    (
        "program P { sensor bool u period 2 init true; communicator int ",
        "u period 1 init 0; }",
    ),
    (
        "program P { communicator int u period 1 init 0; module M start m { mode m period 1 program Q { } } } program Q { sensor int ",
        "u period 1 init 0; }",
    ),
    // a module, over the whole source
    (
        "program P { module M start m { mode m period 1 { } } module ",
        "M start n { mode n period 1 { } } }",
    ),
    (
        "program P { module M start m { mode m period 1 program Q { } } } program Q { module ",
        "M start m { mode m period 1 { } } }",
    ),
    // a task of the module
    (
        "program P { module M start m { task t input () output () worst 1; abstract task ",
        "t input (int x) output () worst 2; mode m period 1 { } } }",
    ),
    // a mode of the module
    (
        "program P { module M start m { mode m period 1 { } mode n period 1 { } mode ",
        "m period 1 { } } }",
    ),
    // inputs and outputs of a task
    (
        "program P { module M start m { task t input (int x, bool ",
        "x) output () worst 1; mode m period 1 { } } }",
    ),
    (
        "program P { module M start m { task t input () output (int y = 1, int ",
        "y = 2) worst 1; mode m period 1 { } } }",
    ),
    (
        "program P { module M start m { task t input (int x) output (int ",
        "x = 1) worst 1; mode m period 1 { } } }",
    ),
    (
        "program P { module M start m { abstract task t input (int x) output (bool ",
        "x) worst 1; mode m period 1 { } } }",
    ),
    // a port of the mode
    (
        "program P { module M start m { mode m period 1 { port int p; port bool q; port bool ",
        "p; } } }",
    ),
    // a task that is invoked in the mode
    (
        "program P { module M start m { task t input () output () worst 1; task u input () output () worst 1; mode m period 1 { invoke t input () output (); invoke u input () output (); invoke ",
        "t input () output (); } } }",
    ),
    // of two, the first in the source
    (
        "program P { module M start m { mode m period 1 { } mode ",
        "m period 1 { } } module M start m { mode m period 1 { } } }",
    ),
    // an unknown name before it, and behind it
    (
        "program P { module M start k { mode m period 1 { } mode ",
        "m period 1 { } } }",
    ),
    (
        "program P { module M start m { mode m period 1 { } mode ",
        "m period 1 program R { } } }",
    ),
    // a wrong kind before it, and behind it
    (
        "program P { communicator bool u period 0 init 3; communicator int ",
        "u period 1 init 0; }",
    ),
    (
        "program P { communicator int u period 1 init 0; communicator int ",
        "u period 0 init true; }",
    ),
    // programs that are no tree before it, and behind it
    (
        "program P { } program Q { } program R { communicator int u period 1 init 0; communicator int ",
        "u period 1 init 0; }",
    ),
    (
        "program P { communicator int u period 1 init 0; communicator int ",
        "u period 1 init 0; } program Q { }",
    ),
];

// Names that stand for nothing.
const UNKNOWN: &[Cut] = &[
    // the program of a mode
    (
        "program P { module M start m { mode m period 1 program ",
        "R { } } }",
    ),
    // the start mode: none, and one of another module
    ("program P { module M start ", "m { } }"),
    (
        "program P { module M start m { mode m period 1 { } } module N start ",
        "m { mode n period 1 { } } }",
    ),
    // an invoked task: none, and one of another module
    (
        "program P { module M start m { mode m period 1 { invoke ",
        "t input () output (); } } }",
    ),
    (
        "program P { module M start m { task t input () output () worst 1; mode m period 1 { } } module N start n { mode n period 1 { invoke ",
        "t input () output (); } } }",
    ),
    // a communicator that is read, and one that is written
    (
        "program P { module M start m { task t input (int x) output () worst 1; mode m period 1 { invoke t input ((",
        "u, 0)) output (); } } }",
    ),
    (
        "program P { module M start m { task t input () output (int y = 1) worst 1; mode m period 1 { port int p; invoke t input () output ((",
        "p, 1)); } } }",
    ),
    // a port: a communicator, and a port of another mode
    (
        "program P { communicator int u period 1 init 0; module M start m { task t input (int x) output () worst 1; mode m period 1 { invoke t input (",
        "u) output (); } } }",
    ),
    (
        "program P { module M start m { task t input (int x) output () worst 1; mode m period 1 { port int p; } mode n period 1 { invoke t input (",
        "p) output (); } } }",
    ),
    // a switch's target: none, and a mode of another module
    (
        "program P { module M start m { mode m period 1 { switch (true, ",
        "n); } } }",
    ),
    (
        "program P { module M start m { mode m period 1 { switch (true, ",
        "n); } } module N start n { mode n period 1 { } } }",
    ),
    // in a condition: no communicator, and a port
    (
        "program P { communicator bool b period 1 init true; module M start m { mode m period 1 { switch (b && ",
        "g, m); } } }",
    ),
    (
        "program P { module M start m { mode m period 1 { port bool p; switch (",
        "p, m); } } }",
    ),
    // in the value of an output: no input, the output, an earlier output, a communicator, an input of another task
    (
        "program P { module M start m { task t input (int x) output (int y = x + ",
        "z) worst 1; mode m period 1 { } } }",
    ),
    (
        "program P { module M start m { task t input (int x) output (int y = x + ",
        "y) worst 1; mode m period 1 { } } }",
    ),
    (
        "program P { module M start m { task t input () output (int y = 1, int z = ",
        "y) worst 1; mode m period 1 { } } }",
    ),
    (
        "program P { communicator int u period 1 init 0; module M start m { task t input () output (int y = ",
        "u) worst 1; mode m period 1 { } } }",
    ),
    (
        "program P { module M start m { task s input (int x) output () worst 1; task t input () output (int y = ",
        "x) worst 1; mode m period 1 { } } }",
    ),
    // of two, the first in the source
    (
        "program P { module M start ",
        "k { mode m period 1 program R { } } }",
    ),
    // a wrong kind before it, and behind it
    (
        "program P { communicator bool b period 0 init 3; module M start ",
        "k { mode m period 1 { } } }",
    ),
    ("program P { module M start ", "k { mode m period 0 { } } }"),
    // programs that are no tree before it, and behind it
    (
        "program P { } program Q { module M start ",
        "k { mode m period 1 { } } }",
    ),
    (
        "program P { module M start ",
        "k { mode m period 1 { } } } program Q { }",
    ),
];

// Names behind `parent` that stand for no invocation of the refined mode.
const PARENTS: &[Cut] = &[
    // in the root program
    (
        "program P { module M start m { task t input () output () worst 1; task a input () output () worst 1; mode m period 1 { invoke a input () output (); invoke t input () output () parent ",
        "a; } } }",
    ),
    // no task has the name
    (
        "program P { module M start m { mode m period 1 program Q { } } } program Q { module N start n { task t input () output () worst 1; mode n period 1 { invoke t input () output () parent ",
        "a; } } }",
    ),
    // a task of the refined mode's module that isn't invoked
    (
        "program P { module M start m { abstract task a input () output () worst 1; mode m period 1 program Q { } } } program Q { module N start n { task t input () output () worst 1; mode n period 1 { invoke t input () output () parent ",
        "a; } } }",
    ),
    // one that is invoked in another mode than the refined one
    (
        "program P { module M start m { abstract task a input () output () worst 1; mode m period 1 program Q { } mode k period 1 { invoke a input () output (); } } } program Q { module N start n { task t input () output () worst 1; mode n period 1 { invoke t input () output () parent ",
        "a; } } }",
    ),
    // one of the refinement itself
    (
        "program P { module M start m { mode m period 1 program Q { } } } program Q { module N start n { task t input () output () worst 1; mode n period 1 { invoke t input () output () parent ",
        "t; } } }",
    ),
    // one of the mode that the refined mode itself refines
    (
        "program P { module M start m { abstract task a input () output () worst 1; mode m period 1 program Q { invoke a input () output (); } } } program Q { module N start n { mode n period 1 program R { } } } program R { module O start o { task t input () output () worst 1; mode o period 1 { invoke t input () output () parent ",
        "a; } } }",
    ),
];

// Values and numbers of a wrong kind.
const KIND: &[Cut] = &[
    // initial values
    ("program P { communicator bool b period 1 init ", "3; }"),
    ("program P { communicator bool b period 1 init ", "-1; }"),
    ("program P { communicator bool b period 1 init ", "0; }"),
    ("program P { sensor int s period 1 init ", "false; }"),
    // periods of communicators
    ("program P { communicator int u period ", "0 init 0; }"),
    ("program P { sensor int s period ", "1000001 init 0; }"),
    // of modes
    ("program P { module M start m { mode m period ", "0 { } } }"),
    (
        "program P { module M start m { mode m period ",
        "1000001 { } } }",
    ),
    // worst cases
    (
        "program P { module M start m { task t input () output () worst ",
        "0; mode m period 1 { } } }",
    ),
    (
        "program P { module M start m { abstract task t input () output () worst ",
        "1000001; mode m period 1 { } } }",
    ),
    // instances
    (
        "program P { communicator int u period 1 init 0; module M start m { task t input (int x) output () worst 1; mode m period 1 { invoke t input ((u, ",
        "1000001)) output (); } } }",
    ),
    (
        "program P { communicator int u period 1 init 0; module M start m { task t input () output (int y = 1) worst 1; mode m period 1 { invoke t input () output ((u, ",
        "1000001)); } } }",
    ),
    (
        "program P { communicator int u period 1 init 0; module M start m { task t input () output (int y = 1) worst 1; mode m period 1 { invoke t input () output ((u, ",
        "9223372036854775807)); } } }",
    ),
    // of two, the first in the source
    (
        "program P { communicator bool b period ",
        "0 init 3; module M start m { mode m period 0 { } } }",
    ),
    (
        "program P { communicator bool b period 1 init true; module M start m { task t input () output () worst ",
        "0; mode m period 0 { } } }",
    ),
    // programs that are no tree before it, and behind it
    (
        "program P { } program Q { communicator int u period ",
        "0 init 0; }",
    ),
    (
        "program P { communicator int u period ",
        "0 init 0; } program Q { }",
    ),
    // an unknown parent before it
    (
        "program P { module M start m { task t input () output () worst 1; mode m period 1 { invoke t input () output () parent a; } mode n period ",
        "0 { } } }",
    ),
];

// What is told at the place of a fault.
#[derive(Clone, Copy)]
enum Told {
    Twice,
    Unknown,
    Kind,
}

impl Told {
    fn at(self, at: u64) -> SourceFault {
        match self {
            Told::Twice => SourceFault::Twice { at },
            Told::Unknown => SourceFault::Unknown { at },
            Told::Kind => SourceFault::Kind { at },
        }
    }
}

const TOLD: &[(Told, &[Cut])] = &[
    (Told::Twice, TWICE),
    (Told::Unknown, UNKNOWN),
    (Told::Unknown, PARENTS),
    (Told::Kind, KIND),
];

#[test]
fn broken_names_are_told(rt: HostRuntime) {
    for (told, rows) in TOLD {
        for (front, back) in *rows {
            let fault = told.at(front.len() as u64);
            let pieces = [Piece::Once(front), Piece::Once(back)];
            same_in(
                &rt,
                front,
                judged(rt.alloc(), &pieces),
                Ok(Some(Err(fault))),
            );
        }
    }
}
