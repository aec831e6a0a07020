// Sources that break one form rule each, and sources that just keep it.
use crate::asserts::holds_in;
use crate::tables::form_times_tests::{ENDS, SEVERAL, TIMES};
use crate::texts::tables_of;
use htl_form::form;
use htl_model::FormFault;
use std::alloc::Global;

// A text, and the rule that it breaks: its number; the module, the mode and the invocation of the site; what is there,
// and what the rule asks for.
pub type Row = (&'static str, u8, (u16, u16, Option<u16>), u64, u64);

// What the form rules answer to a text that has tables.
fn answer(alloc: Global, text: &str) -> Option<Result<(), FormFault>> {
    match tables_of(alloc, text.as_bytes()) {
        Some(Ok(tables)) => Some(form(&tables)),
        _ => None,
    }
}

fn is_broken(alloc: Global, row: &Row) -> bool {
    let (text, rule, (module, mode, inv), have, need) = *row;
    let fault = FormFault {
        rule,
        module,
        mode,
        inv,
        have,
        need,
    };
    answer(alloc, text) == Some(Err(fault))
}

fn is_kept(alloc: Global, text: &str) -> bool {
    answer(alloc, text) == Some(Ok(()))
}

// Ports.
const PORTS: &[Row] = &[
    // 8: nobody writes a port that is read
    (
        "program P { module M start m { task t input (int x) output () worst 1; mode m period 10 { port int p; invoke t input (p) output (); } } }",
        8,
        (0, 0, Some(0)),
        0,
        1,
    ),
    (
        "program P { module M start m { task n input () output () worst 1; task t input (int x) output () worst 1; task r input (int x) output () worst 1; mode m period 10 { port int p; invoke n input () output (); invoke t input (p) output (); invoke r input (p) output (); } } }",
        8,
        (0, 0, Some(1)),
        0,
        1,
    ),
    // a port of the same name in another mode is another port
    (
        "program P { module M start m { task w input () output (int y = 1) worst 1; task t input (int x) output () worst 1; mode m period 10 { port int p; invoke w input () output (p); } mode n period 10 { port int p; invoke t input (p) output (); } } }",
        8,
        (0, 1, Some(1)),
        0,
        1,
    ),
    // several write it, read or not
    (
        "program P { module M start m { task w input () output (int y = 1) worst 1; task v input () output (int y = 1) worst 1; mode m period 10 { port int p; invoke w input () output (p); invoke v input () output (p); } } }",
        8,
        (0, 0, Some(1)),
        2,
        1,
    ),
    (
        "program P { module M start m { task t input (int x) output () worst 1; task w input () output (int y = 1) worst 1; task v input () output (int y = 1) worst 1; task k input () output (int y = 1) worst 1; mode m period 10 { port int p; invoke t input (p) output (); invoke w input () output (p); invoke v input () output (p); invoke k input () output (p); } } }",
        8,
        (0, 0, Some(2)),
        3,
        1,
    ),
    (
        "program P { module M start m { task w input () output (int y = 1, int z = 2) worst 1; mode m period 10 { port int p; invoke w input () output (p, p); } } }",
        8,
        (0, 0, Some(0)),
        2,
        1,
    ),
    // an input that nobody writes before an output that is a second writer
    (
        "program P { module M start m { task w input () output (int y = 1) worst 1; task t input (int x) output (int y = x) worst 1; mode m period 10 { port int p; port int q; invoke w input () output (p); invoke t input (q) output (p); } } }",
        8,
        (0, 0, Some(1)),
        0,
        1,
    ),
    // outputs by place
    (
        "program P { module M start m { task w input () output (int y = 1, int z = 2) worst 1; task v input () output (int y = 1, int z = 2) worst 1; task k input () output (int y = 1) worst 1; mode m period 10 { port int p; port int q; invoke w input () output (p, q); invoke v input () output (q, p); invoke k input () output (q); } } }",
        8,
        (0, 0, Some(1)),
        3,
        1,
    ),
    (
        "program P { module M start m { task w input () output (int y = 1, int z = 2) worst 1; task v input () output (int y = 1, int z = 2) worst 1; task k input () output (int y = 1) worst 1; mode m period 10 { port int p; port int q; invoke w input () output (p, q); invoke v input () output (p, q); invoke k input () output (q); } } }",
        8,
        (0, 0, Some(1)),
        2,
        1,
    ),
    // invocations in their order
    (
        "program P { module M start m { task t input (int x) output () worst 1; task w input () output (int y = 1) worst 1; task v input () output (int y = 1) worst 1; mode m period 10 { port int p; port int q; invoke w input () output (p); invoke v input () output (p); invoke t input (q) output (); } } }",
        8,
        (0, 0, Some(1)),
        2,
        1,
    ),
    // 9: an invocation that precedes itself
    (
        "program P { module M start m { task t input (int x) output (int y = x) worst 1; mode m period 10 { port int p; invoke t input (p) output (p); } } }",
        9,
        (0, 0, Some(0)),
        1,
        0,
    ),
    (
        "program P { module M start m { task t input (int x) output (int y = x) worst 1; task r input (int x) output (int y = x) worst 1; mode m period 10 { port int p; port int q; invoke t input (p) output (q); invoke r input (q) output (p); } } }",
        9,
        (0, 0, Some(0)),
        2,
        0,
    ),
    // one that only follows a cycle doesn't precede itself, nor one that a cycle follows
    (
        "program P { module M start m { task e input (int x) output () worst 1; task t input (int x) output (int y = x) worst 1; task r input (int x) output (int y = x) worst 1; mode m period 10 { port int p; port int q; invoke e input (p) output (); invoke t input (p) output (q); invoke r input (q) output (p); } } }",
        9,
        (0, 0, Some(1)),
        2,
        0,
    ),
    (
        "program P { module M start m { task w input () output (int y = 1) worst 1; task t input (int x, int z) output (int y = x) worst 1; mode m period 10 { port int p; port int q; invoke w input () output (p); invoke t input (p, q) output (q); } } }",
        9,
        (0, 0, Some(1)),
        1,
        0,
    ),
    // all of the mode, on whatever cycle
    (
        "program P { module M start m { task t input (int x) output (int y = x) worst 1; task r input (int x) output (int y = x) worst 1; task v input (int x) output (int y = x) worst 1; mode m period 10 { port int p; port int q; port int k; invoke t input (p) output (p); invoke r input (q) output (k); invoke v input (k) output (q); } } }",
        9,
        (0, 0, Some(0)),
        3,
        0,
    ),
    (
        "program P { module M start m { task t input (int x) output (int y = x) worst 1; task r input (int x) output (int y = x) worst 1; task v input (int x) output (int y = x) worst 1; mode m period 10 { port int p; port int q; port int k; invoke r input (q) output (k); invoke t input (p) output (p); invoke v input (k) output (q); } } }",
        9,
        (0, 0, Some(0)),
        3,
        0,
    ),
    // of one mode alone
    (
        "program P { module M start m { task t input (int x) output (int y = x) worst 1; task r input (int x) output (int y = x) worst 1; mode m period 10 { port int p; invoke t input (p) output (p); } mode n period 10 { port int p; port int q; invoke t input (p) output (q); invoke r input (q) output (p); } } }",
        9,
        (0, 0, Some(0)),
        1,
        0,
    ),
    (
        "program P { module M start m { task w input () output (int y = 1) worst 1; task e input (int x) output () worst 1; task t input (int x) output (int y = x) worst 1; mode m period 10 { port int p; invoke w input () output (p); invoke e input (p) output (); } mode n period 10 { port int p; invoke t input (p) output (p); } } }",
        9,
        (0, 1, Some(2)),
        1,
        0,
    ),
    // 10: a concrete invocation reads a port that an abstract one writes
    (
        "program P { module M start m { abstract task a input () output (int y) worst 1; task t input (int x) output () worst 1; mode m period 10 { port int p; invoke a input () output (p); invoke t input (p) output (); } } }",
        10,
        (0, 0, Some(1)),
        0,
        0,
    ),
    (
        "program P { module M start m { abstract task a input () output (int y) worst 1; task t input (int x) output () worst 1; mode m period 10 { port int p; invoke t input (p) output (); invoke a input () output (p); } } }",
        10,
        (0, 0, Some(0)),
        0,
        0,
    ),
    (
        "program P { communicator int u period 10 init 0; module M start m { abstract task a input () output (int y) worst 1; task w input () output (int y = 1) worst 1; task t input (int v, int x, int z) output () worst 1; mode m period 10 { port int p; port int q; invoke a input () output (p); invoke w input () output (q); invoke t input ((u, 0), q, p) output (); } } }",
        10,
        (0, 0, Some(2)),
        2,
        0,
    ),
];

// Writers of communicators.
const WRITERS: &[Row] = &[
    // 11: a sensor is written
    (
        "program P { sensor int s period 10 init 0; module M start m { task t input () output (int y = 1) worst 1; mode m period 10 { invoke t input () output ((s, 1)); } } }",
        11,
        (0, 0, Some(0)),
        0,
        0,
    ),
    (
        "program P { communicator int u period 10 init 0; sensor int s period 10 init 0; module M start m { task t input () output (int y = 1, int z = 2) worst 1; mode m period 10 { invoke t input () output ((u, 1), (s, 1)); } } }",
        11,
        (0, 0, Some(0)),
        1,
        0,
    ),
    (
        "program P { sensor int s period 10 init 0; module M start m { abstract task a input () output (int y) worst 1; mode m period 10 { invoke a input () output ((s, 1)); } } }",
        11,
        (0, 0, Some(0)),
        0,
        0,
    ),
    // 12: two in one mode write one instance
    (
        "program P { communicator int c period 5 init 0; communicator int u period 5 init 0; module M start m { task t input () output (int y = 1) worst 1; task r input () output (int y = 2) worst 1; mode m period 10 { invoke t input () output ((u, 1)); invoke r input () output ((u, 1)); } } }",
        12,
        (0, 0, Some(1)),
        0,
        1,
    ),
    // one writes it twice
    (
        "program P { communicator int c period 5 init 0; communicator int u period 5 init 0; module M start m { task n input () output () worst 1; task t input () output (int y = 1, int z = 2) worst 1; mode m period 10 { invoke n input () output (); invoke t input () output ((u, 1), (u, 1)); } } }",
        12,
        (0, 0, Some(1)),
        1,
        1,
    ),
    // of three, two write one instance
    (
        "program P { communicator int u period 5 init 0; module M start m { task t input () output (int y = 1) worst 1; task r input () output (int y = 2) worst 1; task v input () output (int y = 3) worst 1; mode m period 10 { invoke t input () output ((u, 1)); invoke r input () output ((u, 2)); invoke v input () output ((u, 2)); } } }",
        12,
        (0, 0, Some(2)),
        1,
        0,
    ),
    // modes of two root modules write one communicator
    (
        "program P { communicator int c period 5 init 0; communicator int u period 5 init 0; module A start m { task t input () output (int y = 1) worst 1; mode m period 10 { invoke t input () output ((u, 1)); } } module B start m { task t input () output (int y = 1) worst 1; mode m period 10 { invoke t input () output ((u, 2)); } } }",
        12,
        (1, 1, Some(1)),
        0,
        1,
    ),
    // a refined mode and one of its refinement
    (
        "program P { communicator int u period 5 init 0; module M start m { task t input () output (int y = 1) worst 1; mode m period 10 program Q { invoke t input () output ((u, 1)); } } } program Q { module N start n { task r input () output (int y = 2) worst 1; mode n period 10 { invoke r input () output ((u, 2)); } } }",
        12,
        (1, 1, Some(1)),
        0,
        0,
    ),
    // two modules of one refinement
    (
        "program P { communicator int u period 5 init 0; module M start m { mode m period 10 program Q { } } } program Q { module N start n { task t input () output (int y = 1) worst 1; mode n period 10 { invoke t input () output ((u, 1)); } } module O start o { task t input () output (int y = 1) worst 1; mode o period 10 { invoke t input () output ((u, 1)); } } }",
        12,
        (2, 2, Some(1)),
        0,
        0,
    ),
    // refinements of two root modules
    (
        "program P { communicator int u period 5 init 0; module A start m { mode m period 10 program Q { } } module B start m { mode m period 10 program R { } } } program Q { module N start n { task t input () output (int y = 1) worst 1; mode n period 10 { invoke t input () output ((u, 1)); } } } program R { module O start o { task t input () output (int y = 1) worst 1; mode o period 10 { invoke t input () output ((u, 1)); } } }",
        12,
        (3, 3, Some(1)),
        0,
        0,
    ),
    // of several earlier ones the least number
    (
        "program P { communicator int u period 5 init 0; module A start a { task t input () output (int y = 1) worst 1; mode a period 10 { invoke t input () output ((u, 1)); } mode b period 10 { invoke t input () output ((u, 1)); } } module B start m { task t input () output (int y = 1) worst 1; mode m period 10 { invoke t input () output ((u, 1)); } } }",
        12,
        (1, 2, Some(2)),
        0,
        0,
    ),
    (
        "program P { communicator int u period 5 init 0; module A start m { task t input () output (int y = 1) worst 1; task r input () output (int y = 2) worst 1; mode m period 10 { invoke t input () output ((u, 1)); invoke r input () output ((u, 2)); } } module B start m { task t input () output (int y = 1) worst 1; mode m period 10 { invoke t input () output ((u, 2)); } } }",
        12,
        (1, 1, Some(2)),
        0,
        0,
    ),
    // outputs by place
    (
        "program P { communicator int c period 5 init 0; communicator int u period 5 init 0; module A start m { task t input () output (int y = 1) worst 1; task r input () output (int y = 2) worst 1; mode m period 10 { invoke t input () output ((c, 1)); invoke r input () output ((u, 1)); } } module B start m { task t input () output (int y = 1, int z = 2) worst 1; mode m period 10 { invoke t input () output ((u, 1), (c, 1)); } } }",
        12,
        (1, 1, Some(2)),
        1,
        1,
    ),
];

#[test]
fn broken_rules_are_told(rt: HostRuntime) {
    for rows in [TIMES, ENDS, PORTS, WRITERS, SEVERAL] {
        for row in rows {
            holds_in(&rt, row.0, is_broken(rt.alloc(), row));
        }
    }
}

// Sources that just keep a rule.
const KEPT: &[&str] = &[
    "program P { }",
    // 1
    "program P { module M start a { mode a period 10 { } mode b period 10 { } } }",
    "program P { module M start m { mode m period 10 program Q { } mode l period 10 { } } } program Q { module N start n { mode n period 10 { } mode k period 10 { } } }",
    // 2
    "program P { module A start m { mode m period 10 { } } module B start m { mode m period 10 { } } }",
    "program P { module A start m { mode m period 10 { } } module B start m { mode m period 20 { } } }",
    "program P { module A start m { mode m period 10 { } } module B start m { mode m period 10 { } } module C start m { mode m period 5 { } } }",
    "program P { module A start m { mode m period 1000000 { } } module B start m { mode m period 500000 { } } }",
    "program P { module A start m { mode m period 10 { } } module B start m { mode m period 320 { } } }",
    "program P { module A start m { mode m period 10 { } mode n period 10 { } } module B start m { mode m period 100 { } } }",
    "program P { module A start m { task a input () output () worst 1; task b input () output () worst 1; task c input () output () worst 1; task d input () output () worst 1; mode m period 10 { invoke a input () output (); invoke b input () output (); invoke c input () output (); invoke d input () output (); } } module B start m { mode m period 320 { } } }",
    // 3
    "program P { communicator int u period 10 init 0; module M start m { task t input (int x) output () worst 1; mode m period 10 { invoke t input ((u, 0)) output (); } } }",
    "program P { communicator int u period 2 init 0; sensor bool g period 5 init true; sensor bool h period 3 init true; module M start m { task t input (int x) output (int y = x) worst 1; mode m period 10 { invoke t input ((u, 0)) output ((u, 1)); switch (g, m); } } }",
    // 4
    "program P { communicator int u period 1 init 0; module M start m { task t input (int x) output (int y = x) worst 1; mode m period 10 { invoke t input ((u, 9)) output ((u, 10)); } } }",
    "program P { communicator int u period 1 init 0; module M start m { task t input (int x) output (int y = x) worst 1; mode m period 10 { invoke t input ((u, 0)) output ((u, 1)); } } }",
    // 5
    "program P { communicator int u period 10 init 0; communicator bool b period 10 init true; module M start m { task t input (int x, bool y) output (bool z = y, int v = x) worst 1; mode m period 10 { invoke t input ((u, 0), (b, 0)) output ((b, 1), (u, 1)); } } }",
    // 6
    "program P { communicator int u period 5 init 0; module M start m { task t input (int x) output (int y = x) worst 1; mode m period 10 { invoke t input ((u, 1)) output ((u, 2)); } } }",
    "program P { communicator int u period 5 init 0; module M start m { task t input (int x) output () worst 1; task r input () output (int y = 1) worst 1; mode m period 10 { invoke t input ((u, 1)) output (); invoke r input () output ((u, 1)); } } }",
    // 7: a worst case may be longer than the window, and a task that isn't invoked may have any
    "program P { communicator int u period 5 init 0; module M start m { task t input () output (int y = 1) worst 10; task r input () output () worst 11; mode m period 10 { invoke t input () output ((u, 1)); } } }",
    // 8: one writer and two readers; a port that nobody reads; one that nobody uses
    "program P { module M start m { task w input () output (int y = 1) worst 1; task t input (int x) output () worst 1; task r input (int x) output () worst 1; mode m period 10 { port int p; invoke t input (p) output (); invoke w input () output (p); invoke r input (p) output (); } }  }",
    "program P { module M start m { task w input () output (int y = 1) worst 1; mode m period 10 { port int p; port int q; invoke w input () output (p); } mode n period 10 { port int p; invoke w input () output (p); } } }",
    // 9: a chain, and two paths between two invocations
    "program P { module M start m { task w input () output (int y = 1) worst 1; task t input (int x) output (int y = x) worst 1; task r input (int x) output () worst 1; mode m period 10 { port int p; port int q; invoke r input (q) output (); invoke t input (p) output (q); invoke w input () output (p); } } }",
    "program P { module M start m { task w input () output (int y = 1) worst 1; task t input (int x) output (int y = x) worst 1; task r input (int x, int z) output () worst 1; mode m period 10 { port int p; port int q; invoke r input (p, q) output (); invoke t input (p) output (q); invoke w input () output (p); } } }",
    // 10: abstract ones read ports that concrete and abstract ones write
    "program P { module M start m { abstract task a input (int x) output (int y) worst 1; abstract task b input (int x) output () worst 1; task w input () output (int y = 1) worst 1; mode m period 10 { port int p; port int q; invoke w input () output (p); invoke a input (p) output (q); invoke b input (q) output (); } } }",
    // 11
    "program P { sensor int s period 10 init 0; module M start m { task t input (int x) output () worst 1; mode m period 10 { invoke t input ((s, 0)) output (); } } }",
    // 12: two instances in one mode, of one invocation and of two
    "program P { communicator int u period 1 init 0; module M start m { task t input () output (int y = 1, int z = 2) worst 1; task r input () output (int y = 2) worst 1; mode m period 10 { invoke t input () output ((u, 1), (u, 3)); invoke r input () output ((u, 2)); } } }",
    // two communicators in two modules
    "program P { communicator int u period 10 init 0; communicator int w period 10 init 0; module A start m { task t input () output (int y = 1) worst 1; mode m period 10 { invoke t input () output ((u, 1)); } } module B start m { task t input () output (int y = 1) worst 1; mode m period 10 { invoke t input () output ((w, 1)); } } }",
    // two modes of one module
    "program P { communicator int u period 10 init 0; module M start m { task t input () output (int y = 1) worst 1; mode m period 10 { invoke t input () output ((u, 1)); } mode n period 10 { invoke t input () output ((u, 1)); } } }",
    // a refinement of one mode, and another mode of the module
    "program P { communicator int u period 10 init 0; module M start m { task t input () output (int y = 1) worst 1; mode m period 10 program Q { } mode k period 10 { invoke t input () output ((u, 1)); } } } program Q { module N start n { task r input () output (int y = 2) worst 1; mode n period 10 { invoke r input () output ((u, 1)); } } }",
    // refinements of two modes of one module
    "program P { communicator int u period 10 init 0; module M start m { mode m period 10 program Q { } mode k period 10 program R { } } } program Q { module N start n { task r input () output (int y = 2) worst 1; mode n period 10 { invoke r input () output ((u, 1)); } } } program R { module O start o { task r input () output (int y = 2) worst 1; mode o period 10 { invoke r input () output ((u, 1)); } } }",
    // abstract ones write what others write
    "program P { communicator int u period 10 init 0; module M start m { abstract task a input () output (int y) worst 1; abstract task b input () output (int y) worst 1; task t input () output (int y = 1) worst 1; mode m period 10 { invoke a input () output ((u, 1)); invoke t input () output ((u, 1)); invoke b input () output ((u, 1)); } } }",
];

#[test]
fn rules_are_just_kept(rt: HostRuntime) {
    for text in KEPT {
        holds_in(&rt, text, is_kept(rt.alloc(), text));
    }
}
