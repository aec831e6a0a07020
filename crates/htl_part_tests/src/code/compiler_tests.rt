// Sources with their faults and with their objects.
use crate::asserts::{holds, holds_in, same, same_in};
use htl_base::limits::MAX_SOURCE;
use htl_compile::{BackFault, CompileFault, FrontFault, SourceFault, back, compile, front};
use htl_model::{FormFault, Function, Tables};
use htl_object::Object;
use htl_samples::object_bytes::{DOUBLING, NO_MODULE};
use htl_samples::pieces::{Piece, joined};
use htl_samples::samples::{DOUBLING as DOUBLING_SOURCE, MORE_SELECTIONS, SELECTIONS};
use std::alloc::{AllocError, Global};

// The tables of a text with code, or its fault.
fn tables(alloc: Global, text: &[u8]) -> Option<Result<Tables, SourceFault>> {
    if text.len() > MAX_SOURCE as usize {
        return None;
    }
    match front(alloc, text) {
        Ok(tables) => Some(Ok(tables)),
        Err(FrontFault::Source(fault)) => Some(Err(fault)),
        Err(FrontFault::Memory) => None,
    }
}

// This is the fault of the text in these pieces.
fn is_fault(alloc: Global, pieces: &[Piece], at: SourceFault) -> Result<bool, AllocError> {
    let text = joined(alloc, pieces)?;
    match tables(alloc, text.as_bytes()) {
        Some(Err(fault)) => Ok(fault == at),
        _ => Ok(false),
    }
}

// How many functions the text's tables have, where all are code.
fn codes(alloc: Global, text: &[u8]) -> Option<usize> {
    match tables(alloc, text) {
        Some(Ok(tables)) => {
            let functions = tables.parts().functions.as_slice();
            if functions.iter().all(is_code) {
                Some(functions.len())
            } else {
                None
            }
        }
        _ => None,
    }
}

// The same of the text in these pieces.
fn codes_in(alloc: Global, pieces: &[Piece]) -> Result<Option<usize>, AllocError> {
    let text = joined(alloc, pieces)?;
    Ok(codes(alloc, text.as_bytes()))
}

fn is_code(f: &Function) -> bool {
    match f {
        Function::Code(_) => true,
        Function::Expr { .. } => false,
    }
}

// Around the outputs of a task and the switch of a mode; outputs begin at byte 99.
const OUTPUTS: Piece = Piece::Once(
    "program P { sensor int s period 10 init 0; module M start m { task t input (int x, bool b) output (",
);

const SWITCH: Piece = Piece::Once(") worst 4; mode m period 20 { ");

const END: Piece = Piece::Once(" } } }");

const UNSWITCHED: Piece = Piece::Once(") worst 4; mode m period 20 {  } } }");

// Texts with their faults.
const FAULTS: &[(&[Piece], SourceFault)] = &[
    (&[Piece::Once("")], SourceFault::Syntax { at: 0 }),
    (
        &[Piece::Once("program P { module M start m { }")],
        SourceFault::Syntax { at: 32 },
    ),
    (
        &[Piece::Once("program P { #")],
        SourceFault::Char { at: 12 },
    ),
    (
        &[Piece::Once("program P { } & &")],
        SourceFault::Char { at: 14 },
    ),
    (
        &[Piece::Once("9223372036854775808")],
        SourceFault::Number { at: 0 },
    ),
    (
        &[Piece::Once(" a23456789_123456789_123456789_123456789_123456789")],
        SourceFault::NameLong { at: 1 },
    ),
    (
        &[Piece::Once("program P { module M start m { } }")],
        SourceFault::Unknown { at: 27 },
    ),
    (
        &[Piece::Once(
            "program P { communicator int u period 1 init 0; communicator int u period 1 init 0; }",
        )],
        SourceFault::Twice { at: 65 },
    ),
    (
        &[Piece::Once("program P { communicator bool b period 1 init 3; }")],
        SourceFault::Kind { at: 46 },
    ),
    (
        &[Piece::Once("program P { } program Q { }")],
        SourceFault::NotATree { program: 1 },
    ),
    // the first fault of a function
    (
        &[OUTPUTS, Piece::Once("int y = x < 2"), UNSWITCHED],
        SourceFault::IllTyped { at: 107 },
    ),
    (
        &[OUTPUTS, Piece::Once("int y = x + b"), UNSWITCHED],
        SourceFault::IllTyped { at: 109 },
    ),
    (
        &[
            OUTPUTS,
            Piece::Once("int y = (x + 1) * (2 - b)"),
            UNSWITCHED,
        ],
        SourceFault::IllTyped { at: 120 },
    ),
    (
        &[OUTPUTS, Piece::Once("int y = if(x, 1, 2)"), UNSWITCHED],
        SourceFault::IllTyped { at: 107 },
    ),
    (
        &[OUTPUTS, Piece::Once("bool y = -b"), UNSWITCHED],
        SourceFault::IllTyped { at: 108 },
    ),
    (
        &[OUTPUTS, Piece::Once("int y = 1, bool z = x"), UNSWITCHED],
        SourceFault::IllTyped { at: 119 },
    ),
    (
        &[
            OUTPUTS,
            Piece::Once("int y = 1"),
            SWITCH,
            Piece::Once("switch (s, m);"),
            END,
        ],
        SourceFault::IllTyped { at: 146 },
    ),
    (
        &[
            OUTPUTS,
            Piece::Once("int y = b"),
            SWITCH,
            Piece::Once("switch (s, m);"),
            END,
        ],
        SourceFault::IllTyped { at: 107 },
    ),
    // 65 values in brackets
    (
        &[
            OUTPUTS,
            Piece::Once("int y = "),
            Piece::Copies(64, "1 + ("),
            Piece::Once("1"),
            Piece::Copies(64, ")"),
            UNSWITCHED,
        ],
        SourceFault::Deep { at: 107 },
    ),
    // a selection too many
    (
        MORE_SELECTIONS,
        SourceFault::Limit {
            which: 10,
            count: 1_025,
        },
    ),
];

#[test]
fn sources_have_their_faults(rt: HostRuntime) {
    for (k, (pieces, at)) in FAULTS.iter().enumerate() {
        same_in(&rt, k, is_fault(rt.alloc(), pieces, *at), Ok(true));
    }
}

// Texts with the number of their functions: outputs and a switch, and 64 values in brackets.
const CODED: &[(&[Piece], usize)] = &[
    (
        &[
            OUTPUTS,
            Piece::Once("int y = x * 2, bool z = b == (x < 2)"),
            SWITCH,
            Piece::Once("switch (s > 1, m);"),
            END,
        ],
        3,
    ),
    (
        &[
            OUTPUTS,
            Piece::Once("int y = "),
            Piece::Copies(63, "1 + ("),
            Piece::Once("1"),
            Piece::Copies(63, ")"),
            UNSWITCHED,
        ],
        1,
    ),
];

#[test]
fn functions_are_code(rt: HostRuntime) {
    for (pieces, count) in CODED {
        same(&rt, codes_in(rt.alloc(), pieces), Ok(Some(*count)));
    }
}

// The object of a text, or the fault of its tables; None where there is another fault, or where the tables aren't handed back.
fn object(alloc: Global, text: &[u8]) -> Option<Result<Object, BackFault>> {
    if text.len() > MAX_SOURCE as usize {
        return None;
    }
    let tables = match front(alloc, text) {
        Ok(tables) => tables,
        Err(_) => return None,
    };
    let comms = tables.parts().comms.as_slice().len();
    match back(alloc, tables) {
        Ok(object) => Some(Ok(object)),
        Err((tables, fault)) => if tables.parts().comms.as_slice().len() == comms {
            Some(Err(fault))
        } else {
            None
        },
    }
}

// This is the fault of the text's tables.
fn is_back_fault(alloc: Global, text: &[u8], wanted: BackFault) -> bool {
    match object(alloc, text) {
        Some(Err(fault)) => fault == wanted,
        _ => false,
    }
}

// A mode whose period its communicators' doesn't divide.
const UNDIVIDED: &str = "program P { communicator int u period 10 init 7;
  module M start m {
    task t input () output (int y = 1) worst 4;
    mode m period 25 { invoke t input () output ((u, 1)); }
  } }";

// A refinement whose task takes longer than what it stands for.
const LONGER: &str = "program P {
  communicator int u period 10 init 3;
  communicator int w period 10 init 0;
  module M start m {
    abstract task plan input (int i) output (int o) worst 4;
    mode m period 10 program Q { invoke plan input ((w, 0)) output ((u, 1)); }
  }
}
program Q {
  module N start on {
    task fast input (int i) output (int o = i * 10) worst 5;
    mode on period 10 { invoke fast input ((w, 0)) output ((u, 1)) parent plan; }
  }
}";

// Two tasks of eleven ticks in ten.
const OVERLOADED: &str = "program P {
  communicator int x period 2 init 1;
  communicator int y period 2 init 0;
  communicator int z period 10 init 0;
  module M start m {
    task a input (int i) output (int o = i + 1) worst 8;
    task b input (int i) output (int o = i * 5) worst 3;
    mode m period 10 {
      invoke a input ((x, 0)) output ((z, 1));
      invoke b input ((x, 1)) output ((y, 3));
    }
  }
}";

const UNDIVIDED_AT: FormFault = FormFault {
    rule: 3,
    module: 0,
    mode: 0,
    inv: Some(0),
    have: 10,
    need: 25,
};

const LONGER_AT: FormFault = FormFault {
    rule: 16,
    module: 1,
    mode: 1,
    inv: Some(1),
    have: 5,
    need: 4,
};

// Texts, and the faults of their tables.
const UNTIMELY: [(&str, BackFault); 3] = [
    (UNDIVIDED, BackFault::IllFormed(UNDIVIDED_AT)),
    (LONGER, BackFault::IllFormed(LONGER_AT)),
    (
        OVERLOADED,
        BackFault::Unschedulable {
            selection: 0,
            from: 0,
            to: 10,
            demand: 11,
        },
    ),
];

#[test]
fn tables_have_their_faults(rt: HostRuntime) {
    for (text, fault) in UNTIMELY {
        holds_in(
            &rt,
            fault,
            is_back_fault(rt.alloc(), text.as_bytes(), fault),
        );
    }
}

// How many schedules the object of the text in these pieces has.
fn schedules_of(alloc: Global, pieces: &[Piece]) -> Result<usize, AllocError> {
    let text = joined(alloc, pieces)?;
    match object(alloc, text.as_bytes()) {
        Some(Ok(object)) => Ok(object.schedules.as_slice().len()),
        _ => Ok(0),
    }
}

#[test]
fn selections_are_at_most_1024(rt: HostRuntime) {
    same(&rt, schedules_of(rt.alloc(), SELECTIONS), Ok(1_024));
}

// The bytes of a text's object, or its fault.
fn bytes(alloc: Global, text: &str) -> Result<Vec<u8>, CompileFault> {
    let text = text.as_bytes();
    if text.len() > MAX_SOURCE as usize {
        return Err(CompileFault::Memory);
    }
    compile(alloc, text)
}

// These are the bytes of the text's object.
fn is_compiled(alloc: Global, text: &str, wanted: &[u8]) -> bool {
    match bytes(alloc, text) {
        Ok(bytes) => bytes.as_slice() == wanted,
        Err(_) => false,
    }
}

// The text isn't compiled, for this fault.
fn is_refused(alloc: Global, text: &str, wanted: CompileFault) -> bool {
    match bytes(alloc, text) {
        Ok(_) => false,
        Err(fault) => fault == wanted,
    }
}

// One communicator and no module.
const NO_MODULE_SOURCE: &str = "program P { communicator int u period 10 init 7; }";

#[test]
fn sources_have_their_bytes(rt: HostRuntime) {
    holds(&rt, is_compiled(rt.alloc(), NO_MODULE_SOURCE, &NO_MODULE));
    holds(&rt, is_compiled(rt.alloc(), DOUBLING_SOURCE, &DOUBLING));
}

#[test]
fn compiling_tells_each_fault(rt: HostRuntime) {
    let char = CompileFault::Source(SourceFault::Char { at: 12 });
    holds(&rt, is_refused(rt.alloc(), "program P { #", char));
    holds(
        &rt,
        is_refused(rt.alloc(), LONGER, CompileFault::IllFormed(LONGER_AT)),
    );
    let overloaded = CompileFault::Unschedulable {
        selection: 0,
        from: 0,
        to: 10,
        demand: 11,
    };
    holds(&rt, is_refused(rt.alloc(), OVERLOADED, overloaded));
}
