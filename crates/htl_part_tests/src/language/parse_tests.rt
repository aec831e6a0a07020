// Sources with each form of the language, and sources at the edges of the rules.
use crate::asserts::{holds, same};
use htl_parse::{ParseFault, parse};
use htl_text::{Token, Tree, Word, lex, print};
use std::alloc::{AllocError, Global};

// The answer to a text that has tokens.
fn answer(alloc: Global, text: &[u8]) -> Option<Result<Tree, ParseFault>> {
    if text.len() > 1_048_576 {
        return None;
    }
    let tokens = lex(alloc, text).ok()?;
    Some(parse(alloc, &tokens))
}

// Each piece as many times as is said.
fn joined(alloc: Global, pieces: &[(&[u8], usize)]) -> Result<Vec<u8>, AllocError> {
    let mut text = Vec::new(alloc);
    for (piece, count) in pieces {
        for _ in 0..*count {
            text.extend_from_slice(piece)?;
        }
    }
    Ok(text)
}

// What is answered of a text.
#[derive(Clone, Copy, PartialEq, Eq)]
enum Kind {
    Tree,
    Syntax,
    Long,
}

fn kind_of(alloc: Global, text: &[u8]) -> Option<Kind> {
    match answer(alloc, text)? {
        Ok(_) => Some(Kind::Tree),
        Err(ParseFault::Syntax { .. }) => Some(Kind::Syntax),
        Err(ParseFault::Long { .. }) => Some(Kind::Long),
        Err(ParseFault::Memory) => None,
    }
}

// Whether the answer to the joined pieces is one of these.
fn is_answered(
    alloc: Global,
    pieces: &[(&[u8], usize)],
    kinds: &[Kind],
) -> Result<bool, AllocError> {
    let text = joined(alloc, pieces)?;
    match kind_of(alloc, &text) {
        Some(kind) => Ok(kinds.contains(&kind)),
        None => Ok(false),
    }
}

const FORMS: &[u8] = b"program P {
 communicator int a period 10 init -007; sensor bool b period 20 init true;
 module M start m {
  task t input (int x, bool y) output (int z = x - 1 - 2 * -3 % x, bool w = !y && x < 2 || y) worst 3;
  abstract task u input () output (int v, bool w) worst 04;
  task n input () output () worst 1;
  mode m period 100 program Q {
   port int p; port bool q;
   invoke t input ((a, 0), q) output (p, (a, 10)); invoke u input () output () parent t;
   switch (if (b, a >= 3, false), m); switch ((b), m);
  }
  mode o period 1 {}
 }
 module N start m {}
}
program Q {}";

const PRINTED: &[u8] = b"program P {
communicator int a period 10 init - 7 ;
sensor bool b period 20 init true ;
module M start m {
task t input ( int x , bool y ) output ( int z = ( ( x - 1 ) - ( ( 2 * ( - 3 ) ) % x ) ) , bool w = ( ( ( ! y ) && ( x < 2 ) ) || y ) ) worst 3 ;
abstract task u input ( ) output ( int v , bool w ) worst 4 ;
task n input ( ) output ( ) worst 1 ;
mode m period 100 program Q {
port int p ;
port bool q ;
invoke t input ( ( a , 0 ) , q ) output ( p , ( a , 10 ) ) ;
invoke u input ( ) output ( ) parent t ;
switch ( if ( b , ( a >= 3 ) , false ) , m ) ;
switch ( b , m ) ;
}
mode o period 1 {
}
}
module N start m {
}
}
program Q {
}
";

// The printed form of a text that is a tree.
fn printed(alloc: Global, text: &[u8]) -> Option<Vec<u8>> {
    let tree = answer(alloc, text)?.ok()?;
    print(alloc, &tree).ok()
}

#[test]
fn each_form_parses(rt: HostRuntime) {
    for text in [FORMS, PRINTED] {
        let printed = printed(rt.alloc(), text).expect(&rt, "a tree");
        same(&rt, printed.as_slice(), PRINTED);
    }
}

// Whether the first tokens of a text spell nothing, however many they are, and all of them a tree.
fn needs_each_token(alloc: Global, text: &[u8]) -> bool {
    if text.len() > 1_048_576 {
        return false;
    }
    let Ok(tokens) = lex(alloc, text) else {
        return false;
    };
    for place in 0..tokens.len() {
        let end = tokens.offset(place) as usize;
        if end > text.len() || !is_refused(alloc, &text[..end]) {
            return false;
        }
    }
    matches!(answer(alloc, text), Some(Ok(_)))
}

fn is_refused(alloc: Global, text: &[u8]) -> bool {
    matches!(answer(alloc, text), Some(Err(ParseFault::Syntax { .. })))
}

const WHOLE: [&[u8]; 2] = [
    b"program P { communicator int a period 1 init -1; module M start m {
        task t input (int x, bool y) output (int z = if(!y, x*-3, (2)), int w = 1) worst 3;
        mode m period 1 program Q { port int p; invoke t input ((a, 0), p) output (p) parent u;
        switch (a >= 3 || false, m); } } }",
    b"program P { sensor int s period 10 init 0; communicator int u period 10 init 7;
        module M start m { task dbl input (int x) output (int y = x * 2) worst 4;
        mode m period 20 { invoke dbl input ((s, 0)) output ((u, 1)); } } }",
];

#[test]
fn prefixes_are_refused(rt: HostRuntime) {
    for text in WHOLE {
        holds(&rt, needs_each_token(rt.alloc(), text));
    }
    holds(
        &rt,
        !needs_each_token(rt.alloc(), b"program P {} program Q {}"),
    );
}

// Before and behind the expression of an output: 8 tokens and 10 of its statement, and 3 of its statement.
const BEFORE: &[u8] = b"program P { module M start m { task t input () output (int y = ";

const BEHIND: &[u8] = b") worst 1; } }";

// A run of 512 tokens.
const SHORT: &[(&[u8], usize)] = &[(BEFORE, 1), (b"1", 1), (b"+1", 249), (BEHIND, 1)];

// Runs of 513 tokens, and the last of these.
const LONG: [(&[(&[u8], usize)], u32); 3] = [
    (&[(BEFORE, 1), (b"1", 1), (b"+1", 250), (BEHIND, 1)], 520),
    (
        &[
            (b"} x ; {", 1),
            (BEFORE, 1),
            (b"1", 1),
            (b"+1", 250),
            (BEHIND, 1),
        ],
        524,
    ),
    (&[(BEFORE, 1), (b"-1", 1), (b"+1", 250), (BEHIND, 1)], 520),
];

// The token at which the joined pieces are a run that is too long.
fn long_at(alloc: Global, pieces: &[(&[u8], usize)]) -> Result<Option<u32>, AllocError> {
    let text = joined(alloc, pieces)?;
    match answer(alloc, &text) {
        Some(Err(ParseFault::Long { token })) => Ok(Some(token)),
        _ => Ok(None),
    }
}

#[test]
fn the_513th_token_of_a_run_is_too_many(rt: HostRuntime) {
    same(&rt, is_answered(rt.alloc(), SHORT, &[Kind::Tree]), Ok(true));
    for (pieces, wanted) in LONG {
        same(&rt, long_at(rt.alloc(), pieces), Ok(Some(wanted)));
    }
}

// Whether the token at this place is this one.
fn has_token(alloc: Global, text: &[u8], place: usize, token: Token) -> bool {
    if text.len() > 1_048_576 {
        return false;
    }
    match lex(alloc, text) {
        Ok(tokens) => place < tokens.len() && tokens.token(place) == token,
        Err(_) => false,
    }
}

// Whether the token of the joined pieces at this place is `worst`.
fn is_worst(alloc: Global, pieces: &[(&[u8], usize)], place: usize) -> Result<bool, AllocError> {
    let text = joined(alloc, pieces)?;
    Ok(has_token(alloc, &text, place, Token::Word(Word::Worst)))
}

#[test]
fn the_token_of_a_long_run_is_told(rt: HostRuntime) {
    same(&rt, is_worst(rt.alloc(), LONG[0].0, 520), Ok(true));
}

const DEEP: [(&[(&[u8], usize)], &[Kind]); 8] = [
    // brackets, and signs
    (
        &[
            (BEFORE, 1),
            (b"(", 249),
            (b"1", 1),
            (b")", 249),
            (BEHIND, 1),
        ],
        &[Kind::Tree],
    ),
    (
        &[(BEFORE, 1), (b"-", 498), (b"1", 1), (BEHIND, 1)],
        &[Kind::Tree],
    ),
    // what is open stays open, or ends
    (
        &[(BEFORE, 1), (b"(", 502), (BEHIND, 1)],
        &[Kind::Syntax, Kind::Long],
    ),
    (&[(BEFORE, 1), (b"(", 502), (b";", 1)], &[Kind::Syntax]),
    (
        &[(BEFORE, 1), (b"if(", 251), (BEHIND, 1)],
        &[Kind::Syntax, Kind::Long],
    ),
    (&[(BEFORE, 1), (b"if(", 251), (b";", 1)], &[Kind::Syntax]),
    (
        &[(BEFORE, 1), (b"!", 502), (BEHIND, 1)],
        &[Kind::Syntax, Kind::Long],
    ),
    (&[(BEFORE, 1), (b"!", 502), (b";", 1)], &[Kind::Syntax]),
];

#[test]
fn deep_statements_end(rt: HostRuntime) {
    for (pieces, kinds) in DEEP {
        same(&rt, is_answered(rt.alloc(), pieces, kinds), Ok(true));
    }
}

// A source of 200 tasks with deep expressions.
fn large(alloc: Global) -> Result<Vec<u8>, AllocError> {
    let task = joined(
        alloc,
        &[
            (b"task t input () output (int y = ", 1),
            (b"(", 249),
            (b"1", 1),
            (b")", 249),
            (b") worst 1;", 1),
        ],
    )?;
    joined(
        alloc,
        &[
            (b"program P { module M start m {", 1),
            (&task, 200),
            (b"} }", 1),
        ],
    )
}

#[test]
fn a_large_source_parses(rt: HostRuntime) {
    let text = large(rt.alloc()).expect(&rt, "a text");
    holds(&rt, kind_of(rt.alloc(), &text) == Some(Kind::Tree));
}

const REFUSED: [&[u8]; 12] = [
    b"",
    b"program P {} program",
    b"program P {};",
    b"program P { module M start m {} communicator int a period 1 init 1; }",
    b"program P { communicator int a period 1 init - true; }",
    b"program P { communicator int a period -1 init 1; }",
    b"program P { module M start m { mode m period 1 {} task t input () output () worst 1; } }",
    b"program P { module M start m { task t input (int x,) output () worst 1; } }",
    b"program P { module M start m { task t input () output (int y) worst 1; } }",
    b"program P { module M start m { abstract task t input () output (int y = 1) worst 1; } }",
    b"program P { module M start m { task t input () output (bool y = 1 < 2 < 3) worst 1; } }",
    b"program P { module M start m { mode m period 1 { switch (true, m); port int p; } } }",
];

#[test]
fn these_are_refused(rt: HostRuntime) {
    for text in REFUSED {
        holds(&rt, kind_of(rt.alloc(), text) == Some(Kind::Syntax));
    }
}
