// Texts at the edges of the rules, and a printed program.
use crate::asserts::{holds, holds_in, same};
use htl_base::{Name, Seq, Ty, Value};
use htl_text::{
    CommNode, ConstNode, Id, Kind, LexFault, Num, ProgramNode, Sign, Token, Tokens, Tree, Word,
    lex, print,
};
use std::alloc::Global;

// Whether these are the tokens.
fn are_tokens(tokens: &Tokens, wanted: &[Token]) -> bool {
    if tokens.len() != wanted.len() {
        return false;
    }
    for place in 0..wanted.len() {
        if tokens.token(place) != wanted[place] {
            return false;
        }
    }
    true
}

// Whether the tokens begin at these bytes, and the text ends at the last.
fn begin_at(tokens: &Tokens, offsets: &[u64]) -> bool {
    if offsets.len() != tokens.len() + 1 {
        return false;
    }
    for token in 0..offsets.len() {
        if tokens.offset(token) != offsets[token] {
            return false;
        }
    }
    true
}

// The tokens of a text that isn't too long.
fn tokens_of(alloc: Global, text: &[u8]) -> Option<Result<Tokens, LexFault>> {
    if text.len() > 1_048_576 {
        return None;
    }
    Some(lex(alloc, text))
}

#[test]
fn tokens_have_their_places(rt: HostRuntime) {
    let tokens = lex(rt.alloc(), b"if x1 // y\r\n\t<=007//").expect(&rt, "tokens");
    let wanted = [
        Token::Word(Word::If),
        Token::Ident(Name::from_known(b"x1")),
        Token::Sign(Sign::LessEqual),
        Token::Number(7),
    ];
    holds(
        &rt,
        are_tokens(&tokens, &wanted) && begin_at(&tokens, &[0, 3, 13, 15, 20]),
    );
    holds(
        &rt,
        tokens.kind(1) == Some(Kind::Ident) && tokens.kind(4) == None,
    );
}

// 0 for a name, 1 a number, 2 a word, 3 a sign.
fn number_of(kind: Option<Kind>) -> u8 {
    match kind {
        Some(Kind::Ident) => 0,
        Some(Kind::Number) => 1,
        Some(Kind::Word(_)) => 2,
        Some(Kind::Sign(_)) => 3,
        None => 4,
    }
}

// Whether the text has tokens of these kinds.
fn has_kinds(alloc: Global, text: &[u8], kinds: &[u8]) -> bool {
    match tokens_of(alloc, text) {
        Some(Ok(tokens)) => are_kinds(&tokens, kinds),
        _ => false,
    }
}

fn are_kinds(tokens: &Tokens, kinds: &[u8]) -> bool {
    for place in 0..kinds.len() {
        if number_of(tokens.kind(place)) != kinds[place] {
            return false;
        }
    }
    tokens.len() == kinds.len()
}

const TEXTS: [(&[u8], &[u8]); 12] = [
    (b"", &[]),
    (b"//", &[]),
    (b" \t\r\n// a\n", &[]),
    (b"{}();,= == != < <= > >=+-*/%!&&||", &[3; 21]),
    (b"a//b\nc", &[0, 0]),
    (b"a/ /b", &[0, 3, 3, 0]),
    (b"===", &[3, 3]),
    (b"!==", &[3, 3]),
    (b"programs program _ int0 int", &[0, 2, 0, 0, 2]),
    (b"9223372036854775807 000 09", &[1, 1, 1]),
    (b"12ab if(x", &[1, 0, 2, 3, 0]),
    (b"aaaaaaaaaaaaaaaaaaaaaaaaaaaaaaaaaaaaaaaaaaaaaaaa", &[0]),
];

#[test]
fn texts_have_these_tokens(rt: HostRuntime) {
    for (text, kinds) in TEXTS {
        holds_in(&rt, kinds, has_kinds(rt.alloc(), text, kinds));
    }
}

const FAULTS: [(&[u8], LexFault); 9] = [
    (b"program P { #", LexFault::Char { offset: 12 }),
    (b"a & b", LexFault::Char { offset: 2 }),
    (b"a && | b", LexFault::Char { offset: 5 }),
    (b"// \xc3\xa4\n \xc3", LexFault::Char { offset: 7 }),
    (b"x 9223372036854775808", LexFault::Number { offset: 2 }),
    (b"0009223372036854775808#", LexFault::Number { offset: 0 }),
    (b"# 9223372036854775808", LexFault::Char { offset: 0 }),
    (
        b" aaaaaaaaaaaaaaaaaaaaaaaaaaaaaaaaaaaaaaaaaaaaaaaaa",
        LexFault::NameLong { offset: 1 },
    ),
    (b"a$b", LexFault::Char { offset: 1 }),
];

#[test]
fn texts_have_these_faults(rt: HostRuntime) {
    for (text, wanted) in FAULTS {
        let fault = match tokens_of(rt.alloc(), text) {
            Some(Err(fault)) => Some(fault),
            _ => None,
        };
        same(&rt, fault, Some(wanted));
    }
}

fn id(name: Name) -> Id {
    Id { name, token: 0 }
}

fn num(x: Value) -> Num {
    Num { x, token: 0 }
}

// The text of a program with a communicator.
fn printed(alloc: Global) -> Option<Vec<u8>> {
    let comm = CommNode {
        sensor: false,
        ty: Ty::Int,
        name: id(Name::from_known(b"u")),
        period: num(10),
        init: ConstNode::Int {
            token: 0,
            minus: false,
            x: 7,
        },
    };
    let program = ProgramNode {
        name: id(Name::from_known(b"P")),
        comms: Seq::new(vec![in alloc; comm].ok()?),
        modules: Seq::new(Vec::new(alloc)),
    };
    let tree = Tree {
        programs: Seq::new(vec![in alloc; program].ok()?),
    };
    print(alloc, &tree).ok()
}

#[test]
fn a_program_is_printed(rt: HostRuntime) {
    let printed = printed(rt.alloc()).expect(&rt, "memory");
    same(
        &rt,
        printed.as_slice(),
        b"program P {\ncommunicator int u period 10 init 7 ;\n}\n".as_slice(),
    );
}
