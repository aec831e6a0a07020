// Writing tokens, each with what separates it from the next.
ghost use Rattle.std.specs.Prelude.{◌≡◌, ◌++◌, ◌∷◌, [], IfOk, List, Some};
ghost use Rattle.htl_text.specs.PrintedBytes.{Adds, Writes, separator, token_bytes, token_text};
ghost use Rattle.htl_text.specs.PrintedTokens.{each, after_commas, in_brackets};
ghost use Rattle.htl_text.specs.declared.token.Token.{Token as AToken};
ghost use Rattle.htl_text.specs.declared.token.Token.TheVariants as token;

use crate::spelling::{sign_text, word_text};
use crate::token::{Sign, Token};
use htl_base::{Memory, Seq, Value};
use itoa::Buffer;
use std::alloc::Global;
use std::marker::Model;

/// What was written so far. Once memory was lacking nothing more is written, and the end tells so.
#[derive(Drop)]
pub struct Printer {
    bytes: Vec<u8>,
    lacks_memory: bool,
}

impl Model for Printer {
    ghost use Rattle.std.specs.Prelude.{List, ℕ, None, Option, Some, cond};

    ghost Value = { Option (List ℕ) };

    ghost view = { λ p. cond p.lacks_memory None (Some p.bytes.items) };
}

impl Printer {
    pub fn new(alloc: Global) -> Printer
        ensures { result ≡ Some [] }
    {
        Printer {
            bytes: Vec::new(alloc),
            lacks_memory: false,
        }
    }

    /// What was written; Memory where memory was lacking.
    pub fn into_bytes(self) -> Result<Vec<u8>, Memory>
        ensures { IfOk result (λ bytes. self ≡ Some bytes.items) }
    {
        if self.lacks_memory {
            return Err(Memory);
        }
        Ok(self.bytes)
    }

    fn text(&mut self, text: &[u8])
        ensures { Writes text.now self.old self.new }
    {
        if !self.lacks_memory {
            self.lacks_memory = self.bytes.extend_from_slice(text).is_err();
        }
    }

    fn digits(&mut self, x: Value)
        ensures { Writes (token_text (token.Number x)) self.old self.new }
    {
        let mut buffer = Buffer::new();
        self.text(buffer.format(x).as_bytes());
    }

    // A token without what follows it.
    fn bare(&mut self, token: &Token)
        ensures { Writes (token_text token.now) self.old self.new }
    {
        match token {
            Token::Ident(name) => self.text(name.as_bytes()),
            Token::Number(x) => self.digits(*x),
            Token::Word(word) => self.text(word_text(*word).as_bytes()),
            Token::Sign(sign) => self.text(sign_text(*sign).as_bytes()),
        }
    }

    /// Writes a token and what separates it from the next.
    pub fn token(&mut self, token: &Token)
        ensures { Writes (token_bytes token.now) self.old self.new }
    {
        self.bare(token);
        self.text(&[separator(token)]);
    }

    /// Writes tokens in order.
    pub fn tokens(&mut self, tokens: &[Token])
        ensures { Adds (λ more. tokens.now ++ more) self.old self.new }
    {
        for token in tokens {
            self.token(token);
        }
    }
}

// What stands between a token and the next.
fn separator(token: &Token) -> u8
    ensures { result ≡ separator token.now }
{
    match token {
        Token::Sign(Sign::Semicolon)
        | Token::Sign(Sign::OpenBrace)
        | Token::Sign(Sign::CloseBrace) => { b'\n' }
        _ => b' ',
    }
}

/// A part of the tree.
pub trait Print {
    ghost tokens: { Self → List AToken → List AToken };

    /// Writes the part's tokens.
    fn print(&self, out: &mut Printer)
        ensures { Adds (tokens self.now) out.old out.new };
}

/// Writes items one after another.
pub fn each<T: Print>(items: &Seq<T>, out: &mut Printer)
    ensures { Adds (each T.tokens items.now) out.old out.new }
{
    for item in items.as_slice() {
        item.print(out);
    }
}

fn after_commas<T: Print>(items: &[T], out: &mut Printer)
    ensures { Adds (after_commas T.tokens items.now) out.old out.new }
{
    for item in items {
        out.tokens(&[Token::Sign(Sign::Comma)]);
        item.print(out);
    }
}

/// Writes items in brackets, with commas between them.
pub fn in_brackets<T: Print>(items: &Seq<T>, out: &mut Printer)
    ensures { Adds (in_brackets T.tokens items.now) out.old out.new }
{
    out.tokens(&[Token::Sign(Sign::OpenParen)]);
    if let Some((first, rest)) = items.as_slice().split_first() {
        first.print(out);
        after_commas(rest, out);
    }
    out.tokens(&[Token::Sign(Sign::CloseParen)]);
}
