// The tokens that are left to read.
ghost use Rattle.std.specs.Prelude.{◌≡◌, ◌≤◌, ◌∷◌, [], Some, length, IfSome};
ghost use Rattle.htl_text.specs.Placed.{Placed, Put, tokens_numbered};
ghost use Rattle.htl_text.specs.Grammar.{prefix_of};
ghost use Rattle.htl_text.specs.declared.token.Kind.TheVariants as kind;
ghost use Rattle.htl_parse.specs.Cursors.{next_kind, NextIs, behind, IsDone, IsSimple, Passes, PassesOperator, PassesBinary, Stands, Gives};
ghost use Rattle.htl_parse.specs.Reading.{after_sign, after_word, place_at, type_at, name_at, number_at, const_at, clause_at};
ghost use Rattle.htl_parse.specs.ReadingStatements.{kind_at, begins_program};
ghost use Rattle.htl_text.specs.declared.token.Token.TheVariants as token;

use crate::operator::{binary_of, prefix_of};
use crate::stop::Stop;
use htl_base::{BinOp, Name, Ty, UnOp, Value};
use htl_text::{ConstNode, Id, Kind, Node, Num, Sign, Tokens, Word};
use std::marker::Model;

/// Where a reader stands among the tokens of a source; contracts see what is left, each token with its
/// number. No call takes memory, and each takes a few steps.
#[derive(Drop)]
pub struct Cursor<'a> {
    tokens: &'a Tokens,
    place: u32,
}

impl<'a> Model for Cursor<'a> {
    ghost use Rattle.std.specs.Prelude.{List, length, drop, ◌≤◌};
    ghost use Rattle.htl_text.specs.Placed.{Placed, tokens_numbered};

    ghost Value = { List Placed };

    ghost view = { λ c. tokens_numbered c.place (drop c.place c.tokens.now.tokens) };

    ghost invariant = { λ c. (c.place ≤ length c.tokens.now.tokens) × (length c.tokens.now.tokens ≤ 1048576) };
}

impl<'a> Cursor<'a> {
    /// Before the first token.
    pub fn new(tokens: &'a Tokens) -> Cursor<'a>
        ensures { result ≡ tokens_numbered 0 tokens.now.tokens }
    {
        let _short = tokens.len();
        Cursor { tokens, place: 0 }
    }

    /// The kind of the token that stands next; None at the end.
    pub fn next(&self) -> Option<Kind>
        ensures kind { result ≡ next_kind self.now }
        ensures first { NextIs self.now result }
    {
        self.tokens.kind(self.place as usize)
    }

    /// Passes the token that stands next, and answers its number. At the end nothing is passed, and the answer
    /// is 0.
    #[tactic(auto, using(crate::proofs::Standing::places))]
    pub fn pass(&mut self) -> u32
        ensures rest { self.new ≡ behind self.old }
        ensures place { result ≡ place_at self.old }
    {
        let place = self.place;
        if place as usize >= self.tokens.len() {
            return 0;
        }
        self.place = place + 1;
        place
    }

    // The name that stands next.
    fn next_name(&self) -> Name
        requires { next_kind self.now ≡ Some kind.Ident }
        ensures { self.now ≡ Put (place_at self.now) (token.Ident result) ∷ behind self.now }
    {
        self.tokens.name(self.place as usize)
    }

    // The number that stands next.
    fn next_number(&self) -> Value
        requires { next_kind self.now ≡ Some kind.Number }
        ensures { self.now ≡ Put (place_at self.now) (token.Number result) ∷ behind self.now }
    {
        self.tokens.number(self.place as usize)
    }

    /// How many tokens are left.
    pub fn remaining(&self) -> usize
        ensures { result ≡ length self.now }
    {
        self.tokens.len() - self.place as usize
    }

    /// Whether nothing is left.
    pub fn is_done(&self) -> bool
        ensures { IsDone self.now result }
    {
        match self.next() {
            None => true,
            Some(_) => false,
        }
    }

    /// The number of the token that stands next; 0 at the end.
    #[tactic(auto, using(crate::proofs::Standing::places))]
    pub fn place(&self) -> u32
        ensures { result ≡ place_at self.now }
    {
        if self.place as usize >= self.tokens.len() {
            return 0;
        }
        self.place
    }

    /// Passes this sign, where it stands next, and answers its number.
    pub fn sign(&mut self, wanted: Sign) -> Option<u32>
        ensures { Passes (token.Sign wanted) self.old self.new result }
    {
        match self.next() {
            Some(Kind::Sign(sign)) if sign == wanted => Some(self.pass()),
            _ => None,
        }
    }

    /// Passes this word, where it stands next, and answers its number.
    pub fn word(&mut self, wanted: Word) -> Option<u32>
        ensures { Passes (token.Word wanted) self.old self.new result }
    {
        match self.next() {
            Some(Kind::Word(word)) if word == wanted => Some(self.pass()),
            _ => None,
        }
    }

    /// Passes a sign that must stand here.
    #[tactic(auto, using(crate::proofs::Standing::stands))]
    pub fn expect(&mut self, wanted: Sign) -> Result<(), Stop>
        ensures { Stands result self.new (after_sign wanted self.old) }
    {
        match self.sign(wanted) {
            Some(_) => Ok(()),
            None => Err(Stop::Syntax),
        }
    }

    /// Passes a word that must stand here.
    #[tactic(auto, using(crate::proofs::Standing::stands))]
    pub fn expect_word(&mut self, wanted: Word) -> Result<(), Stop>
        ensures { Stands result self.new (after_word wanted self.old) }
    {
        match self.word(wanted) {
            Some(_) => Ok(()),
            None => Err(Stop::Syntax),
        }
    }

    /// Passes an operator that stands between operands, of a level from `loosest` on and below `limit`, where one
    /// stands next; answers its number and its level too.
    pub fn binary_operator(&mut self, loosest: u8, limit: u8) -> Option<(u32, u8, BinOp)>
        requires { limit ≤ 5 }
        ensures { PassesBinary loosest limit self.old self.new result }
    {
        let Some(Kind::Sign(sign)) = self.next() else {
            return None;
        };
        let (level, op) = binary_of(sign)?;
        if level < loosest || limit <= level {
            return None;
        }
        let place = self.pass();
        Some((place, level, op))
    }

    /// Passes a `-` or `!`, where one stands next, and answers its number.
    pub fn prefix_operator(&mut self) -> Option<(u32, UnOp)>
        ensures { PassesOperator prefix_of self.old self.new result }
    {
        let Some(Kind::Sign(sign)) = self.next() else {
            return None;
        };
        let op = prefix_of(sign)?;
        let place = self.pass();
        Some((place, op))
    }

    /// A number, a truth value or a name.
    pub fn simple(&mut self) -> Option<Node>
        ensures { IsSimple self.old self.new result }
    {
        match self.next() {
            Some(Kind::Number) => {
                let x = self.next_number();
                let token = self.pass();
                Some(Node::Int { token, x })
            }
            Some(Kind::Word(Word::True)) => {
                let token = self.pass();
                Some(Node::Bool { token, x: true })
            }
            Some(Kind::Word(Word::False)) => {
                let token = self.pass();
                Some(Node::Bool { token, x: false })
            }
            Some(Kind::Ident) => {
                let name = self.next_name();
                let token = self.pass();
                let id = Id { name, token };
                Some(Node::Named { id })
            }
            _ => None,
        }
    }

    /// Reads a type.
    pub fn ty(&mut self) -> Result<Ty, Stop>
        ensures { Gives (λ t. t) result self.new (type_at self.old) }
    {
        match self.next() {
            Some(Kind::Word(Word::Int)) => {
                self.pass();
                Ok(Ty::Int)
            }
            Some(Kind::Word(Word::Bool)) => {
                self.pass();
                Ok(Ty::Bool)
            }
            _ => Err(Stop::Syntax),
        }
    }

    /// Reads a name.
    pub fn name(&mut self) -> Result<Id, Stop>
        ensures { Gives (λ id. id) result self.new (name_at self.old) }
    {
        match self.next() {
            Some(Kind::Ident) => {
                let name = self.next_name();
                let token = self.pass();
                Ok(Id { name, token })
            }
            _ => Err(Stop::Syntax),
        }
    }

    /// Reads a number.
    pub fn number(&mut self) -> Result<Num, Stop>
        ensures { Gives (λ n. n) result self.new (number_at self.old) }
    {
        match self.next() {
            Some(Kind::Number) => {
                let x = self.next_number();
                let token = self.pass();
                Ok(Num { x, token })
            }
            _ => Err(Stop::Syntax),
        }
    }

    /// Reads a constant.
    pub fn constant(&mut self) -> Result<ConstNode, Stop>
        ensures { Gives (λ c. c) result self.new (const_at self.old) }
    {
        match self.next() {
            Some(Kind::Number) => {
                let x = self.next_number();
                let token = self.pass();
                Ok(ConstNode::Int {
                    token,
                    minus: false,
                    x,
                })
            }
            Some(Kind::Sign(Sign::Minus)) => {
                let token = self.pass();
                let x = self.number()?.x;
                Ok(ConstNode::Int {
                    token,
                    minus: true,
                    x,
                })
            }
            Some(Kind::Word(Word::True)) => {
                let token = self.pass();
                Ok(ConstNode::Bool { token, x: true })
            }
            Some(Kind::Word(Word::False)) => {
                let token = self.pass();
                Ok(ConstNode::Bool { token, x: false })
            }
            _ => Err(Stop::Syntax),
        }
    }

    /// Reads a name behind a word, where the word stands next.
    #[tactic(auto, using(crate::proofs::Standing::clauses))]
    pub fn clause(&mut self, wanted: Word) -> Result<Option<Id>, Stop>
        ensures { Gives (λ o. o) result self.new (clause_at wanted self.old) }
    {
        if let Some(_) = self.word(wanted) {
            let name = self.name()?;
            return Ok(Some(name));
        }
        Ok(None)
    }

    /// Reads the word that begins a communicator; whether it is `sensor`.
    pub fn kind(&mut self) -> Result<bool, Stop>
        ensures { Gives (λ k. k) result self.new (kind_at self.old) }
    {
        match self.next() {
            Some(Kind::Word(Word::Communicator)) => {
                self.pass();
                Ok(false)
            }
            Some(Kind::Word(Word::Sensor)) => {
                self.pass();
                Ok(true)
            }
            _ => Err(Stop::Syntax),
        }
    }

    /// Whether a program begins here.
    pub fn begins_program(&self) -> bool
        ensures { result ≡ begins_program self.now }
    {
        matches!(self.next(), Some(Kind::Word(Word::Program)))
    }
}
