// The tokens of a source with their places.
ghost use Rattle.std.specs.Prelude.{◌≡◌, ◌≤◌, ◌<◌, ◌+◌, ◌++◌, ◌∷◌, [], Some, length, drop, slice_get};
ghost use Rattle.std.specs.Option.{option_map};
ghost use Rattle.htl_text.specs.Kinds.{kind_of, FirstIs};
ghost use Rattle.htl_text.specs.TokenLists.{AreHeld};
ghost use Rattle.htl_text.specs.Entries.{AreKept, IsKept, text_in, token_in, list_in, kind_at};
ghost use Rattle.htl_text.specs.declared.token.Kind.TheVariants as kind;
ghost use Rattle.htl_text.specs.declared.token.Token.TheVariants as token;

use crate::entry::Entry;
use crate::spelling::known_number;
use crate::token::{Kind, Token};
use htl_base::{Name, Value};
use std::marker::Model;

/// The tokens of a source, each with the place of its first byte, and the length of the source. A copy of the
/// source is held, and twelve bytes for each token. No call takes memory.
pub struct Tokens {
    source: Vec<u8>,
    entries: Vec<Entry>,
}

impl Drop for Tokens {
    fn drop(self) {
        let Self {
            source: _,
            entries: _,
        } = self;
    }
}

impl Model for Tokens {
    ghost use Rattle.htl_text.specs.TokenLists.{TokenList};
    ghost use Rattle.htl_text.specs.Entries.{AreKept, list_in};

    ghost Value = { TokenList };

    ghost view = { λ t. list_in t.source.items t.entries.items };

    ghost invariant = { λ t. AreKept t.source.items t.entries.items };
}

impl Tokens {
    // The tokens of a source whose entries these are.
    pub(crate) fn new(source: Vec<u8>, entries: Vec<Entry>) -> Tokens
        requires { AreKept source.items entries.items }
        ensures { result ≡ list_in source.items entries.items }
    {
        Tokens { source, entries }
    }

    /// How many tokens there are, at most 1,048,576.
    pub fn len(&self) -> usize
        ensures value { result ≡ length self.now.tokens }
        ensures short { result ≤ 1048576 }
        ensures held { AreHeld self.now.tokens self.now.offsets }
    {
        self.entries.len()
    }

    /// The byte offset of a token's first byte; for `token` = `len` the length of the source. `token` is at
    /// most `len`.
    pub fn offset(&self, token: usize) -> u64
        requires { token ≤ length self.now.tokens }
        ensures { slice_get (self.now.offsets ++ self.now.end ∷ []) token ≡ Some result }
    {
        if token < self.entries.len() {
            self.entries[token].offset as u64
        } else {
            self.source.len() as u64
        }
    }

    /// The token at a place, which is below `len`. A name is copied (at most 48 bytes), and the digits of a
    /// number are read again; `kind` tells what stands there without either.
    pub fn token(&self, place: usize) -> Token
        requires { place < length self.now.tokens }
        ensures { slice_get self.now.tokens place ≡ Some result }
    {
        match self.kind(place) {
            Some(Kind::Ident) => Token::Ident(self.name(place)),
            Some(Kind::Number) => Token::Number(self.number(place)),
            Some(Kind::Word(word)) => Token::Word(word),
            Some(Kind::Sign(sign)) => Token::Sign(sign),
            None => unreachable!(),
        }
    }

    /// What the token at a place is; None at `len` and behind. One look.
    pub fn kind(&self, place: usize) -> Option<Kind>
        ensures kind { result ≡ option_map kind_of (slice_get self.now.tokens place) }
        ensures first { FirstIs result (drop place self.now.tokens) (drop (place + 1) self.now.tokens) }
    {
        kind_at(self.entries.as_slice(), place)
    }

    /// The name at a place, where `kind` is Ident. It is copied: at most 48 bytes.
    #[tactic(auto, using(crate::proofs::AtPlaces::at_places))]
    pub fn name(&self, place: usize) -> Name
        requires { option_map kind_of (slice_get self.now.tokens place) ≡ Some kind.Ident }
        ensures value { slice_get self.now.tokens place ≡ Some (token.Ident result) }
        ensures first { drop place self.now.tokens ≡ token.Ident result ∷ drop (place + 1) self.now.tokens }
    {
        self.name_at(place)
    }

    /// The number at a place, where `kind` is Number. Its digits are read again.
    #[tactic(auto, using(crate::proofs::AtPlaces::at_places))]
    pub fn number(&self, place: usize) -> Value
        requires { option_map kind_of (slice_get self.now.tokens place) ≡ Some kind.Number }
        ensures value { slice_get self.now.tokens place ≡ Some (token.Number result) }
        ensures first { drop place self.now.tokens ≡ token.Number result ∷ drop (place + 1) self.now.tokens }
    {
        self.number_at(place)
    }

    fn name_at(&self, place: usize) -> Name
        requires { option_map kind_of (slice_get self.now.tokens place) ≡ Some kind.Ident }
        ensures { slice_get self.now.tokens place ≡ Some (token.Ident result) }
    {
        let source = self.source.as_slice();
        let entry = entry_at(self.entries.as_slice(), place);
        name_in(source, entry)
    }

    fn number_at(&self, place: usize) -> Value
        requires { option_map kind_of (slice_get self.now.tokens place) ≡ Some kind.Number }
        ensures { slice_get self.now.tokens place ≡ Some (token.Number result) }
    {
        let source = self.source.as_slice();
        let entry = entry_at(self.entries.as_slice(), place);
        number_in(source, entry)
    }
}

fn kind_at(entries: &[Entry], place: usize) -> Option<Kind>
    ensures { result ≡ kind_at entries.now place }
{
    if place < entries.len() {
        Some(entries[place].kind)
    } else {
        None
    }
}

fn entry_at(entries: &[Entry], place: usize) -> Entry
    requires { place < length entries.now }
    ensures { slice_get entries.now place ≡ Some result }
{
    entries[place]
}

// The text of a token.
fn text_in(source: &[u8], entry: Entry) -> &[u8]
    requires { entry.offset + entry.len ≤ length source.now }
    ensures { result.now ≡ text_in source.now entry }
{
    let (_, behind) = source.split_at(entry.offset as usize);
    let (text, _) = behind.split_at(entry.len as usize);
    text
}

// The name that stands there.
fn name_in(source: &[u8], entry: Entry) -> Name
    requires kept { IsKept source.now entry }
    requires kind { entry.kind ≡ kind.Ident }
    ensures { token_in source.now entry ≡ token.Ident result }
{
    Name::from_known(text_in(source, entry))
}

// The number that stands there.
fn number_in(source: &[u8], entry: Entry) -> Value
    requires kept { IsKept source.now entry }
    requires kind { entry.kind ≡ kind.Number }
    ensures { token_in source.now entry ≡ token.Number result }
{
    known_number(text_in(source, entry))
}
