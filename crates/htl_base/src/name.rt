// A name of the source, held in place.
ghost use Rattle.std.specs.Prelude.{◌≡◌, ◌≤◌, is_some, IsTrue, IfSome, List, ℕ, length};
ghost use Rattle.htl_base.specs.Names.{is_name, is_identifier, is_reserved, is_letter, is_word_byte};
ghost use Rattle.std.specs.List.{list_all, list_any};
ghost use Rattle.std.specs.Str.{bytes_eq};

use crate::limits::MAX_NAME;
use std::marker::Model;

/// The name of an item of a source: an ASCII letter or `_`, then letters, digits or `_`, in all 1 to 48
/// bytes, and no reserved word. It is held in place and copied freely; contracts see its bytes.
#[derive(Clone, Copy, PartialEq, Eq, Hash)]
pub struct Name {
    len: u8,
    bytes: [u8; MAX_NAME],
}

impl Model for Name {
    ghost use Rattle.std.specs.Prelude.{List, ℕ, take};
    ghost use Rattle.htl_base.specs.Held.{IsHeld};

    ghost Value = { List ℕ };

    ghost use Rattle.htl_base.specs.Fields.{fields, fields-front};

    ghost view = { λ n. take n.len n.bytes };

    ghost invariant = { λ n. IsHeld n.len n.bytes };

    ghost inverse = { fields };

    ghost inverse_ok = { fields-front };
}

impl Name {
    /// The name that these bytes spell. None exactly where they are no identifier of 1 to 48 bytes, or
    /// are a reserved word.
    pub fn new(bytes: &[u8]) -> Option<Name>
        ensures value { IfSome result (λ name. name ≡ bytes.now) }
        ensures exact { is_some result ≡ is_name bytes.now }
    {
        if is_name(bytes) {
            Some(Name::from_known(bytes))
        } else {
            None
        }
    }

    /// The name that these bytes spell, where they are known to spell one: an identifier of 1 to 48 bytes that is
    /// no reserved word. They are copied, and not tested again.
    pub fn from_known(bytes: &[u8]) -> Name
        requires { IsTrue (is_name bytes.now) }
        ensures { result ≡ bytes.now }
    {
        let mut held = [0u8; MAX_NAME];
        let len = bytes.len();
        held[..len].copy_from_slice(bytes);
        Name {
            len: len as u8,
            bytes: held,
        }
    }

    /// The bytes of the name, 1 to 48 of them.
    pub fn as_bytes(&self) -> &[u8]
        ensures value { result.now ≡ self.now }
        ensures name { IsTrue (is_name result.now) }
        ensures short { length result.now ≤ 48 }
    {
        &self.bytes[..self.len as usize]
    }
}

// The bytes are an identifier of 1 to 48 bytes and no reserved word.
fn is_name(bytes: &[u8]) -> bool
    ensures { result ≡ is_name bytes.now }
{
    bytes.len() <= MAX_NAME && is_identifier(bytes) && !is_reserved(bytes)
}

// The bytes are a letter or `_`, and then letters, digits or `_`.
fn is_identifier(bytes: &[u8]) -> bool
    ensures { result ≡ is_identifier bytes.now }
{
    if bytes.is_empty() {
        return false;
    }
    is_letter(bytes[0]) && are_word_bytes(bytes)
}

// Each byte is a letter, a digit or `_`.
fn are_word_bytes(bytes: &[u8]) -> bool
    ensures { result ≡ list_all is_word_byte bytes.now }
{
    bytes.iter().all(|b| is_word_byte(*b))
}

// The byte is a letter or `_`.
fn is_letter(b: u8) -> bool
    ensures { result ≡ is_letter b }
{
    b.is_ascii_alphabetic() || b == b'_'
}

// The byte is a letter, a digit or `_`.
fn is_word_byte(b: u8) -> bool
    ensures { result ≡ is_word_byte b }
{
    b.is_ascii_alphanumeric() || b == b'_'
}

const RESERVED_WORDS: [&str; 22] = [
    "program",
    "communicator",
    "sensor",
    "module",
    "start",
    "abstract",
    "task",
    "input",
    "output",
    "worst",
    "mode",
    "period",
    "port",
    "invoke",
    "parent",
    "switch",
    "init",
    "int",
    "bool",
    "true",
    "false",
    "if",
];

fn is_reserved(bytes: &[u8]) -> bool
    ensures { result ≡ is_reserved bytes.now }
{
    is_among(bytes, &RESERVED_WORDS)
}

// One of the words has these bytes.
fn is_among(bytes: &[u8], words: &[&str]) -> bool
    ensures { result ≡ list_any (λ word. bytes_eq bytes.now word.now) words.now }
{
    words.iter().any(|word| bytes == word.as_bytes())
}
