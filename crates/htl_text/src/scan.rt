// What stands at one place of a text.
ghost use Rattle.std.specs.Prelude.{◌≡◌, ◌≤◌, ◌+◌, ◌&&◌, true, false, get_or, length, slice_index};
ghost use Rattle.std.specs.Char.{is_ascii_digit};
ghost use Rattle.std.specs.List.{prefix_len};
ghost use Rattle.htl_base.specs.Names.{is_letter, is_word_byte};
ghost use Rattle.htl_text.specs.Spans.{is_blank};
ghost use Rattle.htl_text.specs.Scanning.{skip, BeginsSolid, IsFront, IsFrontSign};

use crate::spelling::{number_of, one_byte_sign, two_byte_sign, word_of};
use crate::token::{Kind, Sign};
use htl_base::limits::MAX_NAME;

/// What a text begins with.
#[derive(Clone, Copy)]
pub enum Front {
    /// A token of this kind and length, the longest with which it begins.
    Token { kind: Kind, len: usize },
    /// No token.
    Nothing,
    /// A number above 9,223,372,036,854,775,807.
    LargeNumber,
    /// An identifier over 48 bytes.
    LongName,
}

const F: bool = false;

const T: bool = true;

// Which bytes are blanks.
const BLANKS: [bool; 256] = [
    F, F, F, F, F, F, F, F, F, T, T, F, F, T, F, F, F, F, F, F, F, F, F, F, F, F, F, F, F, F, F, F,
    T, F, F, F, F, F, F, F, F, F, F, F, F, F, F, F, F, F, F, F, F, F, F, F, F, F, F, F, F, F, F, F,
    F, F, F, F, F, F, F, F, F, F, F, F, F, F, F, F, F, F, F, F, F, F, F, F, F, F, F, F, F, F, F, F,
    F, F, F, F, F, F, F, F, F, F, F, F, F, F, F, F, F, F, F, F, F, F, F, F, F, F, F, F, F, F, F, F,
    F, F, F, F, F, F, F, F, F, F, F, F, F, F, F, F, F, F, F, F, F, F, F, F, F, F, F, F, F, F, F, F,
    F, F, F, F, F, F, F, F, F, F, F, F, F, F, F, F, F, F, F, F, F, F, F, F, F, F, F, F, F, F, F, F,
    F, F, F, F, F, F, F, F, F, F, F, F, F, F, F, F, F, F, F, F, F, F, F, F, F, F, F, F, F, F, F, F,
    F, F, F, F, F, F, F, F, F, F, F, F, F, F, F, F, F, F, F, F, F, F, F, F, F, F, F, F, F, F, F, F,
];

// Which bytes are letters, digits or `_`.
const WORD_BYTES: [bool; 256] = [
    F, F, F, F, F, F, F, F, F, F, F, F, F, F, F, F, F, F, F, F, F, F, F, F, F, F, F, F, F, F, F, F,
    F, F, F, F, F, F, F, F, F, F, F, F, F, F, F, F, T, T, T, T, T, T, T, T, T, T, F, F, F, F, F, F,
    F, T, T, T, T, T, T, T, T, T, T, T, T, T, T, T, T, T, T, T, T, T, T, T, T, T, T, F, F, F, F, T,
    F, T, T, T, T, T, T, T, T, T, T, T, T, T, T, T, T, T, T, T, T, T, T, T, T, T, T, F, F, F, F, F,
    F, F, F, F, F, F, F, F, F, F, F, F, F, F, F, F, F, F, F, F, F, F, F, F, F, F, F, F, F, F, F, F,
    F, F, F, F, F, F, F, F, F, F, F, F, F, F, F, F, F, F, F, F, F, F, F, F, F, F, F, F, F, F, F, F,
    F, F, F, F, F, F, F, F, F, F, F, F, F, F, F, F, F, F, F, F, F, F, F, F, F, F, F, F, F, F, F, F,
    F, F, F, F, F, F, F, F, F, F, F, F, F, F, F, F, F, F, F, F, F, F, F, F, F, F, F, F, F, F, F, F,
];

// Whether a byte is a blank: space, tab, carriage return or line feed.
fn is_blank(b: u8) -> bool
    ensures { result ≡ is_blank b }
{
    is_marked(&BLANKS, b)
}

// Whether a byte is a letter, a digit or `_`.
fn is_word_byte(b: u8) -> bool
    ensures { result ≡ is_word_byte b }
{
    is_marked(&WORD_BYTES, b)
}

// Whether a table over all bytes has a mark for one.
fn is_marked(marks: &[bool], b: u8) -> bool
    requires { length marks.now ≡ 256 }
    ensures { result ≡ get_or marks.now b false }
{
    marks[b as usize]
}

/// What follows blanks and comments.
pub fn skip(bytes: &[u8]) -> &[u8]
    ensures { result.now ≡ skip false bytes.now }
{
    let mut rest = behind_blanks(bytes);
    while let [b'/', b'/', more @ ..] = rest {
        rest = behind_blanks(behind_comment(more));
    }
    rest
}

// What follows blanks.
fn behind_blanks(bytes: &[u8]) -> &[u8]
    ensures same { skip false result.now ≡ skip false bytes.now }
    ensures solid { BeginsSolid result.now }
    ensures short { length result.now ≤ length bytes.now }
{
    let mut rest = bytes;
    while let [b, more @ ..] = rest {
        if !is_blank(*b) {
            break;
        }
        rest = more;
    }
    rest
}

// What follows the text of a comment: the next line feed and the rest, or nothing.
fn behind_comment(bytes: &[u8]) -> &[u8]
    ensures same { skip false result.now ≡ skip true bytes.now }
    ensures short { length result.now ≤ length bytes.now }
{
    let mut rest = bytes;
    while let [b, more @ ..] = rest {
        if *b == b'\n' {
            break;
        }
        rest = more;
    }
    rest
}

/// What a text begins with. Its first byte decides, and the bytes of the token are gone over once more at
/// most.
pub fn read_front(text: &[u8]) -> Front
    ensures { IsFront text.now result }
{
    match text {
        [] => Front::Nothing,
        [b, ..] if !is_word_byte(*b) => sign_front(text),
        [b, ..] if b.is_ascii_digit() => number_front(text),
        [_, ..] => word_front(text),
    }
}

// How many bytes of a word stand first.
fn word_len(text: &[u8]) -> usize
    ensures { result ≡ prefix_len is_word_byte text.now }
{
    let rest = behind_fours(text);
    text.len() - (rest.len() - word_end(rest))
}

// How many bytes of a word stand first, where there are most often less than four.
fn word_end(text: &[u8]) -> usize
    ensures { result ≡ prefix_len is_word_byte text.now }
{
    let [first, second, third, fourth, ..] = text else {
        return last_word_len(text);
    };
    if !is_word_byte(*first) {
        0
    } else if !is_word_byte(*second) {
        1
    } else if !is_word_byte(*third) {
        2
    } else if !is_word_byte(*fourth) {
        3
    } else {
        last_word_len(text)
    }
}

fn last_word_len(text: &[u8]) -> usize
    ensures { result ≡ prefix_len is_word_byte text.now }
{
    text.iter().take_while(|b| is_word_byte(**b)).count()
}

// What is left of a text where bytes of a word were passed, four at a time, which takes fewer steps for each.
fn behind_fours(text: &[u8]) -> &[u8]
    ensures same { prefix_len is_word_byte text.now + length result.now ≡ length text.now + prefix_len is_word_byte result.now }
    ensures short { length result.now ≤ length text.now }
{
    let mut rest = text;
    while let [first, second, third, fourth, more @ ..] = rest {
        if !are_word_bytes(*first, *second, *third, *fourth) {
            break;
        }
        rest = more;
    }
    rest
}

fn are_word_bytes(first: u8, second: u8, third: u8, fourth: u8) -> bool
    ensures { result ≡ is_word_byte first && (is_word_byte second && (is_word_byte third && is_word_byte fourth)) }
{
    is_word_byte(first) && is_word_byte(second) && is_word_byte(third) && is_word_byte(fourth)
}

fn digits_len(text: &[u8]) -> usize
    ensures { result ≡ prefix_len is_ascii_digit text.now }
{
    text.iter().take_while(|b| b.is_ascii_digit()).count()
}

// A reserved word or a name.
fn word_front(text: &[u8]) -> Front
    requires { is_letter (slice_index text.now 0) ≡ true }
    ensures { IsFront text.now result }
{
    let len = word_len(text);
    let (word, _) = text.split_at(len);
    match word_of(word) {
        Some(word) => Front::Token {
            kind: Kind::Word(word),
            len,
        },
        None if len <= MAX_NAME => Front::Token {
            kind: Kind::Ident,
            len,
        },
        None => Front::LongName,
    }
}

// So many digits write a number in range.
const SHORT_NUMBER: usize = 18;

fn number_front(text: &[u8]) -> Front
    requires { is_ascii_digit (slice_index text.now 0) ≡ true }
    ensures { IsFront text.now result }
{
    let len = digits_len(text);
    let (digits, _) = text.split_at(len);
    if len <= SHORT_NUMBER {
        return Front::Token {
            kind: Kind::Number,
            len,
        };
    }
    match number_of(digits) {
        Some(_) => Front::Token {
            kind: Kind::Number,
            len,
        },
        None => Front::LargeNumber,
    }
}

fn sign_front(text: &[u8]) -> Front
    requires no_letter { is_letter (slice_index text.now 0) ≡ false }
    requires no_digit { is_ascii_digit (slice_index text.now 0) ≡ false }
    ensures { IsFront text.now result }
{
    match front_sign(text) {
        Some((sign, len)) => Front::Token {
            kind: Kind::Sign(sign),
            len,
        },
        None => Front::Nothing,
    }
}

// The longest sign with which a text begins, and its length.
fn front_sign(text: &[u8]) -> Option<(Sign, usize)>
    ensures { IsFrontSign text.now result }
{
    if let [b, c, ..] = text {
        if let Some(sign) = two_byte_sign(*b, *c) {
            return Some((sign, 2));
        }
    }
    match text {
        [b, ..] => one_byte_sign(*b).map(|sign| (sign, 1)),
        [] => None,
    }
}
