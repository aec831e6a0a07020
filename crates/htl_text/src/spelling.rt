// Numbers, reserved words and signs, and their texts.
ghost use Rattle.std.specs.Prelude.{◌≡◌, true, [], ◌∷◌, Some, find, is_some, map};
ghost use Rattle.std.specs.Option.{option_map};
ghost use Rattle.std.specs.Str.{bytes_eq};
ghost use Rattle.htl_text.specs.PrintedBytes.{sign_text, word_text};
ghost use Rattle.htl_text.specs.Texts.{is_numeral, number_of, sign_of, word_of, look_up};

use crate::token::{Sign, Word};
use htl_base::Value;

// The greatest number of a source.
const MAX_NUMBER: u64 = 9_223_372_036_854_775_807;

/// The number that digits write, where it is below 2^63.
pub fn number_of(digits: &[u8]) -> Option<Value>
    requires { is_numeral digits.now ≡ true }
    ensures { result ≡ number_of digits.now }
{
    let mut x = 0u64;
    for b in digits {
        if x > MAX_NUMBER / 10 {
            return None;
        }
        x = x * 10 + (*b - b'0') as u64;
    }
    if x > MAX_NUMBER {
        return None;
    }
    Some(x as Value)
}

/// The number that digits write, where it is known to be below 2^63.
pub fn known_number(digits: &[u8]) -> Value
    requires digits { is_numeral digits.now ≡ true }
    requires fits { is_some (number_of digits.now) ≡ true }
    ensures { number_of digits.now ≡ Some result }
{
    let mut x = 0u64;
    for b in digits {
        x = x * 10 + (*b - b'0') as u64;
    }
    x as Value
}

/// The reserved word that a text spells. No word but those with its first byte is compared with it.
pub fn word_of(text: &[u8]) -> Option<Word>
    ensures { result ≡ word_of text.now }
{
    match text {
        [_] => None,
        [b'a', ..] => word_in(&[("abstract", Word::Abstract)], text),
        [b'b', ..] => word_in(&[("bool", Word::Bool)], text),
        [b'c', ..] => word_in(&[("communicator", Word::Communicator)], text),
        [b'f', ..] => word_in(&[("false", Word::False)], text),
        [b'i', ..] => word_in(&I_WORDS, text),
        [b'm', ..] => word_in(&M_WORDS, text),
        [b'o', ..] => word_in(&[("output", Word::Output)], text),
        [b'p', ..] => word_in(&P_WORDS, text),
        [b's', ..] => word_in(&S_WORDS, text),
        [b't', ..] => word_in(&T_WORDS, text),
        [b'w', ..] => word_in(&[("worst", Word::Worst)], text),
        _ => None,
    }
}

const I_WORDS: [(&str, Word); 5] = [
    ("input", Word::Input),
    ("invoke", Word::Invoke),
    ("init", Word::Init),
    ("int", Word::Int),
    ("if", Word::If),
];

const M_WORDS: [(&str, Word); 2] = [("mode", Word::Mode), ("module", Word::Module)];

const P_WORDS: [(&str, Word); 4] = [
    ("program", Word::Program),
    ("period", Word::Period),
    ("port", Word::Port),
    ("parent", Word::Parent),
];

const S_WORDS: [(&str, Word); 3] = [
    ("sensor", Word::Sensor),
    ("start", Word::Start),
    ("switch", Word::Switch),
];

const T_WORDS: [(&str, Word); 2] = [("task", Word::Task), ("true", Word::True)];

// The word beside a spelling in a table.
fn word_in(words: &[(&str, Word)], text: &[u8]) -> Option<Word>
    ensures { result ≡ look_up (map (λ e. (e.0.now, e.1)) words.now) text.now }
{
    find_word(words, text)
}

fn find_word(words: &[(&str, Word)], text: &[u8]) -> Option<Word>
    ensures { result ≡ option_map (λ e. e.1) (find (λ e. bytes_eq e.0.now text.now) words.now) }
{
    words
        .iter()
        .find(|entry| is_text(entry.0.as_bytes(), text))
        .map(|entry| entry.1)
}

// Whether a word has the bytes of a text. Most texts that a word is compared with have another length.
fn is_text(word: &[u8], text: &[u8]) -> bool
    ensures { result ≡ bytes_eq word.now text.now }
{
    if word.len() != text.len() {
        return false;
    }
    are_same(word, text)
}

// Whether two texts have the same bytes. Words are short, so they are compared one by one.
fn are_same(word: &[u8], text: &[u8]) -> bool
    ensures { result ≡ bytes_eq word.now text.now }
{
    let mut letters = word;
    let mut bytes = text;
    while let [letter, more @ ..] = letters {
        let [b, rest @ ..] = bytes else {
            return false;
        };
        if *letter != *b {
            return false;
        }
        letters = more;
        bytes = rest;
    }
    bytes.is_empty()
}

/// The sign that one byte spells.
pub fn one_byte_sign(b: u8) -> Option<Sign>
    ensures { result ≡ sign_of (b ∷ []) }
{
    match b {
        b'{' => Some(Sign::OpenBrace),
        b'}' => Some(Sign::CloseBrace),
        b'(' => Some(Sign::OpenParen),
        b')' => Some(Sign::CloseParen),
        b';' => Some(Sign::Semicolon),
        b',' => Some(Sign::Comma),
        b'=' => Some(Sign::Assign),
        b'<' => Some(Sign::Less),
        b'>' => Some(Sign::Greater),
        b'+' => Some(Sign::Plus),
        b'-' => Some(Sign::Minus),
        b'*' => Some(Sign::Star),
        b'/' => Some(Sign::Slash),
        b'%' => Some(Sign::Percent),
        b'!' => Some(Sign::Not),
        _ => None,
    }
}

/// The sign that two bytes spell.
pub fn two_byte_sign(b: u8, c: u8) -> Option<Sign>
    ensures { result ≡ sign_of (b ∷ c ∷ []) }
{
    match (b, c) {
        (b'=', b'=') => Some(Sign::Equal),
        (b'!', b'=') => Some(Sign::NotEqual),
        (b'<', b'=') => Some(Sign::LessEqual),
        (b'>', b'=') => Some(Sign::GreaterEqual),
        (b'&', b'&') => Some(Sign::And),
        (b'|', b'|') => Some(Sign::Or),
        _ => None,
    }
}

/// The spelling of a reserved word.
pub fn word_text(word: Word) -> &'static str
    ensures { result.now ≡ word_text word }
{
    match word {
        Word::Program => "program",
        Word::Communicator => "communicator",
        Word::Sensor => "sensor",
        Word::Module => "module",
        Word::Start => "start",
        Word::Abstract => "abstract",
        Word::Task => "task",
        Word::Input => "input",
        Word::Output => "output",
        Word::Worst => "worst",
        Word::Mode => "mode",
        Word::Period => "period",
        Word::Port => "port",
        Word::Invoke => "invoke",
        Word::Parent => "parent",
        Word::Switch => "switch",
        Word::Init => "init",
        Word::Int => "int",
        Word::Bool => "bool",
        Word::True => "true",
        Word::False => "false",
        Word::If => "if",
    }
}

/// The spelling of a sign.
pub fn sign_text(sign: Sign) -> &'static str
    ensures { result.now ≡ sign_text sign }
{
    match sign {
        Sign::OpenBrace => "{",
        Sign::CloseBrace => "}",
        Sign::OpenParen => "(",
        Sign::CloseParen => ")",
        Sign::Semicolon => ";",
        Sign::Comma => ",",
        Sign::Assign => "=",
        Sign::Equal => "==",
        Sign::NotEqual => "!=",
        Sign::Less => "<",
        Sign::LessEqual => "<=",
        Sign::Greater => ">",
        Sign::GreaterEqual => ">=",
        Sign::Plus => "+",
        Sign::Minus => "-",
        Sign::Star => "*",
        Sign::Slash => "/",
        Sign::Percent => "%",
        Sign::Not => "!",
        Sign::And => "&&",
        Sign::Or => "||",
    }
}
