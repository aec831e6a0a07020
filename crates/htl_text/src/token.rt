// One token of a source.
use htl_base::{Name, Value};

/// A reserved word.
#[derive(Clone, Copy, PartialEq, Eq)]
pub enum Word {
    /// `program`
    Program,
    /// `communicator`
    Communicator,
    /// `sensor`
    Sensor,
    /// `module`
    Module,
    /// `start`
    Start,
    /// `abstract`
    Abstract,
    /// `task`
    Task,
    /// `input`
    Input,
    /// `output`
    Output,
    /// `worst`
    Worst,
    /// `mode`
    Mode,
    /// `period`
    Period,
    /// `port`
    Port,
    /// `invoke`
    Invoke,
    /// `parent`
    Parent,
    /// `switch`
    Switch,
    /// `init`
    Init,
    /// `int`
    Int,
    /// `bool`
    Bool,
    /// `true`
    True,
    /// `false`
    False,
    /// `if`
    If,
}

/// A sign.
#[derive(Clone, Copy, PartialEq, Eq)]
pub enum Sign {
    /// `{`
    OpenBrace,
    /// `}`
    CloseBrace,
    /// `(`
    OpenParen,
    /// `)`
    CloseParen,
    /// `;`
    Semicolon,
    /// `,`
    Comma,
    /// `=`
    Assign,
    /// `==`
    Equal,
    /// `!=`
    NotEqual,
    /// `<`
    Less,
    /// `<=`
    LessEqual,
    /// `>`
    Greater,
    /// `>=`
    GreaterEqual,
    /// `+`
    Plus,
    /// `-`
    Minus,
    /// `*`
    Star,
    /// `/`
    Slash,
    /// `%`
    Percent,
    /// `!`
    Not,
    /// `&&`
    And,
    /// `||`
    Or,
}

/// A token: a name, a number from 0 to 9,223,372,036,854,775,807, a reserved word or a sign.
#[derive(Clone, Copy, PartialEq, Eq)]
pub enum Token {
    /// An identifier of at most 48 bytes that is no reserved word.
    Ident(Name),
    /// A run of decimal digits, leading zeros allowed; never negative.
    Number(Value),
    /// A reserved word.
    Word(Word),
    /// A sign.
    Sign(Sign),
}

/// What a token is, without the bytes of a name or the value of a number.
#[derive(Clone, Copy, PartialEq, Eq)]
pub enum Kind {
    /// An identifier that is no reserved word.
    Ident,
    /// A run of decimal digits.
    Number,
    /// A reserved word.
    Word(Word),
    /// A sign.
    Sign(Sign),
}
