// The tokens of a source.
ghost use Rattle.std.specs.Prelude.{◌≡◌, ◌≤◌, length};
ghost use Rattle.htl_text.specs.Answers.{IsLexed, TellsTokens, TellsFault, AreAll};

use crate::entry::Entry;
use crate::scan::{Front, read_front, skip};
use crate::tokens::Tokens;
use std::alloc::{AllocFailed, Global};
use thiserror::Error;

/// Why a text has no tokens. Offsets are in bytes from its start.
#[derive(Clone, Copy, PartialEq, Eq, Debug, Error)]
pub enum LexFault {
    /// No token begins at this byte.
    #[error("char {offset}")]
    Char {
        /// The byte's offset.
        offset: u64,
    },
    /// A number above 9,223,372,036,854,775,807.
    #[error("number {offset}")]
    Number {
        /// The offset of its first digit.
        offset: u64,
    },
    /// An identifier over 48 bytes.
    #[error("name-long {offset}")]
    NameLong {
        /// The offset of its first byte.
        offset: u64,
    },
    /// No memory was left.
    #[error("memory")]
    Memory,
}

impl<T: Drop> From<AllocFailed<T>> for LexFault {
    ghost use Rattle.htl_text.specs.declared.lexer.LexFault.TheVariants.{Memory};

    ghost from_gives = { λ _ e. e ≡ Memory };

    fn from(_error: AllocFailed<T>) -> LexFault {
        LexFault::Memory
    }
}

/// The tokens of a text of at most 1,048,576 bytes, or the first fault in it. Blanks (space, tab, carriage
/// return, line feed) and comments (from `//` to before the next line feed, or to the end) separate tokens;
/// at each place the longest token is taken. Memory comes only where no memory was left. Linear in the text;
/// takes twelve bytes for each token, and a copy of the text.
pub fn lex(alloc: Global, bytes: &[u8]) -> Result<Tokens, LexFault>
    requires { length bytes.now ≤ 1048576 }
    ensures answer { IsLexed bytes.now result }
    ensures tokens { TellsTokens bytes.now result }
    ensures fault { TellsFault bytes.now result }
{
    read_tokens(alloc, bytes)
}

fn read_tokens(alloc: Global, bytes: &[u8]) -> Result<Tokens, LexFault>
    requires { length bytes.now ≤ 1048576 }
    ensures { IsLexed bytes.now result }
{
    let mut entries = Vec::new(alloc);
    let mut rest = bytes;
    loop {
        let here = skip(rest);
        if here.is_empty() {
            return hold(alloc, bytes, entries);
        }
        let offset = bytes.len() - here.len();
        match read_front(here) {
            Front::Token { kind, len } => {
                entries.push(Entry {
                    kind,
                    offset: offset as u32,
                    len: len as u32,
                })?;
                let (_, behind) = here.split_at(len);
                rest = behind;
            }
            Front::Nothing => return Err(LexFault::Char {
                offset: offset as u64,
            }),
            Front::LargeNumber => return Err(LexFault::Number {
                offset: offset as u64,
            }),
            Front::LongName => return Err(LexFault::NameLong {
                offset: offset as u64,
            }),
        }
    }
}

// The tokens of these entries, with a copy of the source.
fn hold(alloc: Global, bytes: &[u8], entries: Vec<Entry>) -> Result<Tokens, LexFault>
    requires { AreAll bytes.now entries.items }
    ensures { IsLexed bytes.now result }
{
    match bytes.to_vec(alloc) {
        Ok(source) => Ok(Tokens::new(source, entries)),
        Err(_) => Err(LexFault::Memory),
    }
}
