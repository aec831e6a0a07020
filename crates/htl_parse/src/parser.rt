// Whole sources.
ghost use Rattle.std.specs.Prelude.{◌≡◌, ◌≤◌, ◌-◌, length, map, IfOk};
ghost use Rattle.htl_text.specs.Bounds.{IsBounded};
ghost use Rattle.htl_text.specs.Nodes.{program_of, tree_of};
ghost use Rattle.htl_parse.specs.Answers.{IsTree, IsParsed, TellsTree, TellsLong, TellsSyntax};
ghost use Rattle.htl_parse.specs.Cursors.{GivesWhole};
ghost use Rattle.htl_parse.specs.ReadingStatements.{source_at};

use crate::cursor::Cursor;
use crate::long::first_long;
use crate::source::source;
use crate::stop::Stop;
use htl_base::Seq;
use htl_text::{ProgramNode, Tokens, Tree};
use std::alloc::Global;
use thiserror::Error;

/// Why tokens have no tree.
#[derive(Clone, Copy, Debug, Error)]
pub enum ParseFault {
    /// No tree spells the tokens.
    #[error("syntax {token}")]
    Syntax {
        /// The number of the first token with which no source begins; the number of all tokens, where what is
        /// missing stands behind them.
        token: u32,
    },
    /// No memory was left.
    #[error("memory")]
    Memory,
    /// A run of tokens without `;`, `{` and `}` has more than 512.
    #[error("long {token}")]
    Long {
        /// The number of the 513th token of the first such run.
        token: u32,
    },
}

/// The tree that the tokens spell; at most one tree does.
///
/// `Long` comes exactly where a run of tokens without `;`, `{` and `}` has more than 512, and is tried first;
/// `Syntax` where no tree spells the tokens, with the first token that doesn't fit: those before it begin some
/// source, and with it they begin none, or it is the number of all. `Memory` comes only where no memory was left.
///
/// The tree has at most 1,048,576 programs and items of any kind, at most 256 in each list of parameters or
/// ends, at most 512 nodes in each expression, at most 256 names in each switch condition, and no negative
/// literal. Linear in the tokens; the depth of the recursion is bounded by the length of a run.
pub fn parse(alloc: Global, tokens: &Tokens) -> Result<Tree, ParseFault>
    ensures answer { IsParsed tokens.now.tokens result }
    ensures tree { TellsTree tokens.now.tokens result }
    ensures long { TellsLong tokens.now.tokens result }
    ensures syntax { TellsSyntax tokens.now.tokens result }
    ensures bounded { IfOk result (λ tree. IsBounded (tree_of tree)) }
{
    let _facts = tokens.len();
    parse_tokens(alloc, tokens)
}

fn parse_tokens(alloc: Global, tokens: &Tokens) -> Result<Tree, ParseFault>
    ensures { IsParsed tokens.now.tokens result }
{
    if let Some(token) = first_long(tokens) {
        return Err(ParseFault::Long { token });
    }
    parse_source(alloc, tokens)
}

// The tree of all tokens, or the first that does not fit.
fn parse_source(alloc: Global, tokens: &Tokens) -> Result<Tree, ParseFault>
    ensures { IsTree tokens.now.tokens result }
{
    let mut cursor = Cursor::new(tokens);
    match whole_source(alloc, &mut cursor) {
        Ok(programs) => Ok(Tree { programs }),
        Err(Stop::Syntax) => {
            let token = misfit(tokens, &cursor);
            Err(ParseFault::Syntax { token })
        }
        Err(Stop::Memory) => Err(ParseFault::Memory),
    }
}

// The programs of a source, behind which nothing stands.
fn whole_source(alloc: Global, cursor: &mut Cursor<'_>) -> Result<Seq<ProgramNode>, Stop>
    ensures { GivesWhole (λ v. map program_of v) result cursor.new (source_at cursor.old) }
{
    let programs = source(alloc, cursor)?;
    if cursor.is_done() {
        Ok(programs)
    } else {
        Err(Stop::Syntax)
    }
}

// The number of the token at which the cursor stands, which may be behind the last.
fn misfit(tokens: &Tokens, cursor: &Cursor<'_>) -> u32
    requires { length cursor.now ≤ length tokens.now.tokens }
    ensures { result ≡ length tokens.now.tokens - length cursor.now }
{
    let token = tokens.len() - cursor.remaining();
    token as u32
}
