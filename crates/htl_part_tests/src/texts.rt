// Texts, read as far as their tables.
ghost use Rattle.htl_text.specs.Bounds.{IsBounded};
ghost use Rattle.htl_text.specs.Nodes.{tree_of};

use htl_base::limits::MAX_SOURCE;
use htl_compile::SourceFault;
use htl_model::Tables;
use htl_names::{NameFault, resolve};
use htl_parse::parse;
use htl_samples::pieces::{Piece, joined};
use htl_text::{Tokens, Tree, lex};
use std::alloc::{AllocError, Global};

/// The tables of a text, or the first name rule that it breaks, by the byte offset of its place. None where the text
/// is longer than a source or has no tree.
pub fn tables_of(alloc: Global, text: &[u8]) -> Option<Result<Tables, SourceFault>> {
    if text.len() > MAX_SOURCE as usize {
        return None;
    }
    match lex(alloc, text) {
        Ok(tokens) => tables_of_tokens(alloc, &tokens),
        Err(_) => None,
    }
}

fn tables_of_tokens(alloc: Global, tokens: &Tokens) -> Option<Result<Tables, SourceFault>> {
    match parse(alloc, tokens) {
        Ok(tree) => tables_of_tree(alloc, tokens, &tree),
        Err(_) => None,
    }
}

fn tables_of_tree(
    alloc: Global,
    tokens: &Tokens,
    tree: &Tree,
) -> Option<Result<Tables, SourceFault>>
    requires { IsBounded (tree_of tree.now) }
{
    match resolve(alloc, tree) {
        Ok(tables) => Some(Ok(tables)),
        Err(fault) => Some(Err(placed(tokens, fault)?)),
    }
}

// The fault at the first byte of its token.
fn placed(tokens: &Tokens, fault: NameFault) -> Option<SourceFault> {
    match fault {
        NameFault::Twice { token } => {
            let at = first_byte(tokens, token)?;
            Some(SourceFault::Twice { at })
        }
        NameFault::Unknown { token } => {
            let at = first_byte(tokens, token)?;
            Some(SourceFault::Unknown { at })
        }
        NameFault::Kind { token } => {
            let at = first_byte(tokens, token)?;
            Some(SourceFault::Kind { at })
        }
        NameFault::NotATree { program } => Some(SourceFault::NotATree { program }),
        NameFault::Limit { which, count } => Some(SourceFault::Limit { which, count }),
        NameFault::Memory => None,
    }
}

fn first_byte(tokens: &Tokens, token: u32) -> Option<u64> {
    if token as usize >= tokens.len() {
        return None;
    }
    Some(tokens.offset(token as usize))
}

/// Whether a text has tables, or the first name rule that it breaks.
pub fn judged_text(alloc: Global, text: &[u8]) -> Option<Result<(), SourceFault>> {
    match tables_of(alloc, text)? {
        Ok(_) => Some(Ok(())),
        Err(fault) => Some(Err(fault)),
    }
}

/// The same of a text in pieces.
pub fn judged(
    alloc: Global,
    pieces: &[Piece],
) -> Result<Option<Result<(), SourceFault>>, AllocError> {
    let text = joined(alloc, pieces)?;
    Ok(judged_text(alloc, text.as_bytes()))
}
