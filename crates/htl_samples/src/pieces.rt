//! Texts in pieces, and texts with other pieces.
use std::alloc::{AllocError, Global};

/// A piece of a text.
#[derive(Clone, Copy)]
pub enum Piece {
    Once(&'static str),
    /// So many copies.
    Copies(usize, &'static str),
    /// So many, with their numbers from 0 between two pieces.
    Numbered(usize, &'static str, &'static str),
}

/// A text.
#[derive(Clone, Copy)]
pub enum Text {
    Whole(&'static str),
    /// Each of these pieces in place of the first one like it, one after the other.
    Edited(&'static str, &'static [(&'static str, &'static str)]),
    Pieces(&'static [Piece]),
}

/// Puts a piece behind a text.
pub fn push(alloc: Global, text: &mut String, piece: Piece) -> Result<(), AllocError> {
    match piece {
        Piece::Once(once) => text.push_str(once),
        Piece::Copies(count, one) => push_copies(text, count, one),
        Piece::Numbered(count, left, right) => push_numbered(alloc, text, count, (left, right)),
    }
}

fn push_copies(text: &mut String, count: usize, one: &str) -> Result<(), AllocError> {
    for _ in 0..count {
        text.push_str(one)?;
    }
    Ok(())
}

fn push_numbered(
    alloc: Global,
    text: &mut String,
    count: usize,
    around: (&str, &str),
) -> Result<(), AllocError> {
    for k in 0..count {
        push_number(alloc, text, k, around)?;
    }
    Ok(())
}

/// Puts a number between two pieces behind a text.
pub fn push_number(
    alloc: Global,
    text: &mut String,
    k: usize,
    (left, right): (&str, &str),
) -> Result<(), AllocError> {
    let piece = format!(in alloc; "{left}{k}{right}")?;
    text.push_str(piece.as_str())
}

/// The pieces, one after the other.
pub fn joined(alloc: Global, pieces: &[Piece]) -> Result<String, AllocError> {
    let mut text = String::new(alloc);
    for piece in pieces {
        push(alloc, &mut text, *piece)?;
    }
    Ok(text)
}

// A text with another piece in place of its first piece of this kind.
fn replaced(alloc: Global, text: &str, from: &str, to: &str) -> Result<String, AllocError> {
    let Some((front, back)) = text.split_once(from) else {
        return String::from_str(alloc, text);
    };
    let mut edited = String::from_str(alloc, front)?;
    edited.push_str(to)?;
    edited.push_str(back)?;
    Ok(edited)
}

fn edited(alloc: Global, text: &str, edits: &[(&str, &str)]) -> Result<String, AllocError> {
    let mut all = String::from_str(alloc, text)?;
    for (from, to) in edits {
        all = replaced(alloc, all.as_str(), from, to)?;
    }
    Ok(all)
}

/// The text itself.
pub fn text_of(alloc: Global, text: Text) -> Result<String, AllocError> {
    match text {
        Text::Whole(whole) => String::from_str(alloc, whole),
        Text::Edited(whole, edits) => edited(alloc, whole, edits),
        Text::Pieces(pieces) => joined(alloc, pieces),
    }
}
