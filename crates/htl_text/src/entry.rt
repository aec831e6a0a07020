// A token as it is kept.
use crate::token::Kind;

/// What a token is, and where its text stands in the source: the place of its first byte, and its length.
#[derive(Clone, Copy)]
pub struct Entry {
    pub kind: Kind,
    pub offset: u32,
    pub len: u32,
}
