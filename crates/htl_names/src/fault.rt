// Why a tree has no tables.
use thiserror::Error;

/// The first name rule that a source breaks, where, or want of memory. The rules are tried in the order of the variants,
/// but that an unknown name after `parent` comes after `NotATree`; within a rule the first place of the source counts.
/// Tokens are counted from 0 over the whole source.
#[derive(Debug, Drop, Error)]
pub enum NameFault {
    /// A name repeats an earlier one of its space.
    #[error("name at token {token} repeats an earlier one")]
    Twice {
        /// The token of the repeated name.
        token: u32,
    },
    /// A name stands for nothing.
    #[error("unknown name at token {token}")]
    Unknown {
        /// The name's token.
        token: u32,
    },
    /// An initial value is not of the communicator's type, a period or worst case is outside 1 to 1,000,000, or an
    /// instance is above 1,000,000.
    #[error("wrong kind at token {token}")]
    Kind {
        /// The token of the value; of the `-`, where there is one.
        token: u32,
    },
    /// A program other than the root is not named by exactly one mode or is not reached from the root; or a mode names
    /// the root.
    #[error("program {program} is out of place")]
    NotATree {
        /// The first such program, counted from 0.
        program: u32,
    },
    /// A limit is exceeded.
    #[error("limit {which} exceeded: {count}")]
    Limit {
        /// The number of the limit, 1 to 11.
        which: u8,
        /// What there is, for limits 8, 9 and 11 the greatest; at most 4,294,967,295.
        count: u32,
    },
    /// No memory was left.
    #[error("no memory")]
    Memory,
}
