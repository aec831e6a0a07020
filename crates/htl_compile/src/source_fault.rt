// Why a source isn't compiled.

/// Why a source isn't compiled. Places are byte offsets from the source's start.
#[derive(Clone, Copy, PartialEq, Eq, Debug)]
pub enum SourceFault {
    /// More than 1,048,576 bytes. No call of this crate answers it: it is told by who reads a source.
    TooLong {
        /// How many bytes were seen.
        seen: u64,
    },
    /// No token begins at this byte.
    Char {
        /// The byte.
        at: u64,
    },
    /// A number above 9,223,372,036,854,775,807.
    Number {
        /// Its first digit.
        at: u64,
    },
    /// An identifier over 48 bytes.
    NameLong {
        /// Its first byte.
        at: u64,
    },
    /// More than 512 tokens without `;`, `{` and `}`.
    Long {
        /// The first byte of the 513th of them.
        at: u64,
    },
    /// The grammar has no such source.
    Syntax {
        /// The first byte of the first token that doesn't fit, or the source's length where its tokens end too
        /// early. What stands before it begins some source, and with that token it begins none.
        at: u64,
    },
    /// A name repeats an earlier one of its space: a program, a communicator, a module of the source; a task or mode
    /// of the module; a port of the mode; a parameter of the task; a task invoked twice in the mode.
    Twice {
        /// The first byte of the name.
        at: u64,
    },
    /// A name stands for nothing.
    Unknown {
        /// The first byte of the name.
        at: u64,
    },
    /// An initial value isn't of the communicator's type, a period or worst case is
    /// outside 1 to 1,000,000, or an instance is above 1,000,000.
    Kind {
        /// The first byte of the value or number; of the `-`, where there is one.
        at: u64,
    },
    /// The programs aren't a tree below the first: another is not named by exactly one mode or not reached from the
    /// first, or a mode names the first.
    NotATree {
        /// The number of the first program that breaks it, from 0 in source order.
        program: u32,
    },
    /// A limit is exceeded.
    Limit {
        /// The number of the limit, 1 to 11.
        which: u8,
        /// What there is, for limits 8, 9 and 11 the greatest; at most 4,294,967,295.
        count: u32,
    },
    /// A function isn't typed: an operator has operands of wrong types, or the whole isn't of the type of its output,
    /// or of bool for a switch. The first such function in the order of functions counts.
    IllTyped {
        /// The first byte of the first such operator, or else of the whole expression.
        at: u64,
    },
    /// The first function that can't be compiled has the right types, and holds more than 64 values at once.
    Deep {
        /// The first byte of its expression.
        at: u64,
    },
}
