// What is wrong with bytes that are no object.
ghost use Rattle.std.specs.Prelude.{◌≡◌};
ghost use Rattle.htl_object.specs.declared.malformed.Stop.TheVariants.{Memory};

use std::alloc::{AllocError, AllocFailed};

/// The kind of a bad field.
#[derive(Clone, Copy, PartialEq, Eq, Debug)]
pub enum MalKind {
    /// The first four bytes are there and aren't `HTLO`; told at offset 0.
    Magic,
    /// The version is neither 1 nor 2; told at offset 4.
    Version,
    /// The input ends inside a field; told at the length.
    Short,
    /// A number out of its range; told at the field.
    Index,
    /// A type, flag, tag of an end or an instruction, or phase that isn't listed; told at the byte.
    Tag,
    /// A name that isn't one or repeats one of its space, told at its length byte; an initial value of type bool that isn't
    /// 0 or 1, told at the field; a block of a schedule that equals an earlier one, told at its count.
    Spelling,
    /// Bytes after the last field; told at the first of them.
    Trailing,
}

/// The first bad field: where it begins, and its kind.
#[derive(Clone, Copy, PartialEq, Eq, Debug)]
pub struct Malformed {
    /// In bytes from the first one.
    pub offset: u64,
    pub kind: MalKind,
}

/// A bad field, by the count of bytes from its first on.
#[derive(Clone, Copy)]
pub struct Bad {
    pub kind: MalKind,
    pub left: usize,
}

/// Why reading stopped.
#[derive(Clone, Copy, Drop)]
pub enum Stop {
    Memory,
    Bad(Bad),
}

impl From<AllocError> for Stop {
    ghost from_gives = { λ _ e. e ≡ Memory };

    fn from(_e: AllocError) -> Stop {
        Stop::Memory
    }
}

impl<T: Drop> From<AllocFailed<T>> for Stop {
    ghost from_gives = { λ _ e. e ≡ Memory };

    fn from(_e: AllocFailed<T>) -> Stop {
        Stop::Memory
    }
}
