//! What lies outside: where text comes from, where it goes and where files are kept; and the lines in between.
#![tactic(auto)]

mod drawer;
mod line_buffer;
mod page;
mod put;
mod shelf;
mod sink;
mod source;
mod tape;

pub use drawer::Drawer;
pub use line_buffer::LineBuffer;
pub use page::Page;
pub use put::put_all;
pub use shelf::{Shelf, ShelfFault};
pub use sink::Sink;
pub use source::Source;
pub use tape::Tape;

/// A read or a write of the outside failed, and was counted.
#[derive(Clone, Copy, PartialEq, Eq, Debug)]
pub struct Failed;
