//! The object file: its one spelling, its ranges, and the first bad field of bytes.
#![tactic(auto)]

mod assembly;
mod block_reader;
mod block_writer;
mod bytes;
mod code_reader;
mod code_writer;
mod cursor;
mod declaration_reader;
mod decoding;
mod encoding;
mod invocation_reader;
mod items;
pub mod laws;
mod lists;
mod malformed;
mod names;
mod notes;
mod object;
mod selections;
mod table_writer;
mod writer;

pub use decoding::{DecodeFault, decode};
pub use encoding::encode;
pub use malformed::{MalKind, Malformed};
pub use object::Object;
