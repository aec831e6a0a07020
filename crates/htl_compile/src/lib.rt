//! The compiler: from a source to tables with function code, from these to an object, and from a source to the bytes of
//! its object, also on a platform.
#![tactic(auto)]

mod building;
mod compiling;
mod compiling_on;
mod functions;
pub mod laws;
mod source;
mod source_fault;
mod stop;

pub use building::{BackFault, back, back_for};
pub use compiling::{CompileFault, compile, compile_source};
pub use compiling_on::{WithFault, compile_source_on, compile_with, on_platform};
pub use htl_bulk::bulk_source;
pub use source::{FrontFault, front};
pub use source_fault::SourceFault;
pub use stop::SourceStop;
