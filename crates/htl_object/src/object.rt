// Objects: what a compiler makes and a loader is handed.
use htl_base::{Name, Seq};
use htl_ecode::ECode;
use htl_model::Tables;
use htl_walk::Schedule;

/// Tables whose functions are code, with their E code, and S code for each node of a frame.
#[derive(Drop)]
pub struct Object {
    /// All functions are code.
    pub tables: Tables,
    /// Three addresses for each mode, and at most 4,294,967,295 instructions.
    pub ecode: ECode,
    /// One for each node, in the order of the nodes.
    pub schedules: Seq<Schedule>,
    /// The platform whose worst cases the tables have, where the file names one.
    pub platform: Option<Name>,
}
