// Why a file isn't had, or isn't accepted as an object.
use htl_load::ObjectFault;
use htl_model::Tables;

/// Why the shelf didn't give a file.
#[derive(Clone, Copy, PartialEq, Eq, Debug)]
pub enum ShelfCause {
    /// It failed, and counted it as a fault of the name; so it does where it has no such file.
    Failed,
    /// The file has too many bytes: more than 1,048,576 for a source or a platform file, more than 16,777,216 for an object or
    /// a job log.
    TooLong {
        /// How many bytes were seen: all of them, where the shelf tells what it holds.
        seen: u64,
    },
}

/// Why a file isn't had.
#[derive(Clone, Copy, PartialEq, Eq, Debug)]
pub enum FetchStop {
    /// The shelf didn't give it.
    Shelf(ShelfCause),
    /// No memory was left.
    Memory,
}

/// Why no accepted object is had.
#[derive(Drop)]
pub enum OpenStop {
    /// The shelf didn't give the file.
    Shelf(ShelfCause),
    /// No accepted object has the file's bytes.
    Object {
        /// The first fault.
        fault: ObjectFault,
        /// The tables of the object, where there is one.
        tables: Option<Tables>,
    },
    /// No memory was left.
    Memory,
}
