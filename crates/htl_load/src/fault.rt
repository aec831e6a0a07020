// Why an object isn't accepted.
use htl_ecode::EFault;
use htl_model::FormFault;
use htl_object::Malformed;
use htl_walk::Miss;

/// The first thing for which an object isn't accepted.
#[derive(Clone, Copy, PartialEq, Eq, Debug)]
pub enum ObjectFault {
    /// No object has these bytes: their first bad field.
    Malformed(Malformed),
    /// The tables break a form rule: the first that they break, and where.
    IllFormed(FormFault),
    /// The first function that isn't verified code of the argument and result types of its place.
    Function { id: u32 },
    /// The E code doesn't spell the tables: its first departure.
    ECode(EFault),
    /// The first path whose worst-case walk isn't accepted, and the first miss of that walk.
    Schedule { selection: u32, miss: Miss },
}

/// Why bytes aren't loaded.
#[derive(Clone, Copy, Debug)]
pub enum LoadFault {
    /// No accepted object has these bytes.
    Refused(ObjectFault),
    /// No memory was left.
    Memory,
}
