// What the call answers.
ghost use Rattle.std.specs.Prelude.{◌≡◌};
ghost use Rattle.htl_times_top.specs.Status.{status_of};

use htl_load::ObjectFault;
use htl_open::ShelfCause;

/// What the call came to.
#[derive(Clone, Copy, PartialEq, Eq, Debug)]
pub enum Outcome {
    /// All was written.
    Done,
    /// The words aren't the name of one file.
    Usage,
    /// The file is no accepted object: its bytes are none, or the object fails a test.
    Object(ObjectFault),
    /// The shelf didn't give the file.
    Shelf(ShelfCause),
    /// The output failed; a prefix was written.
    Write,
    /// No memory was left; nothing was written.
    Memory,
}

/// The status with which the program ends: that of `htl` for the same answer, 0 for Done, 2 Usage, 6 Object, 8 Shelf, 10 Write and
/// 11 Memory.
pub fn status(o: &Outcome) -> u8
    ensures { result ≡ status_of o.now }
{
    match o {
        Outcome::Done => 0,
        Outcome::Usage => 2,
        Outcome::Object(_) => 6,
        Outcome::Shelf(_) => 8,
        Outcome::Write => 10,
        Outcome::Memory => 11,
    }
}
