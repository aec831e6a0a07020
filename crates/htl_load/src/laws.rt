//! The laws of loading, which crates above build on. Each is a statement that the check has proved; there is nothing to run.
ghost use Rattle.htl_load.specs.Laws.{AcceptedIsNotRefused, OneFault, NoFrameFault};

/// The loader refuses no accepted object.
pub fn accepted_is_not_refused()
    ensures { AcceptedIsNotRefused }
{}

/// An object in range has one first fault at most.
pub fn one_fault()
    ensures { OneFault }
{}

/// An object in range exceeds no limit of frames: a count of nodes that no frame has is refused before, with the field that
/// says it. So no object is refused by form rule 2.
pub fn no_frame_fault()
    ensures { NoFrameFault }
{}
