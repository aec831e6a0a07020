//! The laws of objects and their bytes. Each is a statement that the check has proved; there is nothing to run.
ghost use Rattle.htl_object.specs.Laws.{OneSpelling, OneObject, NoBadField, SaysItself, RoundsAreFrames};

/// Bytes that say an object are its one spelling, and it is in range.
pub fn one_spelling()
    ensures { OneSpelling }
{}

/// No two objects in range have one spelling.
pub fn one_object()
    ensures { OneObject }
{}

/// Bytes have no bad field exactly where some object in range has them.
pub fn no_bad_field()
    ensures { NoBadField }
{}

/// The spelling of an object in range says that object: what is encoded and then decoded is what it was.
pub fn says_itself()
    ensures { SaysItself }
{}

/// Where all root modules have one period a frame is a round: no limit of frames is exceeded, there are as many nodes as root selections,
/// and every path accepts its lists exactly where every root selection accepts its schedule.
pub fn rounds_are_frames()
    ensures { RoundsAreFrames }
{}
