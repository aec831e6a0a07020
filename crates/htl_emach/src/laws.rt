//! The laws of the E machine, which crates above build on. Each is a statement that the check has proved; there is nothing
//! to run.
ghost use Rattle.htl_emach.specs.Laws.{InstantsFollow, NothingOverdue};

/// A machine that stands before an instant of a run is at the start of the write phase; where nothing of a phase is due any
/// more, it is at the start of the next; after the read phase it stands before the next instant. What it does at an
/// instant is what the three phases do, one after another.
pub fn instants_follow()
    ensures { InstantsFollow }
{}

/// In a run, at each step of an instant, nothing was to be done before the instant: no trigger of any phase is overdue, so
/// the first that is due is the first of all.
pub fn nothing_overdue()
    ensures { NothingOverdue }
{}
