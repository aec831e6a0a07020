//! What the job lines of a run and the latest finishes have to do with each other. It is a statement that the check has proved; there is
//! nothing to run.
ghost use Rattle.htl_told.specs.Laws.{ToldNoLater};

/// Of an accepted object, whatever the sensors show and however long the jobs take within their worst cases: no `d` line of a run is
/// about a later instant than its module's round begins and the latest finish more, that of the root invocation in whose place the
/// line's invocation stands.
pub fn told_no_later()
    ensures { ToldNoLater }
{}
