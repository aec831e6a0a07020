//! The laws of patching. Each is a statement that the check has proved; there is nothing to run.
ghost use Rattle.htl_patch.specs.Laws.{PatchedIsAccepted, PatchedAsksTheSame, PatchableIsNotRefused, OneFault};

/// An accepted object in which the refinement of one mode is replaced by another is accepted, with the schedules that it had: where
/// the new tables keep the form rules and their functions fit. Of the donor only ranges are asked.
pub fn patched_is_accepted()
    ensures { PatchedIsAccepted }
{}

/// Tables in which the refinement of one mode is replaced ask the processor for what those of the host ask for: frames, starts, paths and
/// nodes stay, and along each path the jobs of the root modules have the same windows, worst cases and positions, whatever is replaced.
/// Only the numbers of their invocations may be others.
pub fn patched_asks_the_same()
    ensures { PatchedAsksTheSame }
{}

/// What can be patched has no fault.
pub fn patchable_is_not_refused()
    ensures { PatchableIsNotRefused }
{}

/// There is one first fault at most.
pub fn one_fault()
    ensures { OneFault }
{}
