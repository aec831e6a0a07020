//! The laws of response times, which crates above build on. Each is a statement that the check has proved; there is nothing to run.
ghost use Rattle.htl_times.specs.Accepted.{AcceptedIsFeasible, EachRootHasRow};
ghost use Rattle.htl_times.specs.Laws.{PathFinishesNoLater, FinishesNoLater, WorstIsReached, LatestInWindow, UtilisationAtMostOne};
ghost use Rattle.htl_times.specs.Narrowed.{NarrowedAccepted};
ghost use Rattle.htl_times.specs.Roots.{EachHasRoot, StandsWithinRoot, ParentlessOfRoots};

/// On lists that are accepted for a path, jobs that refine the path's, with any lengths up to their worst cases, finish no later
/// than in the path's worst-case walk.
pub fn path_finishes_no_later()
    ensures { PathFinishesNoLater }
{}

/// In a run whose lists are accepted for all paths, no job is finished later than its root invocation's latest finish, whatever modes
/// run, whatever stands for the invocation, and however long the jobs take within their worst cases.
pub fn finishes_no_later()
    ensures { FinishesNoLater }
{}

/// Without refinement, a run in which each job takes its worst case leaves in each frame the records of its path's worst-case walk:
/// there a latest finish is reached.
pub fn worst_is_reached()
    ensures { WorstIsReached }
{}

/// A latest finish lies behind the release and by the window's end.
pub fn latest_in_window()
    ensures { LatestInWindow }
{}

/// No path asks for more ticks than its frame has.
pub fn utilisation_at_most_one()
    ensures { UtilisationAtMostOne }
{}

/// Lists that are accepted for jobs are accepted for the same jobs with lesser worst cases.
pub fn narrowed_accepted()
    ensures { NarrowedAccepted }
{}

/// The runs of an accepted object with a root module, in which no job takes longer than its worst case, are those of these laws.
pub fn accepted_is_feasible()
    ensures { AcceptedIsFeasible }
{}

/// Where no form rule is broken, each invocation has a root invocation.
pub fn each_has_root()
    ensures { EachHasRoot }
{}

/// It is the one in whose place the invocation stands, whatever modes run.
pub fn stands_within_root()
    ensures { StandsWithinRoot }
{}

/// Where no form rule is broken, an invocation has no parent exactly where it is of a root module.
pub fn parentless_of_roots()
    ensures { ParentlessOfRoots }
{}

/// Of an accepted object each root invocation has a latest finish.
pub fn each_root_has_row()
    ensures { EachRootHasRow }
{}
