// The latest finishes of an accepted object.
ghost use Rattle.std.specs.Prelude.{◌≡◌, ◌<◌, ℕ, length, get_or, None};
ghost use Rattle.htl_walk.specs.NodeWalks.{instrs_of};
ghost use Rattle.htl_times.specs.Busy.{IsBusiestOf};
ghost use Rattle.htl_times.specs.Laws.{AreNoLater};
ghost use Rattle.htl_times.specs.Noting.{AreEmpty};
ghost use Rattle.htl_times.specs.Response.{IsLatestOf};

use crate::Greatest;
use crate::rows::note_tables;
use htl_load::Loaded;

/// The latest finish of each invocation of an accepted object, in ticks from its round's start, over the worst-case walks of all
/// paths of a frame by the object's own lists, with the first path on which it happens; and the busiest path, with the sum of its
/// worst cases in ticks, where there is a path. `rows` has a row for each invocation, empty at first; those of invocations of modules with a
/// parent stay empty: what stands for a root invocation finishes no later than it.
///
/// All paths count, also those that no run takes. It takes no memory: one survey of the frame, one pass over the modes for each of its
/// rounds and one over the invocations for each mode; then for each path a step for each round, passes over its positions, one of them
/// with their reads, and one over the instructions of its lists. Whose ports a job reads isn't asked: a finish doesn't depend on it.
pub fn latest_finishes(o: &Loaded, rows: &mut [Option<Greatest>]) -> Option<Greatest>
    requires empty { AreEmpty rows.old }
    ensures latest { (i : ℕ) → i < length rows.old → IsLatestOf o.now.tables (instrs_of o.now.schedules) i (get_or rows.new i None) }
    ensures no_later { AreNoLater o.now.tables (instrs_of o.now.schedules) rows.new }
    ensures busiest { IsBusiestOf o.now.tables result }
    ensures len { length rows.new ≡ length rows.old }
{
    note_tables(o.tables(), o.schedules(), rows)
}
