// The jobs of a round where the modules are in given modes.
ghost use Rattle.std.specs.Prelude.{◌≡◌, length, take, drop, ℕ};
ghost use Rattle.htl_model.specs.Broken.{KeptTo, KeepsLimits};
ghost use Rattle.htl_model.specs.Selected.{IsSelection};
ghost use Rattle.htl_refine.specs.ConcreteJobs.{running_positions, concrete_jobs, IsOfSelection};
ghost use Rattle.htl_walk.specs.Jobs.{abstract_jobs};
ghost use Rattle.htl_walk.specs.Refinement.{Refines};

use crate::begun::derive_begun;
use crate::selection::Selection;
use htl_model::Tables;
use htl_walk::Job;

/// Fills the front of `out` with the jobs of a round in which the modules are in these modes, and answers the number of positions;
/// the rest of `out` stays. The positions are those of the root selection with these root modes. At each stands the concrete
/// invocation that is reached through the running modes; where there is none, the job is absent, with 0 in every other field.
/// Each job asks for no more than the root invocation at its position. It takes no memory, and goes over
/// the invocations once for each root module.
///
/// The tables keep the form rules 1 to 16 and the limits on selections and positions, and `s` is a selection of theirs.
pub fn derive(t: &Tables, s: &Selection, out: &mut [Job; 128]) -> usize
    requires kept { KeptTo t.now 16 }
    requires selection { IsSelection t.now s.now.modes }
    requires limits { KeepsLimits t.now }
    ensures count { result ≡ length (running_positions t.now s.now.modes) }
    ensures jobs { take result out.new ≡ concrete_jobs t.now s.now.modes }
    ensures refines { (sel : ℕ) → IsOfSelection t.now sel s.now.modes → Refines (concrete_jobs t.now s.now.modes) (abstract_jobs t.now sel) }
    ensures rest { drop result out.new ≡ drop result out.old }
{
    t.keeps_ranges();
    derive_begun(t, s, 0, out, 0)
}
