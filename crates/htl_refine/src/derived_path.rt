// The jobs of a path through a frame, by the modes in which the modules are at each of its starts.
ghost use Rattle.std.specs.Prelude.{◌≡◌, ◌≤◌, ◌<◌, ◌+◌, ◌++◌, ℕ, List, length, map, take, drop, None};
ghost use Rattle.std.specs.List.{All};
ghost use Rattle.htl_base.specs.declared.limits.TheConstants as limit;
ghost use Rattle.htl_model.specs.Chosen.{AreChildren};
ghost use Rattle.htl_model.specs.Frames.{frame_limit, starts as starts_of, paths as paths_of, path_places, places_of};
ghost use Rattle.htl_model.specs.FrameRules.{KeptApart};
ghost use Rattle.htl_model.specs.FrameTables.{IsFrame};
ghost use Rattle.htl_model.specs.Selected.{IsSelection};
ghost use Rattle.htl_model.specs.Selections.{invs_of};
ghost use Rattle.htl_walk.specs.declared.schedule.SInstr.{SInstr};
ghost use Rattle.htl_walk.specs.PathJobs.{path_jobs as path_jobs_of, legs};
ghost use Rattle.htl_walk.specs.PathLaws.{RefinesFront, IsInherited};
ghost use Rattle.htl_walk.specs.Paths.{IsPathAccepted};
ghost use Rattle.htl_walk.specs.Refinement.{HaveLengths, AreWithinWorst};
ghost use Rattle.htl_refine.specs.DerivedPaths.{begun_mode as begun_mode_of, start_places, standing_place, begun_places, begun_jobs, derived_jobs, start_modes, IsAlong, modes_of_all};

use crate::selection::Selection;
use htl_base::Time;
use htl_base::limits::{MAX_MODULES, MAX_POSITIONS};
use htl_model::Tables;
use htl_model::choice::{chosen_by, entry, running_children};
use htl_model::frame::{Frame, Place};
use htl_model::rounds::{begins_at, fill_roots};
use htl_walk::{Job, placed_jobs};

// The mode of the round of a root module that begins at an instant; None where none begins.
fn begun_mode(t: &Tables, modes: &[Option<u16>], at: Time, unit: u16) -> Option<u16>
    ensures { result ≡ begun_mode_of t.now modes.now at unit }
{
    if begins_at(t, unit, at) {
        entry(modes, unit)
    } else {
        None
    }
}

// The modes in which the modules are, and the running child of each invocation there.
#[derive(Clone, Copy)]
pub(crate) struct Running<'a> {
    pub(crate) modes: &'a [Option<u16>],
    pub(crate) children: &'a [Option<u16>],
}

// Writes what stands for the root invocations of a mode's round to the places from `n` on: the place behind the last.
fn put_round(
    t: &Tables,
    running: Running,
    mode: u16,
    at: Time,
    out: &mut [Place],
    n: usize,
) -> usize
    requires few { length t.now.invs ≤ limit.MAX_INVOCATIONS }
    requires children { AreChildren t.now running.modes.now running.children.now }
    requires room { n + length (places_of at (invs_of t.now mode)) ≤ length out.old }
    ensures front { take result out.new ≡ take n out.old ++ map (standing_place t.now running.entry.modes.now) (places_of at (invs_of t.now mode)) }
    ensures count { result ≡ n + length (places_of at (invs_of t.now mode)) }
    ensures len { length out.new ≡ length out.old }
{
    let invs = t.parts().invs.as_slice();
    let mut end = n;
    for k in 0..invs.len() {
        if invs[k].mode == mode {
            out[end] = Place {
                inv: chosen_by(t, running.modes, running.children, k as u16),
                at,
            };
            end += 1;
        }
    }
    end
}

// Writes what stands at the positions of the rounds that begin at an instant to the places from `n` on: the place behind the last.
pub(crate) fn put_start(
    t: &Tables,
    roots: &[u16],
    running: Running,
    at: Time,
    out: &mut [Place],
    n: usize,
) -> usize
    requires few { length t.now.invs ≤ limit.MAX_INVOCATIONS }
    requires children { AreChildren t.now running.modes.now running.children.now }
    requires room { n + length (start_places t.now running.modes.now at roots.now) ≤ length out.old }
    ensures front { take result out.new ≡ take n out.old ++ map (standing_place t.now running.entry.modes.now) (start_places t.now running.entry.modes.now at roots.now) }
    ensures count { result ≡ n + length (start_places t.now running.entry.modes.now at roots.now) }
    ensures len { length out.new ≡ length out.old }
{
    let mut end = n;
    for k in 0..roots.len() {
        if let Some(mode) = begun_mode(t, running.modes, at, roots[k]) {
            end = put_round(t, running, mode, at, out, end);
        }
    }
    end
}

// Writes what stands at the positions of the rounds that begin at the first starts to the front: how many positions there are.
fn fill_begun(t: &Tables, f: &Frame, sels: &[Selection], out: &mut [Place]) -> usize
    requires frame { IsFrame t.now f.now }
    requires few { length sels.now ≤ length (starts_of t.now) }
    requires room { length (begun_places t.now (modes_of_all sels.now) (starts_of t.now)) ≤ length out.old }
    ensures front { take result out.new ≡ begun_places t.now (modes_of_all sels.now) (starts_of t.now) }
    ensures count { result ≡ length (begun_places t.now (modes_of_all sels.now) (starts_of t.now)) }
{
    t.keeps_ranges();
    let mut table = [0; MAX_MODULES];
    let modules = fill_roots(t, &mut table);
    let roots = &table[..modules];
    let mut n = 0;
    for j in 0..sels.len() {
        let modes = sels[j].modes.as_slice();
        let children = running_children(t, modes);
        let running = Running {
            modes,
            children: &children,
        };
        n = put_start(t, roots, running, f.starts[j], out, n);
    }
    n
}

/// Fills the front of `out` with the jobs of a path as far as its rounds have begun, and answers the number of positions; the
/// rest of `out` stays. `sels` has the modes in which the modules are at the first starts, one selection for each. A module keeps
/// its modes up to its next own start.
///
/// The positions are those of the rounds that begin at these starts. At each stands the concrete invocation that is reached
/// through the modes at its round's start; where there is none, the job is absent, with 0 in every other field. Its window and
/// predecessors are shifted by its round's start. Lists that are accepted for a path with these root modes serve these jobs with
/// any lengths from 1 to the worst cases.
///
/// The tables keep the form rules 1 and 3 to 16 and the limits of frames, and each of `sels` is a selection of theirs. It takes
/// no memory, and goes over the invocations once for each root module and start, and once more for each start.
pub fn derive_path(t: &Tables, sels: &[Selection], out: &mut [Job; 128]) -> usize
    requires limits { frame_limit t.now ≡ None }
    requires kept { KeptApart t.now 16 }
    requires few { length sels.now ≤ length (starts_of t.now) }
    requires selections { All (λ s. IsSelection t.now s.modes) sels.now }
    ensures count { result ≡ length (begun_jobs t.now (modes_of_all sels.now)) }
    ensures few { result ≤ 128 }
    ensures jobs { take result out.new ≡ begun_jobs t.now (modes_of_all sels.now) }
    ensures derived { (path : ℕ) → IsAlong t.now path (modes_of_all sels.now) → take result out.new ≡ derived_jobs t.now (start_modes (modes_of_all sels.now) (starts_of t.now)) (take result (path_places t.now path)) }
    ensures refines { (path : ℕ) → IsAlong t.now path (modes_of_all sels.now) → RefinesFront (take result out.new) (path_jobs_of t.now path) }
    ensures serves { (path : ℕ) → path < paths_of t.now → IsAlong t.now path (modes_of_all sels.now) → (lengths : List ℕ) (ss : List (List SInstr)) → HaveLengths (take result out.new) lengths → AreWithinWorst (take result out.new) lengths
        → IsPathAccepted (path_jobs_of t.now path) (legs t.now path) ss → IsInherited (take result out.new) (path_jobs_of t.now path) lengths ss (legs t.now path) (length sels.now) }
    ensures rest { drop result out.new ≡ drop result out.old }
{
    t.keeps_ranges();
    let frame = Frame::survey(t);
    let mut places = [Place { inv: None, at: 0 }; MAX_POSITIONS];
    let count = fill_begun(t, &frame, sels, &mut places);
    placed_jobs(t, &places[..count], out);
    count
}
