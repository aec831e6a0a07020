// What begins at one start of a frame, by the modes in which the modules are then.
ghost use Rattle.std.specs.Prelude.{◌≡◌, ◌≤◌, ◌<◌, ◌+◌, ◌-◌, ◌*◌, ◌%◌, ◌++◌, cond, eqb, length, take, drop};
ghost use Rattle.htl_model.specs.FrameRules.{KeptApart};
ghost use Rattle.htl_model.specs.Selected.{IsSelection};
ghost use Rattle.htl_refine.specs.BegunJobs.{new_jobs, choice_of};
ghost use Rattle.htl_model.specs.Frames.{unit_period};
ghost use Rattle.htl_model.specs.Selections.{modes_of};
ghost use Rattle.htl_refine.specs.Roots.{entry_place as entry_place_of};

use crate::derived_path::{Running, put_start};
use crate::roots::entry_place;
use crate::selection::Selection;
use htl_base::Time;
use htl_base::limits::{MAX_MODULES, MAX_POSITIONS};
use htl_model::Tables;
use htl_model::choice::running_children;
use htl_model::frame::Place;
use htl_model::rounds::{begins_at, fill_roots};
use htl_model::selections::mode_count;
use htl_walk::{Job, placed_jobs};

// Writes the jobs at the positions from `n` to `end`; all else of `out` stays.
fn copy_part(jobs: &[Job; 128], out: &mut [Job; 128], n: usize, end: usize)
    requires order { n ≤ end }
    requires room { end ≤ 128 }
    ensures part { take end out.new ≡ take n out.old ++ take (end - n) (drop n jobs.now) }
    ensures rest { drop end out.new ≡ drop end out.old }
{
    out[n..end].copy_from_slice(&jobs[n..end]);
}

/// Writes the jobs of the rounds that begin at a start, in ticks from the frame's start, behind the first `n` positions of `out`,
/// and answers how many positions there are then; all else of `out` stays. `s` has the modes in which the modules are at the start.
/// Predecessors are by their positions in the frame. It takes no memory, and goes over the invocations once for each root module.
pub fn derive_begun(t: &Tables, s: &Selection, at: Time, out: &mut [Job; 128], n: usize) -> usize
    requires kept { KeptApart t.now 16 }
    requires at { at ≤ 1000000 }
    requires selection { IsSelection t.now s.now.modes }
    requires room { n + length (new_jobs t.now s.now.modes at n) ≤ 128 }
    ensures count { result ≡ n + length (new_jobs t.now s.now.modes at n) }
    ensures jobs { take result out.new ≡ take n out.old ++ new_jobs t.now s.now.modes at n }
    ensures rest { drop result out.new ≡ drop result out.old }
{
    t.keeps_ranges();
    let mut table = [0; MAX_MODULES];
    let modules = fill_roots(t, &mut table);
    let roots = &table[..modules];
    let modes = s.modes.as_slice();
    let children = running_children(t, modes);
    let running = Running {
        modes,
        children: &children,
    };
    let mut places = [Place { inv: None, at: 0 }; MAX_POSITIONS];
    let end = put_start(t, roots, running, at, &mut places, n);
    let mut jobs = [Job::ABSENT; MAX_POSITIONS];
    placed_jobs(t, &places[..end], &mut jobs);
    copy_part(&jobs, out, n, end);
    end
}

// The number so far, with the place of one module more, where its round begins.
fn with_begun(t: &Tables, modes: &[Option<u16>], at: Time, n: u32, unit: u16) -> u32
    requires { n < 1024 }
    ensures { result ≡ cond (eqb (at % unit_period t.now unit) 0) (n * length (modes_of t.now unit) + entry_place_of t.now modes.now unit) n }
{
    t.keeps_ranges();
    if begins_at(t, unit, at) {
        n * mode_count(t, unit) + entry_place(t, modes, unit)
    } else {
        n
    }
}

/// The number of the choice of modes at a start, in ticks from the frame's start: by the modes in which the modules are, of the rounds
/// that begin there. The first root module is the most significant place.
pub fn begun_choice(t: &Tables, s: &Selection, at: Time) -> u32
    requires few { choice_of t.now s.now.modes at < 1024 }
    ensures { result ≡ choice_of t.now s.now.modes at }
{
    t.keeps_ranges();
    let mut table = [0; MAX_MODULES];
    let modules = fill_roots(t, &mut table);
    let roots = &table[..modules];
    let modes = s.modes.as_slice();
    let mut n = 0u32;
    for k in 0..roots.len() {
        n = with_begun(t, modes, at, n, roots[k]);
    }
    n
}
