// The jobs of a round.
ghost use Rattle.std.specs.Prelude.{◌≡◌, ◌≤◌, ◌<◌, length, map, take, drop, false, Some, ℕ, All};
ghost use Rattle.htl_model.specs.Broken.{KeepsLimits};
ghost use Rattle.htl_model.specs.Bits.{cell};
ghost use Rattle.htl_model.specs.Selections.{selection_count, positions};
ghost use Rattle.htl_walk.specs.Refinement.{HasWork};
ghost use Rattle.htl_walk.specs.Writers.{job_with, stands as stands_of, standing_in};
ghost use Rattle.htl_walk.specs.Jobs.{jobs_standing, abstract_jobs as abstract_jobs_of};

use crate::Job;
use crate::writers::{fill_writers, predecessors};
use htl_base::Time;
use htl_base::limits::{MAX_PORTS, MAX_POSITIONS};
use htl_model::choice::is_running;
use htl_model::lookup::task_worst;
use htl_model::selections::root_modes;
use htl_model::{Inv, Tables};

// The sizes of a table of ports; the largest is MAX_PORTS.
const FEW_PORTS: usize = 64;

const MORE_PORTS: usize = 512;

// The job of an invocation with these predecessors.
fn job(t: &Tables, inv: Option<u16>, preds: u128) -> Job
    ensures { result ≡ job_with t.now inv preds }
{
    let invs = t.parts().invs.as_slice();
    match inv {
        Some(k) => {
            if k as usize >= invs.len() {
                return Job::ABSENT;
            }
            let window = t.window(k);
            Job {
                present: true,
                inv: k,
                release: window.release,
                end: window.end,
                worst: task_worst(t, invs[k as usize].task) as Time,
                preds,
            }
        }
        None => Job::ABSENT,
    }
}

// Fills the front of `out` by a table with a row for each port, in which no position is noted.
fn fill_by(t: &Tables, standing: &[Option<u16>], table: &mut [u128], out: &mut [Job; MAX_POSITIONS])
    requires few { length standing.now ≤ 128 }
    requires ports { length t.now.ports ≤ length table.old }
    requires empty { (p q : ℕ) → cell table.old p q ≡ false }
    ensures jobs { take (length standing.now) out.new ≡ jobs_standing t.now standing.now }
    ensures rest { drop (length standing.now) out.new ≡ drop (length standing.now) out.old }
{
    t.keeps_ranges();
    fill_writers(t, standing, table);
    for p in 0..standing.len() {
        let inv = standing[p];
        out[p] = job(t, inv, predecessors(t, inv, table));
    }
}

/// Fills the front of `out` with the jobs of the invocations that stand at the positions, of which there are at most 128;
/// a position at which none stands has an absent job. The rest of `out` stays.
///
/// One pass over the ends of what stands, by a table with a row for each port of the tables: 64 rows, 512 or 4,096.
pub fn fill_jobs(t: &Tables, standing: &[Option<u16>], out: &mut [Job; MAX_POSITIONS])
    requires { length standing.now ≤ 128 }
    ensures jobs { take (length standing.now) out.new ≡ jobs_standing t.now standing.now }
    ensures rest { drop (length standing.now) out.new ≡ drop (length standing.now) out.old }
{
    t.keeps_ranges();
    let ports = t.parts().ports.as_slice().len();
    if ports <= FEW_PORTS {
        fill_by(t, standing, &mut [0u128; FEW_PORTS], out);
    } else if ports <= MORE_PORTS {
        fill_by(t, standing, &mut [0u128; MORE_PORTS], out);
    } else {
        fill_by(t, standing, &mut [0u128; MAX_PORTS], out);
    }
}

// Whether an invocation stands where the root modules are in these modes.
fn stands(t: &Tables, modes: &[Option<u16>], inv: &Inv) -> bool
    ensures { result ≡ stands_of t.now modes.now inv.now }
{
    is_running(t, modes, inv.mode)
}

// Writes the positions of a selection to the front: how many there are. The invocations are listed by module and mode, so
// one pass over them meets the positions in their order.
fn put_selection(t: &Tables, selection: u32, standing: &mut [Option<u16>]) -> usize
    requires { length (positions t.now selection) ≤ length standing.old }
    ensures front { take result standing.new ≡ map (λ k. Some k) (positions t.now selection) }
    ensures count { result ≡ length (positions t.now selection) }
{
    t.keeps_ranges();
    let modes = root_modes(t, selection);
    put_standing(t, &modes, standing)
}

// Writes what stands where the root modules are in these modes to the front: how many there are.
fn put_standing(t: &Tables, modes: &[Option<u16>], standing: &mut [Option<u16>]) -> usize
    requires { length (standing_in t.now modes.now) ≤ length standing.old }
    ensures front { take result standing.new ≡ map (λ k. Some k) (standing_in t.now modes.now) }
    ensures count { result ≡ length (standing_in t.now modes.now) }
{
    let invs = t.parts().invs.as_slice();
    let mut n = 0;
    for k in 0..invs.len() {
        if stands(t, modes, &invs[k]) {
            standing[n] = Some(k as u16);
            n += 1;
        }
    }
    n
}

/// Fills the front of `out` with the jobs of a root selection, abstract invocations included, and answers their number;
/// the rest of `out` stays. A job's position is the place of its invocation in the order of modules, then of the source.
///
/// The tables keep the limits on selections and positions, and the selection is below the number of selections. Of the
/// form rules nothing is asked. One pass over the modules, modes and invocations, and the one of `fill_jobs`.
pub fn abstract_jobs(t: &Tables, selection: u32, out: &mut [Job; MAX_POSITIONS]) -> usize
    requires limits { KeepsLimits t.now }
    requires selection { selection < selection_count t.now }
    ensures count { result ≡ length (positions t.now selection) }
    ensures jobs { take result out.new ≡ abstract_jobs_of t.now selection }
    ensures work { All HasWork (abstract_jobs_of t.now selection) }
    ensures rest { drop result out.new ≡ drop result out.old }
{
    t.keeps_ranges();
    let mut standing = [None; MAX_POSITIONS];
    let count = put_selection(t, selection, &mut standing);
    fill_jobs(t, &standing[..count], out);
    count
}
