// The jobs of positions as far as a walk looks at them: when it finishes depends on releases and worst cases alone.
ghost use Rattle.std.specs.Prelude.{◌≡◌, ◌≤◌, length, map, take};
ghost use Rattle.std.specs.List.{All};
ghost use Rattle.htl_times.specs.BareJobs.{bare_job as bare_job_of, HasTimesAlone};

use htl_base::Time;
use htl_base::limits::MAX_POSITIONS;
use htl_model::Tables;
use htl_model::frame::Place;
use htl_model::lookup::task_worst;
use htl_model::window::release;
use htl_walk::Job;

// The job of a position; absent where no invocation stands.
fn bare_job(t: &Tables, place: Place) -> Job
    requires { HasTimesAlone t.now place }
    ensures { result ≡ bare_job_of t.now place }
{
    let Some(k) = place.inv else {
        return Job::ABSENT;
    };
    match t.parts().invs.as_slice().get(k as usize) {
        Some(item) => Job {
            present: true,
            inv: k,
            release: place.at + release(t, item),
            end: 0,
            worst: task_worst(t, item.task) as Time,
            preds: 0,
        },
        None => Job::ABSENT,
    }
}

/// Fills the front of `out` with the jobs of positions, but for the ends of their windows and their predecessors, which take a pass over
/// their ends and a table of ports. One pass over the positions, each with its reads.
pub fn fill_bare(t: &Tables, places: &[Place], out: &mut [Job; MAX_POSITIONS])
    requires few { length places.now ≤ 128 }
    requires times { All (HasTimesAlone t.now) places.now }
    ensures { take (length places.now) out.new ≡ map (bare_job_of t.now) places.now }
{
    for p in 0..places.len() {
        out[p] = bare_job(t, places[p]);
    }
}
