// What a job puts out once it is done.
ghost use Rattle.std.specs.Prelude.{◌≡◌, ◌<◌, true, cond, length, IfSome};
ghost use Rattle.htl_model.specs.FrameRules.{KeptApart};
ghost use Rattle.htl_walk.specs.Walk.{job_at};
ghost use Rattle.htl_model.specs.FunctionTypes.{FitPlaces};
ghost use Rattle.htl_emach.specs.Shapes.{IsShaped};
ghost use Rattle.htl_runs.specs.values.FinishedJobs.{complete_at};
ghost use Rattle.htl_runs.specs.records.RecordSteps.{IsJobOf};

use htl_emach::World;
use htl_model::Tables;
use htl_walk::Job;

// The invocation at a position, which is in range.
fn inv_at(jobs: &[Job], p: u16) -> u16
    requires { p < length jobs.now }
    ensures { result ≡ (job_at jobs.now p).inv }
{
    jobs[p as usize].inv
}

// A job that is done puts out what it does.
pub fn put_out(world: &mut World, t: &Tables, jobs: &[Job], finished: bool, position: Option<u16>)
    requires kept { KeptApart t.now 12 }
    requires functions { FitPlaces t.now }
    requires shaped { IsShaped t.now world.old }
    requires known { finished ≡ true → IfSome position (IsJobOf t.now jobs.now) }
    ensures world { world.new ≡ cond finished (complete_at t.now jobs.now position world.old) world.old }
    ensures shaped { IsShaped t.now world.new }
    ensures values { world.new.values ≡ world.old.values }
{
    let _parts = t.parts();
    if !finished {
        return;
    }
    if let Some(p) = position {
        world.complete(t, inv_at(jobs, p));
    }
}
