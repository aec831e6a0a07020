// The jobs of a mode with a port, a predecessor, and abstract invocations.
ghost use Rattle.std.specs.Prelude.{◌≡◌, ◌<◌, true};
ghost use Rattle.htl_model.specs.Broken.{KeepsLimits};
ghost use Rattle.htl_model.specs.Selections.{selection_count};

use crate::asserts::same;
use crate::made::made;
use htl_model::Tables;
use htl_walk::{Job, abstract_jobs};
use std::alloc::Global;

// The first invocation reads the port that the second writes, both of abstract tasks; the third reads a communicator
// of period 2 at its instance 1.
const A_PORT: &str = "program P {
  communicator int x period 2 init 0;
  communicator int u period 10 init 0;
  module M start m {
    abstract task a input (int i) output (int o) worst 4;
    abstract task b input (int i) output (int o) worst 3;
    task c input (int i) output () worst 2;
    mode m period 10 {
      port int k;
      invoke a input (k) output ((u, 1));
      invoke b input ((x, 0)) output (k);
      invoke c input ((x, 1)) output ();
    }
  }
}";

const NO_JOB: Job = Job {
    present: false,
    inv: 0,
    release: 0,
    end: 0,
    worst: 0,
    preds: 0,
};

fn job(inv: u16, release: u64, worst: u64, preds: u128) -> Job {
    Job {
        present: true,
        inv,
        release,
        end: 10,
        worst,
        preds,
    }
}

fn has_selections(t: &Tables) -> bool
    ensures { result ≡ true → 0 < selection_count t.now }
{
    t.selections() > 0
}

// The number of jobs of the first selection; they are put into the first places.
fn jobs_of(t: &Tables, jobs: &mut [Job; 128]) -> Option<usize>
    requires { KeepsLimits t.now }
{
    if !has_selections(t) {
        return None;
    }
    Some(abstract_jobs(t, 0, jobs))
}

fn jobs_in(alloc: Global, text: &str, jobs: &mut [Job; 128]) -> Option<usize> {
    let t = made(alloc, text)?;
    jobs_of(&t, jobs)
}

#[test]
fn a_port_and_abstract_invocations(rt: HostRuntime) {
    let mut jobs = [NO_JOB; 128];
    same(&rt, jobs_in(rt.alloc(), A_PORT, &mut jobs), Some(3));
    let wanted = [job(0, 0, 4, 2), job(1, 0, 3, 0), job(2, 2, 2, 0), NO_JOB];
    same(&rt, &jobs[..4], &wanted[..]);
}
