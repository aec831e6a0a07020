// The tasks whose worst cases can be raised.
ghost use Rattle.std.specs.Prelude.{◌≡◌, ◌<◌, ◌↔◌, length, true};
ghost use Rattle.std.specs.List.{list_any};
ghost use Rattle.htl_slack.specs.RootTasks.{invokes as invokes_of, IsRootTask, limit_of};

use htl_model::lookup::mode_module;
use htl_model::rounds::unit_period;
use htl_model::selections::is_root;
use htl_model::{Inv, Tables};

// Whether an invocation is of the task and stands in a mode of a root module.
fn invokes(t: &Tables, task: u16, inv: &Inv) -> bool
    ensures { result ≡ invokes_of t.now task inv.now }
{
    let modules = t.parts().modules.as_slice();
    let owner = mode_module(t, inv.mode) as usize;
    inv.task == task && owner < modules.len() && is_root(&modules[owner])
}

// Whether some invocation is.
fn is_invoked(t: &Tables, task: u16, invs: &[Inv]) -> bool
    ensures { result ≡ list_any (λ i. invokes_of t.now task i) invs.now }
{
    invs.iter().any(|inv| invokes(t, task, inv))
}

/// Whether a task is invoked in a root module, so that `slack` can be asked for it. One pass over the invocations.
pub fn is_root_task(t: &Tables, task: u16) -> bool
    ensures { result ≡ true ↔ IsRootTask t.now task }
{
    is_invoked(t, task, t.parts().invs.as_slice())
}

/// The period of a task's module, in ticks.
pub fn module_period(t: &Tables, task: u16) -> u32
    requires { task < length t.now.tasks }
    ensures { result ≡ limit_of t.now task }
{
    unit_period(t, t.parts().tasks.as_slice()[task as usize].module)
}
