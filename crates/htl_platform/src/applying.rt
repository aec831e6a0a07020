// Tables with the worst cases of a platform.
ghost use Rattle.std.specs.Prelude.{◌≡◌, length, All};
ghost use Rattle.htl_model.specs.Ranges.{IsSpan};
ghost use Rattle.htl_model.specs.Tables.{tables_of};
ghost use Rattle.htl_platform.specs.Applied.{with_worst, tasks_with};

use crate::platform::Platform;
use htl_base::Seq;
use htl_model::{Parts, Tables, Task};

// The tasks with the worst cases of their places.
fn tasks_with(tasks: Vec<Task>, worst: &[u32]) -> Vec<Task>
    requires { length worst.now ≡ length tasks.items }
    ensures { result.items ≡ tasks_with tasks.items worst.now }
{
    let mut tasks = tasks;
    for k in 0..tasks.len() {
        tasks[k].worst = worst[k];
    }
    tasks
}

// The lists with these worst cases.
fn parts_with(parts: Parts, worst: &[u32]) -> Parts
    requires { length worst.now ≡ length parts.tasks }
    ensures { tables_of result ≡ with_worst (tables_of parts) worst.now }
{
    let mut parts = parts;
    parts.tasks = Seq::new(tasks_with(parts.tasks.into_vec(), worst));
    parts
}

/// The tables with the platform's worst cases in place of their own, and otherwise the same.
///
/// The platform has one number for each task, from 1 to 1,000,000, as one that was read for these tables has. No memory is
/// taken; the cost is one step for each task.
pub fn apply(t: Tables, p: &Platform) -> Tables
    requires count { length p.now.worst ≡ length t.tasks }
    requires spans { All IsSpan p.now.worst }
    ensures value { result ≡ with_worst t p.now.worst }
{
    Tables::new(parts_with(t.into_parts(), p.worst.as_slice()))
}
