// Tables with another worst case for a task.
ghost use Rattle.std.specs.Prelude.{◌≡◌, ◌<◌, length};
ghost use Rattle.htl_model.specs.Ranges.{IsSpan};
ghost use Rattle.htl_model.specs.Tables.{tables_of};
ghost use Rattle.htl_edf.specs.Greatest.{with_worst as with_worst_of};

use htl_base::Seq;
use htl_model::{Parts, Tables};

// The lists with this worst case for a task.
fn parts_with(parts: Parts, task: u16, worst: u32) -> Parts
    requires { task < length parts.tasks }
    ensures { tables_of result ≡ with_worst_of (tables_of parts) task worst }
{
    let mut parts = parts;
    let mut tasks = parts.tasks.into_vec();
    tasks[task as usize].worst = worst;
    parts.tasks = Seq::new(tasks);
    parts
}

/// The tables with this worst case for a task, and otherwise the same. No memory is taken.
pub fn with_worst(t: Tables, task: u16, worst: u32) -> Tables
    requires task { task < length t.tasks }
    requires span { IsSpan worst }
    ensures { result ≡ with_worst_of t task worst }
{
    Tables::new(parts_with(t.into_parts(), task, worst))
}
