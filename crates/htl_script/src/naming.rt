// The sensors and the concrete invocations of tables, by their numbers.
ghost use Rattle.std.specs.Prelude.{◌≡◌, ◌≤◌, ◌++◌, ◌∷◌};
ghost use Rattle.htl_model.specs.Tables.{tables_of};
ghost use Rattle.htl_script.specs.Naming.{dotted as dotted_of, sensor_name as sensor_name_of, name_of, count_of};

use htl_base::Name;
use htl_edge::LineBuffer;
use htl_model::{Comm, Inv, Parts, Tables};

/// What a name in a script stands for.
#[derive(Clone, Copy)]
pub enum Named {
    Sensor,
    /// A concrete invocation, MODULE.MODE.TASK.
    Invocation,
}

/// How many numbers there are.
pub fn count(t: &Tables, kind: Named) -> usize
    ensures count { result ≡ count_of t.now kind }
    ensures few { result ≤ 2048 }
{
    t.keeps_ranges();
    match kind {
        Named::Sensor => t.parts().comms.as_slice().len(),
        Named::Invocation => t.parts().invs.as_slice().len(),
    }
}

/// The name that a number has, if it has one.
pub fn name(parts: &Parts, kind: Named, number: u16) -> Option<LineBuffer>
    ensures { result ≡ name_of (tables_of parts.now) kind number }
{
    match kind {
        Named::Sensor => match parts.comms.as_slice().get(number as usize) {
            Some(comm) => sensor_name(comm),
            None => None,
        },
        Named::Invocation => match parts.invs.as_slice().get(number as usize) {
            Some(inv) => dotted(parts, inv),
            None => None,
        },
    }
}

fn sensor_name(comm: &Comm) -> Option<LineBuffer>
    ensures { result ≡ sensor_name_of comm.now }
{
    if !comm.sensor {
        return None;
    }
    let mut line = LineBuffer::new();
    line.text(comm.name.as_bytes());
    Some(line)
}

// The name of an invocation, where it is concrete.
fn dotted(parts: &Parts, inv: &Inv) -> Option<LineBuffer>
    ensures { result ≡ dotted_of (tables_of parts.now) inv.now }
{
    let task = parts.tasks.as_slice().get(inv.task as usize)?;
    let mode = parts.modes.as_slice().get(inv.mode as usize)?;
    let module = parts.modules.as_slice().get(mode.module as usize)?;
    if task.is_abstract {
        None
    } else {
        Some(joined(&module.name, &mode.name, &task.name))
    }
}

// Three names, joined by dots.
fn joined(first: &Name, second: &Name, third: &Name) -> LineBuffer
    ensures { result ≡ first.now ++ 46 ∷ (second.now ++ 46 ∷ third.now) }
{
    let mut line = LineBuffer::new();
    line.text(first.as_bytes());
    line.push(b'.');
    line.text(second.as_bytes());
    line.push(b'.');
    line.text(third.as_bytes());
    line
}
