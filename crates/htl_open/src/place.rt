// The place of a broken form rule, by names.
ghost use Rattle.std.specs.Prelude.{◌≡◌, ◌≤◌, length};
ghost use Rattle.htl_open.specs.Lines.{mode_place_text as mode_place, place_of_fault};

use crate::lookups::{mode_name, module_name, task_name};
use htl_edge::LineBuffer;
use htl_model::{FormFault, Tables};

/// `module.mode`, or `module.mode.task` where an invocation is the place. A number that names nothing has no name.
pub fn place(t: &Tables, fault: &FormFault) -> LineBuffer
    ensures text { result ≡ place_of_fault t.now fault.now }
    ensures short { length result ≤ 146 }
{
    let mut line = mode_place(t, fault);
    if let Some(inv) = fault.inv {
        line.text(b".");
        line.text(task_name(t, inv as usize));
    }
    line
}

// `module.mode`.
fn mode_place(t: &Tables, fault: &FormFault) -> LineBuffer
    ensures text { result ≡ mode_place t.now fault.now }
    ensures short { length result ≤ 97 }
{
    let mut line = LineBuffer::new();
    line.text(module_name(t, fault.module as usize));
    line.text(b".");
    line.text(mode_name(t, fault.mode as usize));
    line
}
