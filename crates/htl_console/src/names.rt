// The names of items in a line, or their numbers where there is no such item.
ghost use Rattle.std.specs.Prelude.{◌≡◌, ◌≤◌, ◌+◌, ◌++◌, length};
ghost use Rattle.htl_base.specs.declared.limits.TheConstants as limit;
ghost use Rattle.htl_model.specs.Lines.{comm_name as comm_name_of, mode_name as mode_name_of, module_name as module_name_of};
ghost use Rattle.htl_console.specs.Names.{task_name as task_name_of, full_mode, full_inv, inv_name, mode_text, module_text};

use htl_edge::LineBuffer;
use htl_model::lookup::mode_module;
use htl_model::{Inv, Tables};

/// The name of a communicator; nothing where there is none of this number.
pub fn comm_name(t: &Tables, comm: u16) -> &[u8]
    ensures name { result.now ≡ comm_name_of t.now comm }
    ensures short { length result.now ≤ 48 }
{
    match t.parts().comms.as_slice().get(comm as usize) {
        Some(comm) => comm.name.as_bytes(),
        None => b"",
    }
}

/// The name of a mode without its module's; nothing where there is none of this number.
pub fn mode_name(t: &Tables, mode: u16) -> &[u8]
    ensures name { result.now ≡ mode_name_of t.now mode }
    ensures short { length result.now ≤ 48 }
{
    match t.parts().modes.as_slice().get(mode as usize) {
        Some(mode) => mode.name.as_bytes(),
        None => b"",
    }
}

/// The name of a module; nothing where there is none of this number.
pub fn module_name(t: &Tables, unit: u16) -> &[u8]
    ensures name { result.now ≡ module_name_of t.now unit }
    ensures short { length result.now ≤ 48 }
{
    match t.parts().modules.as_slice().get(unit as usize) {
        Some(unit) => unit.name.as_bytes(),
        None => b"",
    }
}

// The name of a task; nothing where there is none of this number.
fn task_name(t: &Tables, task: u16) -> &[u8]
    ensures name { result.now ≡ task_name_of t.now task }
    ensures short { length result.now ≤ 48 }
{
    match t.parts().tasks.as_slice().get(task as usize) {
        Some(task) => task.name.as_bytes(),
        None => b"",
    }
}

// Adds `MODULE.MODE`.
fn put_full_mode(line: &mut LineBuffer, t: &Tables, mode: u16)
    requires room { length line.old + 97 ≤ limit.MAX_LINE }
    ensures bytes { line.new ≡ line.old ++ full_mode t.now mode }
    ensures len { length line.new ≤ length line.old + 97 }
{
    line.text(module_name(t, mode_module(t, mode)));
    line.text(b".");
    line.text(mode_name(t, mode));
}

/// Adds `MODULE.MODE.TASK` of an invocation: at most 146 bytes.
#[inline(always)]
pub fn put_full_inv(line: &mut LineBuffer, t: &Tables, inv: &Inv)
    requires room { length line.old + 146 ≤ limit.MAX_LINE }
    ensures bytes { line.new ≡ line.old ++ full_inv t.now inv.now }
    ensures len { length line.new ≤ length line.old + 146 }
{
    put_full_mode(line, t, inv.mode);
    line.text(b".");
    line.text(task_name(t, inv.task));
}

/// Adds the name of an invocation, or its number: at most 146 bytes.
#[inline(always)]
pub fn put_inv(line: &mut LineBuffer, t: &Tables, inv: u16)
    requires room { length line.old + 146 ≤ limit.MAX_LINE }
    ensures bytes { line.new ≡ line.old ++ inv_name t.now inv }
    ensures len { length line.new ≤ length line.old + 146 }
{
    match t.parts().invs.as_slice().get(inv as usize) {
        Some(item) => put_full_inv(line, t, item),
        None => line.number(inv as u64),
    }
}

/// Adds the name of a mode with its module's, or its number: at most 97 bytes.
pub fn put_mode(line: &mut LineBuffer, t: &Tables, mode: u16)
    requires room { length line.old + 97 ≤ limit.MAX_LINE }
    ensures bytes { line.new ≡ line.old ++ mode_text t.now mode }
    ensures len { length line.new ≤ length line.old + 97 }
{
    if (mode as usize) < t.parts().modes.as_slice().len() {
        put_full_mode(line, t, mode);
    } else {
        line.number(mode as u64);
    }
}

/// Adds the name of a module, or its number: at most 48 bytes.
pub fn put_module(line: &mut LineBuffer, t: &Tables, unit: u16)
    requires room { length line.old + 48 ≤ limit.MAX_LINE }
    ensures bytes { line.new ≡ line.old ++ module_text t.now unit }
    ensures len { length line.new ≤ length line.old + 48 }
{
    match t.parts().modules.as_slice().get(unit as usize) {
        Some(item) => line.text(item.name.as_bytes()),
        None => line.number(unit as u64),
    }
}
