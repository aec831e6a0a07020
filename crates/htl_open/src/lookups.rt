// What the numbers of the tables name.
ghost use Rattle.std.specs.Prelude.{◌≡◌, ◌≤◌, length};
ghost use Rattle.htl_model.specs.Lines.{mode_name as mode_name_of, module_name as module_name_of};
ghost use Rattle.htl_open.specs.Lines.{inv_task_name};

use htl_model::Tables;

/// The name of a module; nothing where there is none of this number.
pub fn module_name(t: &Tables, k: usize) -> &[u8]
    ensures name { result.now ≡ module_name_of t.now k }
    ensures short { length result.now ≤ 48 }
{
    match t.parts().modules.as_slice().get(k) {
        Some(module) => module.name.as_bytes(),
        None => b"",
    }
}

/// The name of a mode; nothing where there is none of this number.
pub fn mode_name(t: &Tables, mode: usize) -> &[u8]
    ensures name { result.now ≡ mode_name_of t.now mode }
    ensures short { length result.now ≤ 48 }
{
    match t.parts().modes.as_slice().get(mode) {
        Some(mode) => mode.name.as_bytes(),
        None => b"",
    }
}

/// The name of an invocation's task; nothing where there is no invocation of this number.
pub fn task_name(t: &Tables, inv: usize) -> &[u8]
    ensures name { result.now ≡ inv_task_name t.now inv }
    ensures short { length result.now ≤ 48 }
{
    let Some(inv) = t.parts().invs.as_slice().get(inv) else {
        return b"";
    };
    match t.parts().tasks.as_slice().get(inv.task as usize) {
        Some(task) => task.name.as_bytes(),
        None => b"",
    }
}
