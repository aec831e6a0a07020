// The keys by which a file names tasks.
ghost use Rattle.std.specs.Prelude.{◌≡◌, ◌++◌, ◌∷◌, IfOk, IsUtf8};
ghost use Rattle.toml.specs.View.{table_view};
ghost use Rattle.htl_platform.specs.Entries.{key_of};
ghost use Rattle.htl_platform.specs.Faults.{bad_key};
ghost use Rattle.htl_platform.specs.Keys.{Holds, keys_of, has_key};

use crate::search::Test;
use crate::table::first_in_worst;
use htl_base::Name;
use htl_model::{Module, Tables, Task};
use indexmap::IndexSet;
use std::alloc::{AllocError, Global};
use toml::{Table, Value};

// Two names with a dot between them.
fn dotted(alloc: Global, module: &Name, task: &Name) -> Result<Vec<u8>, AllocError>
    ensures bytes { IfOk result (λ v. v.items ≡ «module».now ++ 46 ∷ task.now) }
    ensures text { IfOk result (λ v. IsUtf8 v.items) }
{
    let mut key = Vec::new(alloc);
    key.extend_from_slice(module.as_bytes())?;
    key.push(b'.')?;
    key.extend_from_slice(task.as_bytes())?;
    Ok(key)
}

/// The key `module.task` of a task, empty where its module is none of these.
pub fn key_of(alloc: Global, modules: &[Module], task: &Task) -> Result<Vec<u8>, AllocError>
    ensures bytes { IfOk result (λ v. v.items ≡ key_of modules.now task.now) }
    ensures text { IfOk result (λ v. IsUtf8 v.items) }
{
    let module = task.module as usize;
    if module < modules.len() {
        dotted(alloc, &modules[module].name, &task.name)
    } else {
        Ok(Vec::new(alloc))
    }
}

// The keys of all tasks.
fn keys_of(
    alloc: Global,
    modules: &[Module],
    tasks: &[Task],
) -> Result<IndexSet<Vec<u8>>, AllocError>
    ensures { IfOk result (λ keys. Holds keys.keys (keys_of modules.now tasks.now)) }
{
    let mut keys: IndexSet<Vec<u8>> = IndexSet::new(alloc);
    for k in 0..tasks.len() {
        keys.insert(key_of(alloc, modules, &tasks[k])?)?;
    }
    Ok(keys)
}

// An entry of `worst`: its key is among these.
impl Test for IndexSet<Vec<u8>> {
    ghost passes = { λ keys entry. has_key keys.keys entry.0 };

    fn passes(&self, key: &str, _value: &Value) -> bool {
        self.contains(key.as_bytes())
    }
}

/// The number of the first entry of `worst` whose key is no task's. All keys are put into an index first, so that each
/// entry is one look-up.
pub fn bad_key(alloc: Global, t: &Tables, table: &Table) -> Result<Option<usize>, AllocError>
    ensures { IfOk result (λ entry. entry ≡ bad_key t.now (table_view table.now)) }
{
    let parts = t.parts();
    let keys = keys_of(alloc, parts.modules.as_slice(), parts.tasks.as_slice())?;
    Ok(first_in_worst(&keys, table))
}
