// From a platform file to the platform.
ghost use Rattle.std.specs.Prelude.{◌≡◌, ◌⊎◌, length, map, All, is_some, IfSome, IfOk, Ok, Err, None};
ghost use Rattle.toml.specs.View.{table_view};
ghost use Rattle.htl_model.specs.Ranges.{IsSpan};
ghost use Rattle.htl_platform.specs.Entries.{worst_of};
ghost use Rattle.htl_platform.specs.Faults.{bad_shape};
ghost use Rattle.htl_platform.specs.Platforms.{has_name, name_in, worst_in, platform_of};
ghost use Rattle.htl_platform.specs.Answers.{IsPlatform};
ghost use Rattle.htl_platform.specs.declared.fault.PlatformStop.TheVariants.{Refused, Memory};
ghost use Rattle.htl_platform.specs.declared.fault.PlatformFault.{PlatformFault as FaultSaid};
ghost use Rattle.htl_platform.specs.declared.platform.Platform.{Platform as PlatformSaid};

use crate::entries::worst_or;
use crate::fault::PlatformStop;
use crate::judging::judge;
use crate::keys::key_of;
use crate::platform::Platform;
use crate::table::{document, value_at, worst_at};
use htl_base::{Name, Seq};
use htl_model::{Module, Tables, Task};
use std::alloc::{AllocError, Global};
use toml::Table;

// The platform's name, where the file's table has one.
fn name_at(table: &Table) -> Option<Name>
    ensures value { IfSome result (λ name. name ≡ name_in (table_view table.now)) }
    ensures exact { is_some result ≡ has_name (table_view table.now) }
{
    match value_at(table, "name") {
        Some(value) => match value.as_str() {
            Some(text) => Name::new(text.as_bytes()),
            None => None,
        },
        None => None,
    }
}

// The platform's name, which a table without a fault of shape has.
fn name_in(table: &Table) -> Name
    requires { bad_shape (table_view table.now) ≡ None }
    ensures { result ≡ name_in (table_view table.now) }
{
    match name_at(table) {
        Some(name) => name,
        None => unreachable!(),
    }
}

// The worst case of one task.
fn worst_in(
    alloc: Global,
    table: &Table,
    modules: &[Module],
    task: &Task,
) -> Result<u32, AllocError>
    ensures { IfOk result (λ worst. worst ≡ worst_in modules.now (worst_of (table_view table.now)) task.now) }
{
    let key = key_of(alloc, modules, task)?;
    match str::from_utf8(key.as_slice()) {
        Ok(key) => Ok(worst_or(task.worst, worst_at(table, key))),
        Err(_) => unreachable!(),
    }
}

// The worst cases of all tasks.
fn worst_cases(
    alloc: Global,
    table: &Table,
    modules: &[Module],
    tasks: &[Task],
) -> Result<Vec<u32>, AllocError>
    ensures { IfOk result (λ v. v.items ≡ map (worst_in modules.now (worst_of (table_view table.now))) tasks.now) }
{
    let mut worst = Vec::with_capacity(alloc, tasks.len())?;
    for k in 0..tasks.len() {
        worst.push(worst_in(alloc, table, modules, &tasks[k])?)?;
    }
    Ok(worst)
}

/// Reads a platform file for the tasks of the tables.
///
/// The file is TOML. It has a text `name` that is a name, and may have a table `worst` from `"module.task"` to whole numbers.
/// The platform has the worst case of each task that has an entry there, and the task's own of each other one; so it is as
/// `apply` asks.
///
/// `Refused` comes exactly where the file has a fault, and tells the first one; any file without a fault is read. Want of
/// memory may come in place of either. The cost is that of reading the bytes, and a look-up for each task and each entry.
pub fn read_platform(alloc: Global, bytes: &[u8], t: &Tables) -> Result<Platform, PlatformStop>
    ensures exact { IsPlatform t.now bytes.now result }
    ensures complete { (p : PlatformSaid) → platform_of t.now bytes.now ≡ Ok p → (result ≡ Ok p) ⊎ (result ≡ Err Memory) }
    ensures refused { (fault : FaultSaid) → platform_of t.now bytes.now ≡ Err fault → (result ≡ Err (Refused fault)) ⊎ (result ≡ Err Memory) }
    ensures count { IfOk result (λ p. length p.worst ≡ length t.now.tasks) }
    ensures spans { IfOk result (λ p. All IsSpan p.worst) }
{
    let table = document(alloc, bytes)?;
    judge(alloc, &table, t)?;
    let parts = t.parts();
    let worst = worst_cases(
        alloc,
        &table,
        parts.modules.as_slice(),
        parts.tasks.as_slice(),
    )?;
    Ok(Platform {
        name: name_in(&table),
        worst: Seq::new(worst),
    })
}
