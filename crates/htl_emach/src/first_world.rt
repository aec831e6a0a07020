// What a world holds before the first instant.
ghost use Rattle.std.specs.Prelude.{◌≡◌, length, map, IfOk};
ghost use Rattle.htl_model.specs.EndRules.{input_types, output_types};
ghost use Rattle.htl_emach.specs.Contents.{input_row, output_row};

use htl_base::Value;
use htl_model::Tables;
use std::alloc::{AllocError, Global};

// The initial values of the communicators.
pub(crate) fn first_values(alloc: Global, t: &Tables) -> Result<Vec<Value>, AllocError>
    ensures { IfOk result (λ v. v.items ≡ map (λ c. c.init) t.now.comms) }
{
    let parts = t.parts();
    let comms = parts.comms.as_slice();
    let mut values = Vec::new(alloc);
    for k in 0..comms.len() {
        values.push(comms[k].init)?;
    }
    Ok(values)
}

// How many inputs a task has; none where there is no such task.
fn input_places(t: &Tables, task: u16) -> usize
    ensures { result ≡ length (input_types t.now task) }
{
    let parts = t.parts();
    let tasks = parts.tasks.as_slice();
    if (task as usize) < tasks.len() {
        tasks[task as usize].inputs.as_slice().len()
    } else {
        0
    }
}

// How many outputs a task has; none where there is no such task.
fn output_places(t: &Tables, task: u16) -> usize
    ensures { result ≡ length (output_types t.now task) }
{
    let parts = t.parts();
    let tasks = parts.tasks.as_slice();
    if (task as usize) < tasks.len() {
        tasks[task as usize].outputs.as_slice().len()
    } else {
        0
    }
}

// A row of zeros for each invocation's inputs.
pub(crate) fn input_rows(alloc: Global, t: &Tables) -> Result<Vec<Vec<Value>>, AllocError>
    ensures { IfOk result (λ v. map (λ r. r.items) v.items ≡ map (input_row t.now) t.now.invs) }
{
    let parts = t.parts();
    let invs = parts.invs.as_slice();
    let mut rows = Vec::new(alloc);
    for k in 0..invs.len() {
        let row = vec![in alloc; 0; input_places(t, invs[k].task)]?;
        rows.push(row)?;
    }
    Ok(rows)
}

// A row of zeros for each invocation's outputs.
pub(crate) fn output_rows(alloc: Global, t: &Tables) -> Result<Vec<Vec<Value>>, AllocError>
    ensures { IfOk result (λ v. map (λ r. r.items) v.items ≡ map (output_row t.now) t.now.invs) }
{
    let parts = t.parts();
    let invs = parts.invs.as_slice();
    let mut rows = Vec::new(alloc);
    for k in 0..invs.len() {
        let row = vec![in alloc; 0; output_places(t, invs[k].task)]?;
        rows.push(row)?;
    }
    Ok(rows)
}
