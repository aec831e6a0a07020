//! Look-ups by number, with 0 or false for what isn't there, and the worst cases of all invocations.
ghost use Rattle.std.specs.Prelude.{◌≡◌, ◌≤◌, length, All, map, take, drop, IfOk};
ghost use Rattle.htl_base.specs.declared.limits.TheConstants as limit;
ghost use Rattle.htl_model.specs.FunctionTypes.{comm_type as comm_type_of};
ghost use Rattle.htl_model.specs.Ranges.{parent_of as parent_of_module};
ghost use Rattle.htl_model.specs.SecondWriters.{parent_mode as parent_mode_of};
ghost use Rattle.htl_model.specs.Tables.{tables_of, count_before, function_count as function_count_of, comm_period as comm_period_of, mode_module as mode_module_of, mode_period as mode_period_of, task_worst as task_worst_of, is_concrete as is_concrete_of};

use crate::{Inv, Parts, Switch, Tables, Task};
use htl_base::limits::MAX_ARGUMENTS;
use htl_base::{Time, Ty};
use std::alloc::{AllocError, Global};

// The lists of the tables, without a word on their ranges.
pub(crate) fn lists(t: &Tables) -> &Parts
    ensures { t.now ≡ tables_of result.now }
{
    t.parts()
}

/// The period of a communicator, in ticks.
pub fn comm_period(t: &Tables, comm: u16) -> u32
    ensures { result ≡ comm_period_of t.now comm }
{
    let parts = lists(t);
    let comms = parts.comms.as_slice();
    if (comm as usize) < comms.len() {
        comms[comm as usize].period
    } else {
        0
    }
}

/// The type of a communicator; int where there is none.
pub fn comm_type(t: &Tables, comm: u16) -> Ty
    ensures { result ≡ comm_type_of t.now comm }
{
    let parts = lists(t);
    let comms = parts.comms.as_slice();
    if (comm as usize) < comms.len() {
        comms[comm as usize].ty
    } else {
        Ty::Int
    }
}

/// Fills the front with the types of the communicators that a switch reads, at most 256, and answers how many they are.
pub fn fill_types(t: &Tables, switch: &Switch, types: &mut [Ty; MAX_ARGUMENTS]) -> usize
    requires { length switch.now.reads ≤ limit.MAX_ARGUMENTS }
    ensures types { take result types.new ≡ map (comm_type_of t.now) switch.now.reads }
    ensures count { result ≡ length switch.now.reads }
    ensures rest { drop result types.new ≡ drop result types.old }
{
    let reads = switch.reads.as_slice();
    for k in 0..reads.len() {
        types[k] = comm_type(t, reads[k]);
    }
    reads.len()
}

/// The mode that a module refines; None where it is a root module, or where there is none.
pub fn parent_of(t: &Tables, module: u16) -> Option<u16>
    ensures { result ≡ parent_of_module t.now «module» }
{
    let parts = lists(t);
    let modules = parts.modules.as_slice();
    if (module as usize) < modules.len() {
        modules[module as usize].parent
    } else {
        None
    }
}

/// The mode that the module of a mode refines; None where it is a root module.
pub fn parent_mode(t: &Tables, mode: u16) -> Option<u16>
    ensures { result ≡ parent_mode_of t.now mode }
{
    parent_of(t, mode_module(t, mode))
}

/// The period of a mode, in ticks.
pub fn mode_period(t: &Tables, mode: u16) -> u32
    ensures { result ≡ mode_period_of t.now mode }
{
    let parts = lists(t);
    let modes = parts.modes.as_slice();
    if (mode as usize) < modes.len() {
        modes[mode as usize].period
    } else {
        0
    }
}

/// The module of a mode.
pub fn mode_module(t: &Tables, mode: u16) -> u16
    ensures { result ≡ mode_module_of t.now mode }
{
    let parts = lists(t);
    let modes = parts.modes.as_slice();
    if (mode as usize) < modes.len() {
        modes[mode as usize].module
    } else {
        0
    }
}

/// The worst-case execution time of a task, in ticks.
pub fn task_worst(t: &Tables, task: u16) -> u32
    ensures { result ≡ task_worst_of t.now task }
{
    let parts = lists(t);
    let tasks = parts.tasks.as_slice();
    if (task as usize) < tasks.len() {
        tasks[task as usize].worst
    } else {
        0
    }
}

/// The worst cases of the tasks of all invocations, in ticks. Want of memory is the one refusal.
pub fn worst_cases(alloc: Global, t: &Tables) -> Result<Vec<Time>, AllocError>
    ensures { IfOk result (λ v. v.items ≡ map (λ x. task_worst_of t.now x.task) t.now.invs) }
{
    let invs = t.parts().invs.as_slice();
    let mut worst = Vec::new(alloc);
    for k in 0..invs.len() {
        worst.push(task_worst(t, invs[k].task) as u64)?;
    }
    Ok(worst)
}

/// Whether an invocation is of a concrete task.
pub fn is_concrete(t: &Tables, inv: &Inv) -> bool
    ensures { result ≡ is_concrete_of t.now inv.now }
{
    let parts = lists(t);
    let tasks = parts.tasks.as_slice();
    let task = inv.task as usize;
    if task < tasks.len() {
        !tasks[task].is_abstract
    } else {
        true
    }
}

/// How many functions a task has: one for each output, none where it is abstract.
pub fn function_count(task: &Task) -> u32
    requires { length task.now.outputs ≤ limit.MAX_ENDS }
    ensures count { result ≡ function_count_of task.now }
    ensures few { result ≤ limit.MAX_ENDS }
{
    if task.is_abstract {
        0
    } else {
        task.outputs.as_slice().len() as u32
    }
}

/// How many functions the tasks below a place have.
pub fn functions_before(tasks: &[Task], count: usize) -> u32
    requires few { length tasks.now ≤ limit.MAX_TASKS }
    requires outputs { All (λ k. length k.outputs ≤ limit.MAX_ENDS) tasks.now }
    requires within { count ≤ length tasks.now }
    ensures value { result ≡ count_before count tasks.now }
    ensures few { result ≤ 1048576 }
{
    let mut sum = 0u32;
    for k in 0..count {
        let task = &tasks[k];
        sum += function_count(task);
    }
    sum
}
