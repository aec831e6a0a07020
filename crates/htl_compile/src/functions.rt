// The functions of tables, compiled in their order.
ghost use Rattle.std.specs.Prelude.{◌≡◌, ◌<◌, ◌≤◌, ◌+◌, ℕ, [], length, map, slice_get, Some, IfOk, OnOk, IfErr};
ghost use Rattle.htl_compile.specs.Coded.{code_at, codes as codes_of, coded, IsTypedAt, TypedBetween, AreTyped};
ghost use Rattle.htl_compile.specs.FunctionFaults.{IsFaultAt, IsFirstFaultFrom, IsFirstFault};
ghost use Rattle.htl_model.specs.FunctionTypes.{output_type, function_types, FitPlaces};
ghost use Rattle.htl_model.specs.Lists.{list_to};
ghost use Rattle.htl_model.specs.Small.{AreSmall};
ghost use Rattle.htl_model.specs.Tables.{fun_of, count_before, count_at};

use htl_base::limits::MAX_ARGUMENTS;
use htl_base::{Seq, Ty};
use htl_func::{FnFault, compile_fn};
use htl_model::lookup::{fill_types, function_count, functions_before};
use htl_model::{Function, Parts, Tables};
use std::alloc::Global;

// The code of the function at a place, which has these types.
fn compile_at(
    alloc: Global,
    t: &Tables,
    id: usize,
    args: &[Ty],
    want: Ty,
) -> Result<Function, FnFault>
    requires within { id < length t.now.functions }
    requires types { slice_get (function_types t.now) id ≡ Some (output_type args.now want) }
    requires small { AreSmall t.now }
    ensures code { IfOk result (λ f. fun_of f ≡ code_at t.now id) }
    ensures typed { IfOk result (λ _. IsTypedAt t.now id) }
    ensures fault { IfErr result (IsFaultAt t.now id) }
{
    match &t.parts().functions.as_slice()[id] {
        Function::Expr { first, e } => match compile_fn(alloc, *first, e, args, want) {
            Ok(code) => Ok(Function::Code(code)),
            Err(fault) => Err(fault),
        },
        Function::Code(_) => unreachable!(),
    }
}

// Puts the code of the function at a place behind that of the functions before it.
fn push_code(
    alloc: Global,
    t: &Tables,
    id: usize,
    args: &[Ty],
    want: Ty,
    codes: &mut Vec<Function>,
) -> Result<(), FnFault>
    requires within { id < length t.now.functions }
    requires types { slice_get (function_types t.now) id ≡ Some (output_type args.now want) }
    requires small { AreSmall t.now }
    requires before { map fun_of codes.old.items ≡ list_to (code_at t.now) id }
    ensures codes { OnOk result (map fun_of codes.new.items ≡ list_to (code_at t.now) (id + 1)) }
    ensures typed { OnOk result (IsTypedAt t.now id) }
    ensures fault { IfErr result (IsFaultAt t.now id) }
{
    let code = match compile_at(alloc, t, id, args, want) {
        Ok(code) => code,
        Err(fault) => return Err(fault),
    };
    if codes.push(code).is_err() {
        return Err(FnFault::Memory);
    }
    Ok(())
}

// The functions of a task's outputs; the place of the first is given.
fn push_outputs(
    alloc: Global,
    t: &Tables,
    task: usize,
    first: usize,
    codes: &mut Vec<Function>,
) -> Result<(), FnFault>
    requires task { task < length t.now.tasks }
    requires first { first ≡ count_before task t.now.tasks }
    requires small { AreSmall t.now }
    requires before { map fun_of codes.old.items ≡ list_to (code_at t.now) first }
    ensures codes { OnOk result (map fun_of codes.new.items ≡ list_to (code_at t.now) (first + count_at (slice_get t.now.tasks task))) }
    ensures typed { OnOk result (TypedBetween t.now first (first + count_at (slice_get t.now.tasks task))) }
    ensures fault { IfErr result (IsFirstFaultFrom t.now first) }
{
    let task = &t.parts().tasks.as_slice()[task];
    if task.is_abstract {
        return Ok(());
    }
    let outputs = task.outputs.as_slice();
    for j in 0..outputs.len() {
        match push_code(
            alloc,
            t,
            first + j,
            task.inputs.as_slice(),
            outputs[j],
            codes,
        ) {
            Ok(()) => {}
            Err(fault) => return Err(fault),
        }
    }
    Ok(())
}

// The functions of all tasks.
fn push_tasks(alloc: Global, t: &Tables, codes: &mut Vec<Function>) -> Result<(), FnFault>
    requires small { AreSmall t.now }
    requires empty { codes.old.items ≡ [] }
    ensures codes { OnOk result (map fun_of codes.new.items ≡ list_to (code_at t.now) (count_before (length t.now.tasks) t.now.tasks)) }
    ensures typed { OnOk result (TypedBetween t.now 0 (count_before (length t.now.tasks) t.now.tasks)) }
    ensures fault { IfErr result (IsFirstFault t.now) }
{
    let tasks = t.parts().tasks.as_slice();
    let mut id = 0;
    for k in 0..tasks.len() {
        match push_outputs(alloc, t, k, id, codes) {
            Ok(()) => {}
            Err(fault) => return Err(fault),
        }
        id += function_count(&tasks[k]) as usize;
    }
    Ok(())
}

// The function of a switch, whose place is given.
fn push_switch(
    alloc: Global,
    t: &Tables,
    switch: usize,
    id: usize,
    codes: &mut Vec<Function>,
) -> Result<(), FnFault>
    requires switch { switch < length t.now.switches }
    requires id { id ≡ count_before (length t.now.tasks) t.now.tasks + switch }
    requires small { AreSmall t.now }
    requires before { map fun_of codes.old.items ≡ list_to (code_at t.now) id }
    ensures codes { OnOk result (map fun_of codes.new.items ≡ list_to (code_at t.now) (id + 1)) }
    ensures typed { OnOk result (IsTypedAt t.now id) }
    ensures fault { IfErr result (IsFaultAt t.now id) }
{
    let switch = &t.parts().switches.as_slice()[switch];
    let mut types = [Ty::Int; MAX_ARGUMENTS];
    let count = fill_types(t, switch, &mut types);
    push_code(alloc, t, id, &types[..count], Ty::Bool, codes)
}

// The functions of all switches, behind those of the tasks.
fn push_switches(alloc: Global, t: &Tables, codes: &mut Vec<Function>) -> Result<(), FnFault>
    requires small { AreSmall t.now }
    requires before { map fun_of codes.old.items ≡ list_to (code_at t.now) (count_before (length t.now.tasks) t.now.tasks) }
    requires typed { TypedBetween t.now 0 (count_before (length t.now.tasks) t.now.tasks) }
    ensures codes { OnOk result (map fun_of codes.new.items ≡ codes_of t.now) }
    ensures typed { OnOk result (AreTyped t.now) }
    ensures fault { IfErr result (IsFirstFault t.now) }
{
    let parts = t.parts();
    let tasks = parts.tasks.as_slice();
    let first = functions_before(tasks, tasks.len()) as usize;
    for k in 0..parts.switches.as_slice().len() {
        match push_switch(alloc, t, k, first + k, codes) {
            Ok(()) => {}
            Err(fault) => return Err(fault),
        }
    }
    Ok(())
}

// The code of each function, in their order.
fn all_codes(alloc: Global, t: &Tables) -> Result<Vec<Function>, FnFault>
    requires { AreSmall t.now }
    ensures codes { IfOk result (λ v. map fun_of v.items ≡ codes_of t.now) }
    ensures typed { IfOk result (λ _. AreTyped t.now) }
    ensures fault { IfErr result (IsFirstFault t.now) }
{
    let mut codes = Vec::new(alloc);
    match push_tasks(alloc, t, &mut codes) {
        Ok(()) => {}
        Err(fault) => return Err(fault),
    }
    match push_switches(alloc, t, &mut codes) {
        Ok(()) => Ok(codes),
        Err(fault) => Err(fault),
    }
}

/// The tables with each function in postfix code, or the fault of the first function that isn't compiled.
pub fn compiled(alloc: Global, t: Tables) -> Result<Tables, FnFault>
    requires { AreSmall t }
    ensures coded { IfOk result (λ u. u ≡ coded t) }
    ensures typed { IfOk result (λ _. AreTyped t) }
    ensures fits { IfOk result (λ u. FitPlaces u) }
    ensures fault { IfErr result (IsFirstFault t) }
{
    let codes = match all_codes(alloc, &t) {
        Ok(codes) => codes,
        Err(fault) => return Err(fault),
    };
    let Parts {
        comms,
        modes,
        modules,
        ports,
        tasks,
        invs,
        switches,
        functions: _functions,
    } = t.into_parts();
    Ok(Tables::new(Parts {
        comms,
        modes,
        modules,
        ports,
        tasks,
        invs,
        switches,
        functions: Seq::new(codes),
    }))
}
