// The functions of the patched tables: those of both programs, without change.
ghost use Rattle.std.specs.Prelude.{◌≡◌, ◌<◌, ◌≤◌, ◌+◌, ◌-◌, ◌++◌, ◌∷◌, [], All, length, map, slice_get, take, drop, OnOk, IfOk};
ghost use Rattle.std.specs.List.{flat_map};
ghost use Rattle.htl_model.specs.Tables.{fun_of, count_at};
ghost use Rattle.htl_object.specs.Ranges.{IsFunctionCode};
ghost use Rattle.htl_patch.specs.Firsts.{firsts_of};
ghost use Rattle.htl_patch.specs.Patched.{new_numbers, patched};
ghost use Rattle.htl_patch.specs.Renumbered.{functions_of, function_of_switch};
ghost use Rattle.htl_patch.specs.Combined.{combined};

use crate::lists::{switches, tasks};
use crate::numbers::OldNumbers;
use crate::replacement::Replacement;
use htl_base::Seq;
use htl_model::lookup::function_count;
use htl_model::{Code, Function, Tables};
use std::alloc::{AllocError, Global};

fn copied_code(alloc: Global, code: &Code) -> Result<Code, AllocError>
    ensures { IfOk result (λ y. y ≡ code.now) }
{
    let args = code.args.as_slice().to_vec(alloc)?;
    let instrs = code.instrs.as_slice().to_vec(alloc)?;
    Ok(Code {
        args: Seq::new(args),
        want: code.want,
        instrs: Seq::new(instrs),
    })
}

fn copied_function(alloc: Global, f: &Function) -> Result<Function, AllocError>
    requires { IsFunctionCode (fun_of f.now) }
    ensures { IfOk result (λ y. fun_of y ≡ fun_of f.now) }
{
    match f {
        Function::Code(code) => {
            let code = copied_code(alloc, code)?;
            Ok(Function::Code(code))
        }
        Function::Expr { .. } => unreachable!(),
    }
}

// Puts so many functions, from a place on, behind others.
fn push_functions(
    alloc: Global,
    t: &Tables,
    first: usize,
    count: usize,
    into: &mut Vec<Function>,
) -> Result<(), AllocError>
    requires coded { All IsFunctionCode t.now.functions }
    requires within { first + count ≤ length t.now.functions }
    ensures { OnOk result (map fun_of into.new.items ≡ map fun_of into.old.items ++ take count (drop first t.now.functions)) }
{
    let functions = t.parts().functions.as_slice();
    for k in 0..count {
        let id = first + k;
        let f = copied_function(alloc, &functions[id])?;
        into.push(f)?;
    }
    Ok(())
}

// How many functions a task has.
fn count_of(t: &Tables, k: usize) -> u32
    requires { k < length t.now.tasks }
    ensures value { result ≡ count_at (slice_get t.now.tasks k) }
    ensures few { result ≤ 256 }
{
    function_count(&tasks(t)[k])
}

/// The number of the first function of each task.
pub(crate) fn firsts(alloc: Global, t: &Tables) -> Result<Vec<u32>, AllocError>
    ensures { IfOk result (λ v. v.items ≡ firsts_of t.now) }
{
    let count = tasks(t).len();
    let mut found = Vec::new(alloc);
    let mut sum = 0u32;
    for k in 0..count {
        found.push(sum)?;
        sum += count_of(t, k);
    }
    Ok(found)
}

/// Puts the functions of a task's outputs behind others.
pub(crate) fn push_of_task(
    alloc: Global,
    t: &Tables,
    firsts: &[u32],
    k: usize,
    into: &mut Vec<Function>,
) -> Result<(), AllocError>
    requires coded { All IsFunctionCode t.now.functions }
    requires firsts { firsts.now ≡ firsts_of t.now }
    requires within { k < length t.now.tasks }
    ensures { OnOk result (map fun_of into.new.items ≡ map fun_of into.old.items ++ functions_of t.now k) }
{
    t.keeps_ranges();
    let first = firsts[k] as usize;
    let count = count_of(t, k) as usize;
    push_functions(alloc, t, first, count, into)
}

/// The numbers of the first functions of the tasks of both programs.
#[derive(Clone, Copy)]
pub(crate) struct FirstFunctions<'a> {
    pub host: &'a [u32],
    pub donor: &'a [u32],
}

// Puts the functions of a task of both programs behind others.
fn push_output(
    alloc: Global,
    g: &Replacement<'_>,
    firsts: &FirstFunctions<'_>,
    k: usize,
    into: &mut Vec<Function>,
) -> Result<(), AllocError>
    requires coded { All IsFunctionCode g.now.host.functions }
    requires donor_coded { All IsFunctionCode g.now.donor.functions }
    requires firsts { firsts.now.host.now ≡ firsts_of g.now.host }
    requires donor_firsts { firsts.now.donor.now ≡ firsts_of g.now.donor }
    requires within { k < length (combined g.now).tasks }
    ensures { OnOk result (map fun_of into.new.items ≡ map fun_of into.old.items ++ functions_of (combined g.now) k) }
{
    g.keeps_ranges();
    let front = tasks(g.host);
    if k < front.len() {
        push_of_task(alloc, g.host, firsts.host, k, into)
    } else {
        push_of_task(alloc, g.donor, firsts.donor, k - front.len(), into)
    }
}

// Puts the functions of tasks behind others, task by task.
fn push_outputs(
    alloc: Global,
    g: &Replacement<'_>,
    firsts: &FirstFunctions<'_>,
    keys: &[u16],
    into: &mut Vec<Function>,
) -> Result<(), AllocError>
    requires coded { All IsFunctionCode g.now.host.functions }
    requires donor_coded { All IsFunctionCode g.now.donor.functions }
    requires firsts { firsts.now.host.now ≡ firsts_of g.now.host }
    requires donor_firsts { firsts.now.donor.now ≡ firsts_of g.now.donor }
    requires within { All (λ x. x < length (combined g.now).tasks) keys.now }
    ensures { OnOk result (map fun_of into.new.items ≡ map fun_of into.old.items ++ flat_map (functions_of (combined g.now)) keys.now) }
{
    for k in 0..keys.len() {
        push_output(alloc, g, firsts, keys[k] as usize, into)?;
    }
    Ok(())
}

// The number of the function of a switch.
fn switch_function(t: &Tables, k: usize) -> usize
    requires { k < length t.now.switches }
    ensures { result ≡ (length t.now.functions - length t.now.switches) + k }
{
    t.keeps_ranges();
    let functions = t.parts().functions.as_slice();
    functions.len() - switches(t).len() + k
}

// Puts the function of a switch behind others.
fn push_of_switch(
    alloc: Global,
    t: &Tables,
    k: usize,
    into: &mut Vec<Function>,
) -> Result<(), AllocError>
    requires coded { All IsFunctionCode t.now.functions }
    requires within { k < length t.now.switches }
    ensures { OnOk result (map fun_of into.new.items ≡ map fun_of into.old.items ++ function_of_switch t.now k ∷ []) }
{
    t.keeps_ranges();
    let first = switch_function(t, k);
    push_functions(alloc, t, first, 1, into)
}

// Puts the function of a switch of both programs behind others.
fn push_switch(
    alloc: Global,
    g: &Replacement<'_>,
    k: usize,
    into: &mut Vec<Function>,
) -> Result<(), AllocError>
    requires coded { All IsFunctionCode g.now.host.functions }
    requires donor_coded { All IsFunctionCode g.now.donor.functions }
    requires within { k < length (combined g.now).switches }
    ensures { OnOk result (map fun_of into.new.items ≡ map fun_of into.old.items ++ function_of_switch (combined g.now) k ∷ []) }
{
    g.keeps_ranges();
    let front = switches(g.host);
    if k < front.len() {
        push_of_switch(alloc, g.host, k, into)
    } else {
        push_of_switch(alloc, g.donor, k - front.len(), into)
    }
}

// Puts the functions of switches behind others.
fn push_switches(
    alloc: Global,
    g: &Replacement<'_>,
    keys: &[u16],
    into: &mut Vec<Function>,
) -> Result<(), AllocError>
    requires coded { All IsFunctionCode g.now.host.functions }
    requires donor_coded { All IsFunctionCode g.now.donor.functions }
    requires within { All (λ x. x < length (combined g.now).switches) keys.now }
    ensures { OnOk result (map fun_of into.new.items ≡ map fun_of into.old.items ++ map (function_of_switch (combined g.now)) keys.now) }
{
    for k in 0..keys.len() {
        push_switch(alloc, g, keys[k] as usize, into)?;
    }
    Ok(())
}

/// The functions of the patched tables: of each task that is taken over those of its outputs, then of each switch its own.
pub(crate) fn new_functions(
    alloc: Global,
    g: &Replacement<'_>,
    n: &OldNumbers,
) -> Result<Vec<Function>, AllocError>
    requires coded { All IsFunctionCode g.now.host.functions }
    requires donor_coded { All IsFunctionCode g.now.donor.functions }
    requires numbers { n.now ≡ new_numbers g.now }
    ensures { IfOk result (λ v. map fun_of v.items ≡ (patched g.now).functions) }
{
    let host = firsts(alloc, g.host)?;
    let donor = firsts(alloc, g.donor)?;
    let firsts = FirstFunctions {
        host: host.as_slice(),
        donor: donor.as_slice(),
    };
    let mut found = Vec::new(alloc);
    push_outputs(alloc, g, &firsts, n.tasks.as_slice(), &mut found)?;
    push_switches(alloc, g, n.switches.as_slice(), &mut found)?;
    Ok(found)
}
