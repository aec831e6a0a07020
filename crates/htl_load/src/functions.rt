// Functions and the types of their places.
ghost use Rattle.std.specs.Prelude.{◌≡◌, ◌↔◌, ◌<◌, ◌+◌, length, slice_get, Some, IsTrue, MatchOption, true, false};
ghost use Rattle.htl_model.specs.FunctionTypes.{output_type, function_types, IsFunctionOf, FitsPlace, FitPlaces};
ghost use Rattle.htl_model.specs.Tables.{fun_of, count_before, count_at};
ghost use Rattle.htl_load.specs.Unfit.{FitBetween, IsUnfitFrom, IsFirstUnfit};

use htl_base::Ty;
use htl_base::limits::MAX_ARGUMENTS;
use htl_fcode::verify;
use htl_model::lookup::{fill_types, function_count, functions_before};
use htl_model::{Function, Tables};

fn are_same(a: &[Ty], b: &[Ty]) -> bool
    ensures { IsTrue result ↔ (a.now ≡ b.now) }
{
    a == b
}

// Whether a function is verified code of these types.
fn fits(f: &Function, args: &[Ty], want: Ty) -> bool
    ensures { IsTrue result ↔ IsFunctionOf (output_type args.now want) (fun_of f.now) }
{
    match f {
        Function::Code(code) => {
            are_same(code.args.as_slice(), args) && code.want == want && verify(code).is_some()
        }
        Function::Expr { .. } => false,
    }
}

// Whether the function at a place is verified code of these types, which are those of the place.
fn fits_at(t: &Tables, id: usize, args: &[Ty], want: Ty) -> bool
    requires within { id < length t.now.functions }
    requires types { slice_get (function_types t.now) id ≡ Some (output_type args.now want) }
    ensures fits { result ≡ true → FitsPlace t.now id }
    ensures unfit { result ≡ false → FitsPlace t.now id → ⊥ }
{
    let functions = t.parts().functions.as_slice();
    fits(&functions[id], args, want)
}

// The first function of a task's outputs that doesn't fit its place; the number of the first output's function is given.
fn first_unfit_output(t: &Tables, task: usize, first: usize) -> Option<u32>
    requires task { task < length t.now.tasks }
    requires first { first ≡ count_before task t.now.tasks }
    ensures { MatchOption result (FitBetween t.now first (first + count_at (slice_get t.now.tasks task))) (IsUnfitFrom t.now first) }
{
    let task = &t.parts().tasks.as_slice()[task];
    if task.is_abstract {
        return None;
    }
    let outputs = task.outputs.as_slice();
    for j in 0..outputs.len() {
        let id = first + j;
        if !fits_at(t, id, task.inputs.as_slice(), outputs[j]) {
            return Some(id as u32);
        }
    }
    None
}

// The first function of an output that doesn't fit its place.
fn first_unfit_task(t: &Tables) -> Option<u32>
    ensures { MatchOption result (FitBetween t.now 0 (count_before (length t.now.tasks) t.now.tasks)) (IsFirstUnfit t.now) }
{
    let tasks = t.parts().tasks.as_slice();
    let mut id = 0;
    for k in 0..tasks.len() {
        if let Some(unfit) = first_unfit_output(t, k, id) {
            return Some(unfit);
        }
        id += function_count(&tasks[k]) as usize;
    }
    None
}

// Whether the function of a switch fits its place, which is given.
fn switch_fits(t: &Tables, switch: usize, id: usize) -> bool
    requires switch { switch < length t.now.switches }
    requires id { id ≡ count_before (length t.now.tasks) t.now.tasks + switch }
    ensures fits { result ≡ true → FitsPlace t.now id }
    ensures unfit { result ≡ false → FitsPlace t.now id → ⊥ }
{
    let switch = &t.parts().switches.as_slice()[switch];
    let mut types = [Ty::Int; MAX_ARGUMENTS];
    let count = fill_types(t, switch, &mut types);
    fits_at(t, id, &types[..count], Ty::Bool)
}

// The first function of a switch that doesn't fit its place, where those of outputs do.
fn first_unfit_switch(t: &Tables) -> Option<u32>
    requires { FitBetween t.now 0 (count_before (length t.now.tasks) t.now.tasks) }
    ensures { MatchOption result (FitPlaces t.now) (IsFirstUnfit t.now) }
{
    let parts = t.parts();
    let tasks = parts.tasks.as_slice();
    let first = functions_before(tasks, tasks.len()) as usize;
    for k in 0..parts.switches.as_slice().len() {
        let id = first + k;
        if !switch_fits(t, k, id) {
            return Some(id as u32);
        }
    }
    None
}

/// The first function that isn't verified code of the argument and result types of its place. It takes no memory.
pub fn first_unfit(t: &Tables) -> Option<u32>
    ensures { MatchOption result (FitPlaces t.now) (IsFirstUnfit t.now) }
{
    match first_unfit_task(t) {
        Some(id) => Some(id),
        None => first_unfit_switch(t),
    }
}
