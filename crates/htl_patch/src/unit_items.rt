// The modules of the patched tables, their modes and tasks: those of both programs, with their new numbers.
ghost use Rattle.std.specs.Prelude.{◌≡◌, ◌<◌, ◌≤◌, ◌+◌, All, IfSome, length, map, get_or, option_map, IfOk};
ghost use Rattle.htl_patch.specs.Patched.{new_numbers};
ghost use Rattle.htl_patch.specs.Placed.{ArePlaces, placed_mode, placed_module, placed_task};
ghost use Rattle.htl_patch.specs.Renumbered.{mode_at, module_at, task_at, new_mode as new_mode_of, new_module as new_module_of, new_task as new_task_of};
ghost use Rattle.htl_patch.specs.Combined.{combined, refined_mode};

use crate::lists::{modes, modules, tasks};
use crate::numbers::NewNumbers;
use crate::replacement::{Replacement, refined};
use htl_base::Seq;
use htl_model::{Mode, Module, Task};
use std::alloc::{AllocError, Global};

// A mode with the new number of its module.
fn copied_mode(x: &Mode, units: &[u16], before: usize) -> Mode
    requires { before + x.now.«module» < length units.now }
    ensures { result ≡ placed_mode units.now before x.now }
{
    Mode {
        name: x.name,
        module: units[before + x.module as usize],
        period: x.period,
    }
}

fn new_mode(g: &Replacement<'_>, p: &NewNumbers, k: usize) -> Mode
    requires places { ArePlaces (combined g.now) (new_numbers g.now) p.now }
    requires within { k < length (combined g.now).modes }
    ensures { result ≡ new_mode_of (new_numbers g.now) (mode_at (combined g.now) k) }
{
    g.keeps_ranges();
    let before = modules(g.host).len();
    let front = modes(g.host);
    if k < front.len() {
        return copied_mode(&front[k], p.units.as_slice(), 0);
    }
    let back = modes(g.donor);
    copied_mode(&back[k - front.len()], p.units.as_slice(), before)
}

/// The modes with these old numbers, with their new numbers.
pub(crate) fn new_modes(
    alloc: Global,
    g: &Replacement<'_>,
    p: &NewNumbers,
    keys: &[u16],
) -> Result<Vec<Mode>, AllocError>
    requires places { ArePlaces (combined g.now) (new_numbers g.now) p.now }
    requires within { All (λ x. x < length (combined g.now).modes) keys.now }
    ensures { IfOk result (λ v. v.items ≡ map (λ x. new_mode_of (new_numbers g.now) (mode_at (combined g.now) x)) keys.now) }
{
    let mut found = Vec::new(alloc);
    for k in 0..keys.len() {
        found.push(new_mode(g, p, keys[k] as usize))?;
    }
    Ok(found)
}

/// The new number of what may have an old one.
pub(crate) fn new_number(old: Option<u16>, places: &[u16]) -> Option<u16>
    requires { IfSome old (λ k. k < length places.now) }
    ensures { result ≡ option_map (λ k. get_or places.now k 0) old }
{
    match old {
        Some(k) => Some(places[k as usize]),
        None => None,
    }
}

// A module with the new numbers of its first mode, and of the one that it refines.
fn copied_module(x: &Module, parent: Option<u16>, modes: &[u16], before: usize) -> Module
    requires start { before + x.now.start < length modes.now }
    requires parent { IfSome parent (λ k. k < length modes.now) }
    ensures { result ≡ placed_module modes.now before parent x.now }
{
    Module {
        name: x.name,
        parent: new_number(parent, modes),
        start: modes[before + x.start as usize],
    }
}

// The mode that a module of the donor refines, by the mode that it refines there.
fn refined_parent(g: &Replacement<'_>, parent: Option<u16>) -> Option<u16>
    requires patched_mode { g.now.patched_mode < length g.now.host.modes }
    requires parent { IfSome parent (λ k. k < length g.now.donor.modes) }
    ensures { result ≡ option_map (refined_mode g.now) parent }
{
    g.keeps_ranges();
    match parent {
        Some(k) => Some(refined(g, k) as u16),
        None => None,
    }
}

fn new_module(g: &Replacement<'_>, p: &NewNumbers, k: usize) -> Module
    requires places { ArePlaces (combined g.now) (new_numbers g.now) p.now }
    requires within { k < length (combined g.now).modules }
    requires patched_mode { g.now.patched_mode < length g.now.host.modes }
    ensures { result ≡ new_module_of (new_numbers g.now) (module_at (combined g.now) k) }
{
    g.keeps_ranges();
    let before = modes(g.host).len();
    let front = modules(g.host);
    if k < front.len() {
        let x = &front[k];
        return copied_module(x, x.parent, p.modes.as_slice(), 0);
    }
    let back = modules(g.donor);
    let x = &back[k - front.len()];
    copied_module(x, refined_parent(g, x.parent), p.modes.as_slice(), before)
}

/// The modules with these old numbers, with their new numbers.
pub(crate) fn new_modules(
    alloc: Global,
    g: &Replacement<'_>,
    p: &NewNumbers,
    keys: &[u16],
) -> Result<Vec<Module>, AllocError>
    requires places { ArePlaces (combined g.now) (new_numbers g.now) p.now }
    requires patched_mode { g.now.patched_mode < length g.now.host.modes }
    requires within { All (λ x. x < length (combined g.now).modules) keys.now }
    ensures { IfOk result (λ v. v.items ≡ map (λ x. new_module_of (new_numbers g.now) (module_at (combined g.now) x)) keys.now) }
{
    let mut found = Vec::new(alloc);
    for k in 0..keys.len() {
        found.push(new_module(g, p, keys[k] as usize))?;
    }
    Ok(found)
}

// A task with the new number of its module.
fn copied_task(alloc: Global, x: &Task, units: &[u16], before: usize) -> Result<Task, AllocError>
    requires { before + x.now.«module» < length units.now }
    ensures { IfOk result (λ y. y ≡ placed_task units.now before x.now) }
{
    let inputs = x.inputs.as_slice().to_vec(alloc)?;
    let outputs = x.outputs.as_slice().to_vec(alloc)?;
    Ok(Task {
        name: x.name,
        module: units[before + x.module as usize],
        is_abstract: x.is_abstract,
        worst: x.worst,
        inputs: Seq::new(inputs),
        outputs: Seq::new(outputs),
    })
}

fn new_task(
    alloc: Global,
    g: &Replacement<'_>,
    p: &NewNumbers,
    k: usize,
) -> Result<Task, AllocError>
    requires places { ArePlaces (combined g.now) (new_numbers g.now) p.now }
    requires within { k < length (combined g.now).tasks }
    ensures { IfOk result (λ y. y ≡ new_task_of (new_numbers g.now) (task_at (combined g.now) k)) }
{
    g.keeps_ranges();
    let before = modules(g.host).len();
    let front = tasks(g.host);
    if k < front.len() {
        return copied_task(alloc, &front[k], p.units.as_slice(), 0);
    }
    let back = tasks(g.donor);
    copied_task(alloc, &back[k - front.len()], p.units.as_slice(), before)
}

/// The tasks with these old numbers, with their new numbers.
pub(crate) fn new_tasks(
    alloc: Global,
    g: &Replacement<'_>,
    p: &NewNumbers,
    keys: &[u16],
) -> Result<Vec<Task>, AllocError>
    requires places { ArePlaces (combined g.now) (new_numbers g.now) p.now }
    requires within { All (λ x. x < length (combined g.now).tasks) keys.now }
    ensures { IfOk result (λ v. v.items ≡ map (λ x. new_task_of (new_numbers g.now) (task_at (combined g.now) x)) keys.now) }
{
    let mut found = Vec::new(alloc);
    for k in 0..keys.len() {
        found.push(new_task(alloc, g, p, keys[k] as usize)?)?;
    }
    Ok(found)
}
