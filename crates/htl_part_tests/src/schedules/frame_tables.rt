// Tables that are made by hand, with two root periods, so that what they keep is proved of these lists.
ghost use Rattle.std.specs.Prelude.{◌≡◌, ◌≤◌, IfSome};
ghost use Rattle.htl_model.specs.FunctionCode.{AreCode};
ghost use Rattle.htl_model.specs.Ranges.{IsSpan};
ghost use Rattle.htl_model.specs.Tables.{tables_of};
ghost use Rattle.htl_edf.specs.FrameSamples.{
  frame_comm,
  frame_mode,
  frame_module,
  frame_task,
  frame_inv,
  frame_comms,
  frame_modes,
  frame_modules,
  frame_tasks,
  frame_invs,
  frame_sample_of,
  frame_sample,
  IsFramed,
};

use htl_base::{Name, Seq, Ty};
use htl_model::{Comm, End, Inv, Mode, Module, Parts, Tables, Task};
use std::alloc::Global;

fn comm(name: Name) -> Comm
    ensures { result ≡ frame_comm name }
{
    Comm {
        name,
        ty: Ty::Int,
        sensor: false,
        period: 10,
        init: 0,
    }
}

fn mode(name: Name, owner: u16, period: u32) -> Mode
    ensures { result ≡ frame_mode name owner period }
{
    Mode {
        name,
        module: owner,
        period,
    }
}

fn module(name: Name, start: u16) -> Module
    ensures { result ≡ frame_module name start }
{
    Module {
        name,
        parent: None,
        start,
    }
}

// An abstract task of one input and one output.
fn task(alloc: Global, name: Name, owner: u16, worst: u32) -> Option<Task>
    ensures { IfSome result (λ x. x ≡ frame_task name owner worst) }
{
    let inputs = vec![in alloc; Ty::Int].ok()?;
    let outputs = vec![in alloc; Ty::Int].ok()?;
    Some(Task {
        name,
        module: owner,
        is_abstract: true,
        worst,
        inputs: Seq::new(inputs),
        outputs: Seq::new(outputs),
    })
}

// The invocation in a mode of the task of the same number: it reads the first instance of the first communicator.
fn inv(alloc: Global, mode: u16, comm: u16, instance: u32) -> Option<Inv>
    ensures { IfSome result (λ x. x ≡ frame_inv mode comm instance) }
{
    let reads = vec![in alloc;
        End::Comm {
            comm: 0,
            instance: 0
        },
    ]
    .ok()?;
    let writes = vec![in alloc; End::Comm { comm, instance }].ok()?;
    Some(Inv {
        mode,
        task: mode,
        parent: None,
        reads: Seq::new(reads),
        writes: Seq::new(writes),
    })
}

fn comms(alloc: Global) -> Option<Vec<Comm>>
    ensures { IfSome result (λ v. v.items ≡ frame_comms) }
{
    let u = Name::new(b"u")?;
    let w = Name::new(b"w")?;
    vec![in alloc; comm(u), comm(w)].ok()
}

fn modes(alloc: Global) -> Option<Vec<Mode>>
    ensures { IfSome result (λ v. v.items ≡ frame_modes) }
{
    let m = Name::new(b"m")?;
    vec![in alloc; mode(m, 0, 10), mode(m, 1, 20)].ok()
}

fn modules(alloc: Global) -> Option<Vec<Module>>
    ensures { IfSome result (λ v. v.items ≡ frame_modules) }
{
    let f = Name::new(b"F")?;
    let g = Name::new(b"G")?;
    vec![in alloc; module(f, 0), module(g, 1)].ok()
}

fn tasks(alloc: Global, worst: u32) -> Option<Vec<Task>>
    ensures { IfSome result (λ v. v.items ≡ frame_tasks worst) }
{
    let a = task(alloc, Name::new(b"a")?, 0, 3)?;
    let b = task(alloc, Name::new(b"b")?, 1, worst)?;
    vec![in alloc; a, b].ok()
}

fn invs(alloc: Global) -> Option<Vec<Inv>>
    ensures { IfSome result (λ v. v.items ≡ frame_invs) }
{
    let first = inv(alloc, 0, 0, 1)?;
    let second = inv(alloc, 1, 1, 2)?;
    vec![in alloc; first, second].ok()
}

// These lists, without ports, switches and functions.
fn parts_of(
    alloc: Global,
    comms: Vec<Comm>,
    modes: Vec<Mode>,
    modules: Vec<Module>,
    tasks: Vec<Task>,
    invs: Vec<Inv>,
) -> Parts
    ensures { tables_of result ≡ frame_sample_of comms.items modes.items modules.items tasks.items invs.items }
{
    Parts {
        comms: Seq::new(comms),
        modes: Seq::new(modes),
        modules: Seq::new(modules),
        ports: Seq::new(Vec::new(alloc)),
        tasks: Seq::new(tasks),
        invs: Seq::new(invs),
        switches: Seq::new(Vec::new(alloc)),
        functions: Seq::new(Vec::new(alloc)),
    }
}

fn parts(alloc: Global, worst: u32) -> Option<Parts>
    ensures { IfSome result (λ p. tables_of p ≡ frame_sample worst) }
{
    let comms = comms(alloc)?;
    let modes = modes(alloc)?;
    let modules = modules(alloc)?;
    let tasks = tasks(alloc, worst)?;
    let invs = invs(alloc)?;
    Some(parts_of(alloc, comms, modes, modules, tasks, invs))
}

/// The mode of period 10 invokes a task of worst case 3, that of period 20 one of this worst case.
pub fn tables(alloc: Global, worst: u32) -> Option<Tables>
    requires span { IsSpan worst }
    requires small { worst ≤ 20 }
    ensures framed { IfSome result IsFramed }
    ensures code { IfSome result AreCode }
{
    match parts(alloc, worst) {
        Some(parts) => Some(Tables::new(parts)),
        None => None,
    }
}
