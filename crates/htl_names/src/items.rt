// The lists of communicators, modes, ports and tasks.
ghost use Rattle.std.specs.Prelude.{◌≡◌, ◌≤◌, ◌++◌, All, IfOk, OnOk, map};
ghost use Rattle.htl_model.specs.Tables.{fun_of};
ghost use Rattle.htl_text.specs.Bounds.{out_params};
ghost use Rattle.htl_text.specs.Nodes.{tree_of, mode_of, task_of, outs_of};
ghost use Rattle.htl_text.specs.declared.tree.ModeNode.{ModeNode as AModeNode};
ghost use Rattle.htl_text.specs.declared.tree.TaskNode.{TaskNode as ATaskNode};
ghost use Rattle.htl_names.specs.Flat.{size_of, value_of, comm_items, mode_item, port_item, types_of, task_item, task_functions};
ghost use Rattle.htl_names.specs.Lists.{flat_map_at};

use crate::Done;
use crate::functions::put_outputs;
use crate::place::ModuleAt;
use crate::tables::Source;
use htl_base::{Seq, Ty, Value};
use htl_model::{Comm, Function, Mode, Port, Task};
use htl_text::{ConstNode, ModeNode, OutNodes, ParamNode, TaskNode};
use std::alloc::{AllocError, Global};

// ---- literals

/// A period, worst case or instance, which is at most 1,000,000.
pub fn size_of(x: Value) -> u32
    requires { size_of x ≤ 1000000 }
    ensures { result ≡ size_of x }
{
    if x < 0 { 0 } else { x as u32 }
}

/// The value of a constant; 0 or 1 for a bool.
pub fn value_of(constant: ConstNode) -> Value
    ensures { result ≡ value_of constant }
{
    match constant {
        ConstNode::Int { minus, x, .. } => if minus { x.wrapping_neg() } else { x },
        ConstNode::Bool { x, .. } => Value::from(x),
    }
}

// ---- communicators, modes and ports

/// Puts the communicators behind others, in source order.
pub fn put_comms(source: &Source<'_>, into: &mut Vec<Comm>) -> Done
    ensures { OnOk result (into.new.items ≡ into.old.items ++ comm_items (tree_of source.now.tree.now)) }
{
    let programs = source.tree.programs.as_slice();
    for k in 0..programs.len() {
        let nodes = programs[k].comms.as_slice();
        let comms = nodes.iter().map(|node| Comm {
            name: node.name.name,
            ty: node.ty,
            sensor: node.sensor,
            period: size_of(node.period.x),
            init: value_of(node.init),
        });
        into.extend(comms)?;
    }
    Ok(())
}

/// Puts the modes of the module with this number behind others.
pub fn put_modes(number: usize, nodes: &[ModeNode], into: &mut Vec<Mode>) -> Done
    requires few { number ≤ 64 }
    requires periods { All (λ (x : AModeNode). size_of x.period.x ≤ 1000000) nodes.now }
    ensures { OnOk result (into.new.items ≡ into.old.items ++ map (mode_item number) (map mode_of nodes.now)) }
{
    let modes = nodes.iter().map(|node| Mode {
        name: node.name.name,
        module: number as u16,
        period: size_of(node.period.x),
    });
    into.extend(modes)
}

/// Puts the ports of the mode with this number behind others.
pub fn put_ports(number: usize, nodes: &[ParamNode], into: &mut Vec<Port>) -> Done
    requires { number ≤ 256 }
    ensures { OnOk result (into.new.items ≡ into.old.items ++ map (port_item number) nodes.now) }
{
    let ports = nodes.iter().map(|node| Port {
        name: node.name.name,
        mode: number as u16,
        ty: node.ty,
    });
    into.extend(ports)
}

// ---- tasks

/// Puts the tasks of a module behind others, and the functions of their outputs.
pub fn put_tasks(
    source: &Source<'_>,
    number: usize,
    at: ModuleAt,
    nodes: &[TaskNode],
    into: &mut Vec<Task>,
    functions: &mut Vec<Function>,
) -> Done
    requires few { number ≤ 64 }
    requires worsts { All (λ (t : ATaskNode). size_of t.worst.x ≤ 1000000) nodes.now }
    ensures items { OnOk result (into.new.items ≡ into.old.items ++ map (task_item number) (map task_of nodes.now)) }
    ensures functions { OnOk result (map fun_of functions.new.items ≡ map fun_of functions.old.items
        ++ flat_map_at (task_functions source.now.layout.now at.program at.«module») 0 (map task_of nodes.now)) }
{
    for k in 0..nodes.len() {
        let node = &nodes[k];
        put_outputs(source, at, k, &node.outputs, functions)?;
        into.push(task(source.alloc, node, number as u16)?)?;
    }
    Ok(())
}

fn task(alloc: Global, node: &TaskNode, module: u16) -> Result<Task, AllocError>
    requires { size_of node.now.worst.x ≤ 1000000 }
    ensures { IfOk result (λ t. t ≡ task_item «module» (task_of node.now)) }
{
    let inputs = types_of(alloc, node.inputs.as_slice())?;
    let outputs = output_types(alloc, &node.outputs)?;
    Ok(Task {
        name: node.name.name,
        module,
        is_abstract: matches!(node.outputs, OutNodes::Abstract { .. }),
        worst: size_of(node.worst.x),
        inputs: Seq::new(inputs),
        outputs: Seq::new(outputs),
    })
}

fn output_types(alloc: Global, outputs: &OutNodes) -> Result<Vec<Ty>, AllocError>
    ensures { IfOk result (λ v. v.items ≡ types_of (out_params (outs_of outputs.now))) }
{
    let outs = match outputs {
        OutNodes::Concrete { outs } => outs.as_slice(),
        OutNodes::Abstract { outs } => return types_of(alloc, outs.as_slice()),
    };
    outs.iter().map(|out| out.param.ty).collect(alloc)
}

fn types_of(alloc: Global, params: &[ParamNode]) -> Result<Vec<Ty>, AllocError>
    ensures { IfOk result (λ v. v.items ≡ types_of params.now) }
{
    params.iter().map(|param| param.ty).collect(alloc)
}
