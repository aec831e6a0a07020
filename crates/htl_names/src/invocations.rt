// The list of invocations.
ghost use Rattle.std.specs.Prelude.{◌≡◌, ◌++◌, None, Some, OnOk, IfOk, All, map};
ghost use Rattle.htl_text.specs.Nodes.{tree_of};
ghost use Rattle.htl_names.specs.Flat.{end_item, invoke_item};
ghost use Rattle.htl_names.specs.Order.{invokes_at};
ghost use Rattle.htl_names.specs.Narrow.{IsNarrowEnd, IsNarrowInvoke};

use crate::Done;
use crate::items::size_of;
use crate::key::Space;
use crate::place::ModeHome;
use htl_base::Seq;
use htl_model::{End, Inv};
use htl_text::{EndNode, InvokeNode};
use std::alloc::AllocError;

/// Puts the invocations of a mode behind others, in source order.
pub fn put_invocations(home: &ModeHome<'_>, nodes: &[InvokeNode], into: &mut Vec<Inv>) -> Done
    requires { invokes_at (tree_of home.now.source.tree.now) home.now.at ≡ nodes.now }
    ensures { OnOk result (into.new.items ≡ into.old.items
        ++ map (invoke_item home.now.source.layout.now (tree_of home.now.source.tree.now) home.now.number home.now.at) nodes.now) }
{
    for k in 0..nodes.len() {
        into.push(invocation(home, &nodes[k])?)?;
    }
    Ok(())
}

fn invocation(home: &ModeHome<'_>, node: &InvokeNode) -> Result<Inv, AllocError>
    requires { IsNarrowInvoke node.now }
    ensures { IfOk result (λ i. i ≡ invoke_item home.now.source.layout.now (tree_of home.now.source.tree.now) home.now.number home.now.at node.now) }
{
    let tasks = Space::Tasks.of(home.at.program, home.at.module, 0);
    let reads = ends(home, node.reads.as_slice())?;
    let writes = ends(home, node.writes.as_slice())?;
    Ok(Inv {
        mode: home.number as u16,
        task: (home.module.tasks + home.source.layout.meaning(tasks, node.task.name)) as u16,
        parent: match (home.module.refined, node.parent) {
            (Some(b), Some(id)) => {
                let invokes = Space::Invokes.of(b.program, b.module, b.mode);
                Some((home.parent + home.source.layout.meaning(invokes, id.name)) as u16)
            }
            _ => None,
        },
        reads: Seq::new(reads),
        writes: Seq::new(writes),
    })
}

// Where the inputs of an invocation come from, or its outputs go to.
fn ends(home: &ModeHome<'_>, nodes: &[EndNode]) -> Result<Vec<End>, AllocError>
    requires { All IsNarrowEnd nodes.now }
    ensures { IfOk result (λ v. v.items ≡ map (end_item home.now.source.layout.now (tree_of home.now.source.tree.now) home.now.number home.now.at) nodes.now) }
{
    let found = nodes.iter().map(|node| end(home, node));
    found.collect(home.source.alloc)
}

fn end(home: &ModeHome<'_>, node: &EndNode) -> End
    requires { IsNarrowEnd node.now }
    ensures { result ≡ end_item home.now.source.layout.now (tree_of home.now.source.tree.now) home.now.number home.now.at node.now }
{
    let layout = home.source.layout;
    match node {
        EndNode::Comm { comm, instance } => End::Comm {
            comm: layout.comm(comm) as u16,
            instance: size_of(instance.x),
        },
        EndNode::Port { port } => {
            let ports = Space::Ports.of(home.at.program, home.at.module, home.at.mode);
            let port = (home.port + layout.meaning(ports, port.name)) as u16;
            End::Port { port }
        }
    }
}
