// The list of switches, with their functions.
ghost use Rattle.std.specs.Prelude.{◌≡◌, ◌++◌, OnOk, IfOk, map};
ghost use Rattle.htl_model.specs.Tables.{fun_of};
ghost use Rattle.htl_text.specs.Nodes.{tree_of, switch_of};
ghost use Rattle.htl_names.specs.Keys.{comm_key};
ghost use Rattle.htl_names.specs.Lists.{with_new};
ghost use Rattle.htl_names.specs.Flat.{comms_in, flat_switch_function, meaning, switch_item};

use crate::Done;
use crate::functions::{Arguments, formula};
use crate::key::Space;
use crate::place::ModeHome;
use crate::tables::Source;
use htl_base::Seq;
use htl_model::{Function, Switch};
use htl_text::{Expression, Id, Node, SwitchNode};
use std::alloc::AllocError;

/// Puts the switches of a mode behind others, in source order; and their functions, in the same order.
pub fn put_switches(
    home: &ModeHome<'_>,
    nodes: &[SwitchNode],
    into: &mut Vec<Switch>,
    functions: &mut Vec<Function>,
) -> Done
    ensures items { OnOk result (into.new.items ≡ into.old.items
        ++ map (switch_item home.now.source.layout.now (tree_of home.now.source.tree.now) home.now.number home.now.at) (map switch_of nodes.now)) }
    ensures functions { OnOk result (map fun_of functions.new.items ≡ map fun_of functions.old.items
        ++ map (flat_switch_function home.now.source.layout.now) (map switch_of nodes.now)) }
{
    let source = &home.source;
    let modes = Space::Modes.of(home.at.program, home.at.module, 0);
    for k in 0..nodes.len() {
        let node = &nodes[k];
        let comms = comms_in(source, &node.cond)?;
        let reads = Arguments::Reads(comms.as_slice());
        let e = formula(source, &reads, &node.cond.whole())?;
        let first = node.first;
        functions.push(Function::Expr { first, e })?;
        into.push(Switch {
            mode: home.number as u16,
            target: (home.module.modes + source.layout.meaning(modes, node.target.name)) as u16,
            reads: Seq::new(comms),
        })?;
    }
    Ok(())
}

/// The communicators of a condition, each once, in the order of their first occurrence.
fn comms_in(source: &Source<'_>, e: &Expression) -> Result<Vec<u16>, AllocError>
    ensures { IfOk result (λ v. v.items ≡ comms_in source.now.layout.now e.now) }
{
    let mut comms = Vec::new(source.alloc);
    let nodes = e.nodes();
    for k in 0..nodes.len() {
        if let Node::Named { id } = &nodes[k] {
            put_comm(source, id, &mut comms)?;
        }
    }
    Ok(comms)
}

fn put_comm(source: &Source<'_>, id: &Id, comms: &mut Vec<u16>) -> Done
    ensures { OnOk result (comms.new.items ≡ with_new comms.old.items (meaning source.now.layout.now (comm_key id.now.name))) }
{
    let comm = source.layout.comm(id) as u16;
    if !comms.contains(&comm) {
        comms.push(comm)?;
    }
    Ok(())
}
