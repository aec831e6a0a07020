// The flat tables of a tree by a layout.
ghost use Rattle.std.specs.Prelude.{◌≡◌, ◌≤◌, ◌++◌, IfOk, OnOk, length, map};
ghost use Rattle.std.specs.List.{flat_map};
ghost use Rattle.htl_model.specs.Tables.{fun_of, tables_of};
ghost use Rattle.htl_text.specs.Nodes.{tree_of};
ghost use Rattle.htl_names.specs.Flat.{meaning, modes_before, module_functions, module_mode_items, module_items_at, module_task_items, mode_functions, ports_before, mode_port_items, mode_invoke_items, mode_switch_items, mode_items, module_items, task_items, port_items, invoke_items, switch_items, tables_by};
ghost use Rattle.htl_names.specs.Keys.{comm_key, key_in};
ghost use Rattle.htl_names.specs.Narrow.{IsNarrow, IsNarrowParent};

use crate::Done;
use crate::invocations::put_invocations;
use crate::items::{put_comms, put_modes, put_ports, put_tasks};
use crate::key::{Scope, Space};
use crate::place::{
    ModeAt, ModeHome, ModuleAt, invokes_before, mode_at, mode_number, module_at, module_before,
};
use crate::switches::put_switches;
use crate::symbols::Symbols;
use htl_base::{Name, Seq};
use htl_model::{Function, Inv, Mode, Module, Parts, Port, Switch, Task};
use htl_text::{Id, Tree};
use std::alloc::{AllocError, Global};
use std::marker::Model;

// ---- the order of the tables

/// What the flat tables are made by: the symbols, and the modules and modes by their numbers in the tables.
#[derive(Drop)]
pub struct Layout {
    pub symbols: Symbols,
    pub modules: Vec<ModuleAt>,
    pub modes: Vec<ModeAt>,
}

impl Model for Layout {
    ghost use Rattle.htl_names.specs.Flat.{Layout as Plain};

    ghost Value = { Plain };

    ghost view = { λ l. record { symbols = l.symbols; modules = l.modules.items; modes = l.modes.items } };
}

impl Layout {
    /// The place of the item that a name means in its list; 0 for a name that means nothing.
    pub fn meaning(&self, scope: Scope, name: Name) -> usize
        ensures { result ≡ meaning self.now (key_in scope name) }
    {
        self.symbols.get(&scope.key(name)).unwrap_or(0)
    }

    /// The number of the communicator that a name means.
    pub fn comm(&self, id: &Id) -> usize
        ensures { result ≡ meaning self.now (comm_key id.now.name) }
    {
        self.meaning(Space::Comms.of(0, 0, 0), id.name)
    }
}

// ---- what the tables are made by

/// A source with its layout, by which all numbers of the tables fit their fields, and the memory for the tables.
#[derive(Clone, Copy)]
pub struct Source<'a> {
    pub alloc: Global,
    pub tree: &'a Tree,
    pub layout: &'a Layout,
    ghost narrow: { IsNarrow layout.now (tree_of tree.now) },
}

// ---- the lists by module

/// The lists that have items for each module, as they are made; the functions are those of outputs.
#[derive(Drop)]
struct ModuleLists {
    modes: Vec<Mode>,
    modules: Vec<Module>,
    tasks: Vec<Task>,
    functions: Vec<Function>,
}

fn by_module(source: &Source<'_>) -> Result<ModuleLists, AllocError>
    ensures modes { IfOk result (λ made. made.modes.items ≡ mode_items source.now.layout.now (tree_of source.now.tree.now)) }
    ensures modules { IfOk result (λ made. made.modules.items ≡ module_items source.now.layout.now (tree_of source.now.tree.now)) }
    ensures tasks { IfOk result (λ made. made.tasks.items ≡ task_items source.now.layout.now (tree_of source.now.tree.now)) }
    ensures functions { IfOk result (λ made. map fun_of made.functions.items ≡ flat_map (module_functions source.now.layout.now (tree_of source.now.tree.now)) source.now.layout.now.modules) }
{
    let mut made = ModuleLists {
        modes: Vec::new(source.alloc),
        modules: Vec::new(source.alloc),
        tasks: Vec::new(source.alloc),
        functions: Vec::new(source.alloc),
    };
    let layout = source.layout;
    let modules = layout.modules.as_slice();
    for k in 0..modules.len() {
        put_module(source, k, modules[k], &mut made)?;
    }
    Ok(made)
}

// Puts the items of a module behind those of the modules before it.
fn put_module(source: &Source<'_>, number: usize, at: ModuleAt, into: &mut ModuleLists) -> Done
    requires few { number ≤ 64 }
    requires narrow { IsNarrowParent at.parent }
    requires first { length into.old.modes.items ≡ modes_before source.now.layout.now (tree_of source.now.tree.now) number }
    ensures modes { OnOk result (into.new.modes.items ≡ into.old.modes.items ++ module_mode_items (tree_of source.now.tree.now) number at) }
    ensures modules { OnOk result (into.new.modules.items ≡ into.old.modules.items ++ module_items_at source.now.layout.now (tree_of source.now.tree.now) number at) }
    ensures tasks { OnOk result (into.new.tasks.items ≡ into.old.tasks.items ++ module_task_items (tree_of source.now.tree.now) number at) }
    ensures functions { OnOk result (map fun_of into.new.functions.items ≡ map fun_of into.old.functions.items ++ module_functions source.now.layout.now (tree_of source.now.tree.now) at) }
{
    let Some(node) = module_at(source.tree, at.program, at.module) else {
        return Ok(());
    };
    let names = Space::Modes.of(at.program, at.module, 0);
    let start = (into.modes.len() + source.layout.meaning(names, node.start.name)) as u16;
    let parent = match at.parent {
        Some(mode) => Some(mode_number(source, mode) as u16),
        None => None,
    };
    into.modules.push(Module {
        name: node.name.name,
        parent,
        start,
    })?;
    put_modes(number, node.modes.as_slice(), &mut into.modes)?;
    put_tasks(
        source,
        number,
        at,
        node.tasks.as_slice(),
        &mut into.tasks,
        &mut into.functions,
    )
}

// ---- the lists by mode

/// The lists that have items for each mode, as they are made; the functions of switches stand behind those of outputs.
#[derive(Drop)]
struct ModeLists {
    ports: Vec<Port>,
    invs: Vec<Inv>,
    switches: Vec<Switch>,
    functions: Vec<Function>,
}

fn by_mode(source: &Source<'_>, functions: Vec<Function>) -> Result<ModeLists, AllocError>
    ensures ports { IfOk result (λ made. made.ports.items ≡ port_items source.now.layout.now (tree_of source.now.tree.now)) }
    ensures invs { IfOk result (λ made. made.invs.items ≡ invoke_items source.now.layout.now (tree_of source.now.tree.now)) }
    ensures switches { IfOk result (λ made. made.switches.items ≡ switch_items source.now.layout.now (tree_of source.now.tree.now)) }
    ensures functions { IfOk result (λ made. map fun_of made.functions.items ≡ map fun_of functions.items ++ flat_map (mode_functions source.now.layout.now (tree_of source.now.tree.now)) source.now.layout.now.modes) }
{
    let mut made = ModeLists {
        ports: Vec::new(source.alloc),
        invs: Vec::new(source.alloc),
        switches: Vec::new(source.alloc),
        functions,
    };
    let layout = source.layout;
    let modes = layout.modes.as_slice();
    for k in 0..modes.len() {
        put_mode(source, k, modes[k], &mut made)?;
    }
    Ok(made)
}

// Puts the items of a mode behind those of the modes before it.
fn put_mode(source: &Source<'_>, number: usize, at: ModeAt, into: &mut ModeLists) -> Done
    requires few { number ≤ 256 }
    requires first { length into.old.ports.items ≡ ports_before source.now.layout.now (tree_of source.now.tree.now) number }
    ensures ports { OnOk result (into.new.ports.items ≡ into.old.ports.items ++ mode_port_items (tree_of source.now.tree.now) number at) }
    ensures invs { OnOk result (into.new.invs.items ≡ into.old.invs.items ++ mode_invoke_items source.now.layout.now (tree_of source.now.tree.now) number at) }
    ensures switches { OnOk result (into.new.switches.items ≡ into.old.switches.items ++ mode_switch_items source.now.layout.now (tree_of source.now.tree.now) number at) }
    ensures functions { OnOk result (map fun_of into.new.functions.items ≡ map fun_of into.old.functions.items ++ mode_functions source.now.layout.now (tree_of source.now.tree.now) at) }
{
    let Some(node) = mode_at(source.tree, at) else {
        return Ok(());
    };
    let module = module_before(source, at.program, at.module);
    let parent = match module.refined {
        Some(at) => invokes_before(source, mode_number(source, at)),
        None => 0,
    };
    let home = ModeHome {
        source: *source,
        number,
        at,
        port: into.ports.len(),
        module,
        parent,
    };
    put_ports(number, node.ports.as_slice(), &mut into.ports)?;
    put_invocations(&home, node.invokes.as_slice(), &mut into.invs)?;
    let switches = node.switches.as_slice();
    put_switches(&home, switches, &mut into.switches, &mut into.functions)
}

// ---- the tables

/// The lists of the tables.
pub(crate) fn parts_of(alloc: Global, tree: &Tree, layout: &Layout) -> Result<Parts, AllocError>
    requires { IsNarrow layout.now (tree_of tree.now) }
    ensures { IfOk result (λ parts. tables_of parts ≡ tables_by layout.now (tree_of tree.now)) }
{
    let source = Source {
        alloc,
        tree,
        layout,
    };
    let mut comms = Vec::new(alloc);
    put_comms(&source, &mut comms)?;
    let of_modules = by_module(&source)?;
    let of_modes = by_mode(&source, of_modules.functions)?;
    Ok(Parts {
        comms: Seq::new(comms),
        modes: Seq::new(of_modules.modes),
        modules: Seq::new(of_modules.modules),
        ports: Seq::new(of_modes.ports),
        tasks: Seq::new(of_modules.tasks),
        invs: Seq::new(of_modes.invs),
        switches: Seq::new(of_modes.switches),
        functions: Seq::new(of_modes.functions),
    })
}
