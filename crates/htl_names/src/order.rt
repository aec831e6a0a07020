// The modules and modes of a source in the order of the tables.
ghost use Rattle.std.specs.List.{flat_map};
ghost use Rattle.std.specs.Prelude.{◌≡◌, ◌++◌, OnOk, IfOk};
ghost use Rattle.htl_text.specs.Nodes.{tree_of};
ghost use Rattle.htl_names.specs.Flat.{layout_by};
ghost use Rattle.htl_names.specs.Order.{program_modules, below, order, mode_order};

use crate::Done;
use crate::place::{ModeAt, ModuleAt, modes_at, modules_at};
use crate::programs::refining_program;
use crate::symbols::Symbols;
use crate::tables::Layout;
use htl_text::Tree;
use std::alloc::{AllocError, Global};

// ---- modules

// The levels of a tree of programs are few, so the calls below don't go deep.

/// Puts the modules of a program, if there is one, behind others, each with those below it, at most so many levels down.
#[cycle(below)]
fn put_program(
    tree: &Tree,
    symbols: &Symbols,
    parent: Option<ModeAt>,
    program: Option<usize>,
    steps: usize,
    into: &mut Vec<ModuleAt>,
) -> Done
    ensures { OnOk result (into.new.items ≡ into.old.items ++ flat_map (below steps symbols.now (tree_of tree.now)) (program_modules (tree_of tree.now) parent program)) }
{
    let Some(program) = program else {
        return Ok(());
    };
    let modules = modules_at(tree, program);
    for u in 0..modules.len() {
        let module = ModuleAt {
            program,
            module: u,
            parent,
        };
        put_module(tree, symbols, module, steps, into)?;
    }
    Ok(())
}

/// Puts a module, and in order those below it.
#[cycle(below)]
fn put_module(
    tree: &Tree,
    symbols: &Symbols,
    module: ModuleAt,
    steps: usize,
    into: &mut Vec<ModuleAt>,
) -> Done
    ensures { OnOk result (into.new.items ≡ into.old.items ++ below steps symbols.now (tree_of tree.now) «module») }
{
    into.push(module)?;
    if steps == 0 {
        return Ok(());
    }
    let modes = modes_at(tree, module.program, module.module);
    for k in 0..modes.len() {
        let place = ModeAt {
            program: module.program,
            module: module.module,
            mode: k,
        };
        let program = refining_program(&modes[k], symbols);
        put_program(tree, symbols, Some(place), program, steps - 1, into)?;
    }
    Ok(())
}

// ---- modes

/// Puts the modes of modules behind others, by module.
fn put_modes(tree: &Tree, modules: &[ModuleAt], into: &mut Vec<ModeAt>) -> Done
    ensures { OnOk result (into.new.items ≡ into.old.items ++ mode_order (tree_of tree.now) modules.now) }
{
    for k in 0..modules.len() {
        let at = modules[k];
        let modes = modes_at(tree, at.program, at.module).len();
        into.extend((0..modes).map(|mode| ModeAt {
            program: at.program,
            module: at.module,
            mode,
        }))?;
    }
    Ok(())
}

// ---- both

/// The symbols of a source with its modules and modes in the order of the tables: a root module, then for each of its modes
/// in order the modules of its refinement with theirs, then the next root module.
pub(crate) fn layout_of(alloc: Global, tree: &Tree, symbols: Symbols) -> Result<Layout, AllocError>
    ensures { IfOk result (λ layout. layout ≡ layout_by symbols (order symbols (tree_of tree.now)) (tree_of tree.now)) }
{
    let mut modules = Vec::new(alloc);
    let steps = tree.programs.as_slice().len();
    put_program(tree, &symbols, None, Some(0), steps, &mut modules)?;
    let mut modes = Vec::new(alloc);
    put_modes(tree, &modules, &mut modes)?;
    Ok(Layout {
        symbols,
        modules,
        modes,
    })
}
