// Places in the tree of a source, what stands there, and the numbers of modules and modes in the tables.
ghost use Rattle.std.specs.Prelude.{◌≡◌, map, MatchOption, None, Some, ◌≤◌};
ghost use Rattle.htl_text.specs.Nodes.{tree_of, module_of, mode_of};
ghost use Rattle.htl_names.specs.Flat.{module_number, modes_before, tasks_before, ports_before, invokes_before, mode_number, refined_mode, first_parent};
ghost use Rattle.htl_names.specs.Narrow.{IsNarrowParent};
ghost use Rattle.htl_names.specs.Order.{modules_at, module_at, modes_at, mode_at};

use crate::tables::Source;
use htl_text::{ModeNode, ModuleNode, Tree};

// ---- places

/// A mode: its program, its module in the program, and its place in the module, each counted from 0.
#[derive(Clone, Copy)]
pub struct ModeAt {
    pub program: usize,
    pub module: usize,
    pub mode: usize,
}

/// A module: its program, its place in the program, and the mode that its program refines; None in the root program.
#[derive(Clone, Copy)]
pub struct ModuleAt {
    pub program: usize,
    pub module: usize,
    pub parent: Option<ModeAt>,
}

// ---- what stands at a place

/// The modules of a program.
pub fn modules_at(tree: &Tree, program: usize) -> &[ModuleNode]
    ensures { map module_of result.now ≡ modules_at (tree_of tree.now) program }
{
    let node = tree.programs.as_slice().get(program);
    node.map_or(&[], |node| node.modules.as_slice())
}

/// A module.
pub fn module_at(tree: &Tree, program: usize, module: usize) -> Option<&ModuleNode>
    ensures { MatchOption result (module_at (tree_of tree.now) program «module» ≡ None)
        (λ node. module_at (tree_of tree.now) program «module» ≡ Some (module_of node.now)) }
{
    modules_at(tree, program).get(module)
}

/// The modes of a module.
pub fn modes_at(tree: &Tree, program: usize, module: usize) -> &[ModeNode]
    ensures { map mode_of result.now ≡ modes_at (tree_of tree.now) program «module» }
{
    let node = module_at(tree, program, module);
    node.map_or(&[], |node| node.modes.as_slice())
}

/// A mode.
pub fn mode_at(tree: &Tree, at: ModeAt) -> Option<&ModeNode>
    ensures { MatchOption result (mode_at (tree_of tree.now) at ≡ None)
        (λ node. mode_at (tree_of tree.now) at ≡ Some (mode_of node.now)) }
{
    modes_at(tree, at.program, at.module).get(at.mode)
}

// ---- numbers in the tables

/// How many modes and tasks stand before those of a module, and the mode that its program refines.
#[derive(Clone, Copy)]
pub struct Before {
    pub modes: usize,
    pub tasks: usize,
    pub refined: Option<ModeAt>,
}

/// What stands before a module, by its place, and what it refines; all there is where it stands nowhere.
pub fn module_before(source: &Source<'_>, program: usize, module: usize) -> Before
    ensures modes { result.modes ≡ modes_before source.now.layout.now (tree_of source.now.tree.now) (module_number source.now.layout.now program «module») }
    ensures tasks { result.tasks ≡ tasks_before source.now.layout.now (tree_of source.now.tree.now) (module_number source.now.layout.now program «module») }
    ensures refined { result.refined ≡ refined_mode source.now.layout.now program «module» }
    ensures narrow { IsNarrowParent result.refined }
{
    let mut before = Before {
        modes: 0,
        tasks: 0,
        refined: None,
    };
    let layout = source.layout;
    let modules = layout.modules.as_slice();
    for k in 0..modules.len() {
        let at = modules[k];
        if at.program == program && at.module == module {
            before.refined = at.parent;
            return before;
        }
        if let Some(node) = module_at(source.tree, at.program, at.module) {
            before.modes += node.modes.as_slice().len();
            before.tasks += node.tasks.as_slice().len();
        }
    }
    before
}

/// How many invocations the modes below a number have.
pub fn invokes_before(source: &Source<'_>, mode: usize) -> usize
    ensures { result ≡ invokes_before source.now.layout.now (tree_of source.now.tree.now) mode }
{
    let mut count: usize = 0;
    let layout = source.layout;
    let modes = layout.modes.as_slice();
    for k in 0..mode.min(modes.len()) {
        if let Some(node) = mode_at(source.tree, modes[k]) {
            count += node.invokes.as_slice().len();
        }
    }
    count
}

/// The number of a mode.
pub fn mode_number(source: &Source<'_>, at: ModeAt) -> usize
    requires { at.mode ≤ 256 }
    ensures value { result ≡ mode_number source.now.layout.now (tree_of source.now.tree.now) at }
    ensures within { result ≤ 512 }
{
    module_before(source, at.program, at.module).modes + at.mode
}

// ---- a mode with what its items need

/// A mode of a source, with its number, that of its first port, its module, and the number of the first invocation of the
/// mode that its program refines.
#[derive(Clone, Copy)]
pub struct ModeHome<'a> {
    pub source: Source<'a>,
    pub number: usize,
    pub at: ModeAt,
    pub port: usize,
    pub module: Before,
    pub parent: usize,
    ghost few: { number ≤ 256 },
    ghost ports: { port ≡ ports_before source.layout.now (tree_of source.tree.now) number },
    ghost modes: { «module».modes ≡ modes_before source.layout.now (tree_of source.tree.now) (module_number source.layout.now at.program at.«module») },
    ghost tasks: { «module».tasks ≡ tasks_before source.layout.now (tree_of source.tree.now) (module_number source.layout.now at.program at.«module») },
    ghost refines: { «module».refined ≡ refined_mode source.layout.now at.program at.«module» },
    ghost parents: { parent ≡ first_parent source.layout.now (tree_of source.tree.now) «module».refined },
}
