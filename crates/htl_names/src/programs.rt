// The tree of programs: which modes they refine, and the first program that is out of place.
ghost use Rattle.std.specs.Prelude.{◌≡◌, ◌++◌, OnOk, IfOk, length, map, fold, ◌≤◌, List};
ghost use Rattle.htl_text.specs.Nodes.{mode_of, module_of, program_of, tree_of, PlainProgram};
ghost use Rattle.htl_names.specs.Flat.{symbols_of};
ghost use Rattle.htl_names.specs.NameRules.{ProgramTree};
ghost use Rattle.htl_names.specs.RefinedModes.{with_refinement, refined_at, is_misplaced, AreRefinedModes, MarksReached};
ghost use Rattle.htl_names.specs.Programs.{refining_program as program_of_mode, module_refinements, program_refinements, refinement_rows, edge_targets};
ghost use Rattle.htl_names.specs.Told.{IsSearched};
ghost use Rattle.htl_names.specs.declared.fault.NameFault.TheVariants.{NotATree};

use crate::Done;
use crate::key::Space;
use crate::place::ModeAt;
use crate::symbols::Symbols;
use htl_base::Seq;
use htl_text::{ModeNode, ModuleNode, ProgramNode, Tree};
use std::alloc::{AllocError, Global};

// ---- refinements

/// A mode, and the number of the program that refines it.
#[derive(Clone, Copy)]
pub(crate) struct Refinement {
    pub mode: ModeAt,
    pub program: usize,
}

/// The number of the program that refines a mode: it stands in the mode's head.
pub(crate) fn refining_program(mode: &ModeNode, symbols: &Symbols) -> Option<usize>
    ensures { result ≡ program_of_mode symbols.now (mode_of mode.now) }
{
    let id = mode.program?;
    symbols.get(&Space::Programs.of(0, 0, 0).key(id.name))
}

fn push_module_refinements(
    program: usize,
    module: usize,
    node: &ModuleNode,
    symbols: &Symbols,
    into: &mut Vec<Refinement>,
) -> Done
    ensures { OnOk result (into.new.items ≡ into.old.items ++ module_refinements symbols.now program «module» (module_of node.now)) }
{
    let modes = node.modes.as_slice();
    for k in 0..modes.len() {
        if let Some(q) = refining_program(&modes[k], symbols) {
            let mode = ModeAt {
                program,
                module,
                mode: k,
            };
            into.push(Refinement { mode, program: q })?;
        }
    }
    Ok(())
}

fn program_refinements(
    alloc: Global,
    program: usize,
    node: &ProgramNode,
    symbols: &Symbols,
) -> Result<Vec<Refinement>, AllocError>
    ensures { IfOk result (λ v. v.items ≡ program_refinements symbols.now program (program_of node.now)) }
{
    let mut row = Vec::new(alloc);
    let modules = node.modules.as_slice();
    for k in 0..modules.len() {
        push_module_refinements(program, k, &modules[k], symbols, &mut row)?;
    }
    Ok(row)
}

// ---- the graph of programs

/// The modes that a program refines.
#[derive(Clone, Copy, Default)]
pub(crate) struct RefinedModes {
    /// How many there are, counted up to 255.
    pub count: u8,
    /// The first.
    pub mode: Option<ModeAt>,
}

/// The refinements of a source, and the modes that each program refines.
#[derive(Drop)]
pub(crate) struct ProgramGraph {
    /// The refinements, by the program in which the mode stands.
    rows: Vec<Seq<Refinement>>,
    /// The modes that each program refines.
    pub refined: Vec<RefinedModes>,
}

/// Notes the refinements of a program's modes. A number of no program is passed over.
fn note_refinements(row: &[Refinement], into: &mut Vec<RefinedModes>)
    ensures { into.new.items ≡ fold with_refinement into.old.items row.now }
{
    for k in 0..row.len() {
        let refinement = row[k];
        if refinement.program < into.len() {
            let old = into[refinement.program];
            into[refinement.program] = RefinedModes {
                count: old.count.saturating_add(1),
                mode: Some(old.mode.unwrap_or(refinement.mode)),
            };
        }
    }
}

/// The graph of the programs of a source.
pub(crate) fn program_graph(
    alloc: Global,
    tree: &Tree,
    symbols: &Symbols,
) -> Result<ProgramGraph, AllocError>
    requires { symbols.now ≡ symbols_of (tree_of tree.now) }
    ensures rows { IfOk result (λ graph. graph.rows.items ≡ refinement_rows (symbols_of (tree_of tree.now)) (tree_of tree.now)) }
    ensures refined { IfOk result (λ graph. AreRefinedModes (tree_of tree.now) graph.refined.items) }
{
    let programs = tree.programs.as_slice();
    let mut refined = vec![in alloc; RefinedModes::default(); programs.len()]?;
    let mut rows = Vec::new(alloc);
    for k in 0..programs.len() {
        let row = program_refinements(alloc, k, &programs[k], symbols)?;
        note_refinements(&row, &mut refined);
        rows.push(Seq::new(row))?;
    }
    Ok(ProgramGraph { rows, refined })
}

// ---- the programs that are reached

/// Puts the programs of refinements behind others.
fn put_targets(row: &[Refinement], into: &mut Vec<usize>) -> Done
    ensures { OnOk result (into.new.items ≡ into.old.items ++ edge_targets row.now) }
{
    for k in 0..row.len() {
        into.push(row[k].program)?;
    }
    Ok(())
}

/// Marks the programs that are reached from the root. Each is asked once. A number of no program is passed over.
fn reach(alloc: Global, rows: &[Seq<Refinement>]) -> Result<Vec<bool>, AllocError>
    ensures { IfOk result (λ v. MarksReached (map edge_targets rows.now) v.items) }
{
    let mut seen = vec![in alloc; false; rows.len()]?;
    let mut waiting = Vec::new(alloc);
    waiting.push(0)?;
    while let Some(p) = waiting.pop() {
        if p < seen.len() && !seen[p] {
            seen[p] = true;
            put_targets(rows[p].as_slice(), &mut waiting)?;
        }
    }
    Ok(seen)
}

// ---- the tree of programs

/// The first program that is out of place.
pub(crate) fn first_misplaced(
    alloc: Global,
    graph: &ProgramGraph,
) -> Result<Option<u32>, AllocError>
    requires few { length graph.now.refined.items ≤ 1048576 }
    requires even { length graph.now.rows.items ≡ length graph.now.refined.items }
    ensures { (ps : List PlainProgram) → graph.now.rows.items ≡ refinement_rows (symbols_of ps) ps
        → AreRefinedModes ps graph.now.refined.items
        → IfOk result (λ o. IsSearched ps ProgramTree (λ p. NotATree p) o) }
{
    let refined = graph.refined.as_slice();
    let seen = reach(alloc, graph.rows.as_slice())?;
    for p in 0..refined.len() {
        if is_misplaced(p, refined[p].count, seen[p]) {
            return Ok(Some(p as u32));
        }
    }
    Ok(None)
}

// Whether a program is out of place, by how many modes it refines, and whether it is reached.
fn is_misplaced(p: usize, count: u8, is_reached: bool) -> bool
    ensures { result ≡ is_misplaced p count is_reached }
{
    if p == 0 {
        0 < count
    } else {
        count != 1 || !is_reached
    }
}

/// The mode that a program refines.
pub(crate) fn refined_at(p: usize, refined: &[RefinedModes]) -> Option<ModeAt>
    ensures { result ≡ refined_at refined.now p }
{
    if p < refined.len() {
        refined[p].mode
    } else {
        None
    }
}
