// From the tree of a source to its tables.
ghost use Rattle.std.specs.Prelude.{◌≡◌, MatchResult, IfOk};
ghost use Rattle.htl_model.specs.Broken.{KeepsLimits};
ghost use Rattle.htl_model.specs.Small.{AreSmall};
ghost use Rattle.htl_text.specs.Nodes.{tree_of};
ghost use Rattle.htl_names.specs.Conditions.{MeetsBounds};
ghost use Rattle.htl_names.specs.Flat.{symbols_of};
ghost use Rattle.htl_names.specs.NameRules.{AreNamesRight, IsResolved};
ghost use Rattle.htl_names.specs.Rows.{rows as rows_in};
ghost use Rattle.htl_names.specs.Told.{KeptBelow, IsRefusal, IsJudged};

use crate::fault::NameFault;
use crate::limits::first_exceeded;
use crate::order::layout_of;
use crate::programs::{first_misplaced, program_graph};
use crate::rows::Rows;
use crate::rules::{first_unknown, first_unmatched};
use crate::symbols::{Symbols, declare};
use crate::tables::parts_of;
use crate::walk::rows_of;
use htl_model::Tables;
use htl_text::Tree;
use std::alloc::{AllocError, Global};

impl From<AllocError> for NameFault {
    ghost use Rattle.htl_names.specs.declared.fault.NameFault.TheVariants.{Memory};

    ghost from_gives = { λ _ e. e ≡ Memory };

    fn from(_error: AllocError) -> NameFault {
        NameFault::Memory
    }
}

/// The flat tables of a source whose names keep the rules, else the first rule that is broken, with its place. Memory
/// comes only where no memory was left. The tables have at most 1,024 root selections, and at most 128 positions in each; each of
/// their functions is an expression of at most 512 nodes over at most 256 arguments that are there.
pub fn resolve(alloc: Global, tree: &Tree) -> Result<Tables, NameFault>
    requires bounds { MeetsBounds (tree_of tree.now) }
    ensures resolved { IsResolved (tree_of tree.now) result }
    ensures limits { IfOk result (λ tables. KeepsLimits tables) }
    ensures functions { IfOk result (λ tables. AreSmall tables) }
{
    let symbols = names_of(alloc, tree)?;
    let layout = layout_of(alloc, tree, symbols)?;
    let parts = parts_of(alloc, tree, &layout)?;
    Ok(Tables::new(parts))
}

// What the declared names of a source mean, where its names keep the rules.
fn names_of(alloc: Global, tree: &Tree) -> Result<Symbols, NameFault>
    requires bounds { MeetsBounds (tree_of tree.now) }
    ensures { MatchResult result
        (λ symbols. (symbols ≡ symbols_of (tree_of tree.now)) × AreNamesRight (tree_of tree.now)) (IsRefusal (tree_of tree.now)) }
{
    let rows = rows_of(alloc, tree)?;
    let symbols = declare(alloc, rows.entries.as_slice())?;
    check_rules(alloc, tree, &rows, &symbols)?;
    Ok(symbols)
}

// The rules but the first, and the limits.
fn check_rules(alloc: Global, tree: &Tree, rows: &Rows, symbols: &Symbols) -> Result<(), NameFault>
    requires bounds { MeetsBounds (tree_of tree.now) }
    requires rows { rows.now ≡ rows_in (tree_of tree.now) }
    requires symbols { symbols.now ≡ symbols_of (tree_of tree.now) }
    requires kept { KeptBelow (tree_of tree.now) 2 }
    ensures { IsJudged (tree_of tree.now) result }
{
    if let Some(token) = first_unknown(rows.uses.as_slice(), symbols) {
        return Err(NameFault::Unknown { token });
    }
    if let Some(token) = rows.wrong.as_slice().first().copied() {
        return Err(NameFault::Kind { token });
    }
    let graph = program_graph(alloc, tree, symbols)?;
    let misplaced = first_misplaced(alloc, &graph)?;
    if let Some(program) = misplaced {
        return Err(NameFault::NotATree { program });
    }
    let table = graph.refined.as_slice();
    if let Some(token) = first_unmatched(rows.parents.as_slice(), symbols, table) {
        return Err(NameFault::Unknown { token });
    }
    if let Some(fault) = first_exceeded(tree, table) {
        return Err(fault);
    }
    Ok(())
}
