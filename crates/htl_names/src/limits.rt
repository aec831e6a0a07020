// The first limit that a source exceeds: what it has of each kind, and how much it may have.
ghost use Rattle.std.specs.Prelude.{◌≡◌, map, fold, get_or, ◌≤◌, ◌<◌, length};
ghost use Rattle.htl_text.specs.Nodes.{mode_of, module_of, tree_of};
ghost use Rattle.htl_names.specs.Flat.{symbols_of};
ghost use Rattle.htl_names.specs.Limits.{counts, limits};
ghost use Rattle.htl_names.specs.NameRules.{Limits};
ghost use Rattle.htl_names.specs.RefinedModes.{refined_at, AreRefinedModes};
ghost use Rattle.htl_names.specs.Programs.{level_by, levels_by};
ghost use Rattle.htl_names.specs.Tallies.{capped, with_mode, with_module, with_program, no_tally, selected, placed, IsTally};
ghost use Rattle.htl_names.specs.Told.{IsSearched};

use crate::fault::NameFault;
use crate::place::modules_at;
use crate::programs::{RefinedModes, refined_at};
use htl_base::limits::{
    MAX_COMMUNICATORS, MAX_INVOCATIONS, MAX_LEVELS, MAX_MODE_INVOCATIONS, MAX_MODES, MAX_MODULES,
    MAX_PORTS, MAX_POSITIONS, MAX_SELECTIONS, MAX_SWITCHES, MAX_TASKS,
};
use htl_text::{ModeNode, ModuleNode, Tree};

// ---- counts of items, each of which stops at `usize::MAX`

/// How many items modes have, and the most invocations in one mode.
#[derive(Clone, Copy, Default)]
struct ModeTally {
    ports: usize,
    invokes: usize,
    switches: usize,
    most_invokes: usize,
}

impl ModeTally {
    /// The tally with these modes too.
    fn with(self, modes: &[ModeNode]) -> ModeTally
        ensures { result ≡ fold with_mode self (map mode_of modes.now) }
    {
        modes.iter().fold(self, |sum, mode| {
            let invokes = mode.invokes.as_slice().len();
            ModeTally {
                ports: sum.ports.saturating_add(mode.ports.as_slice().len()),
                invokes: sum.invokes.saturating_add(invokes),
                switches: sum.switches.saturating_add(mode.switches.as_slice().len()),
                most_invokes: sum.most_invokes.max(invokes),
            }
        })
    }
}

/// How many items modules have.
#[derive(Clone, Copy, Default)]
struct ModuleTally {
    modes: usize,
    tasks: usize,
    of_modes: ModeTally,
}

impl ModuleTally {
    /// The tally with these modules too.
    fn with(self, modules: &[ModuleNode]) -> ModuleTally
        ensures { result ≡ fold with_module self (map module_of modules.now) }
    {
        modules.iter().fold(self, |sum, module| {
            let modes = module.modes.as_slice();
            ModuleTally {
                modes: sum.modes.saturating_add(modes.len()),
                tasks: sum.tasks.saturating_add(module.tasks.as_slice().len()),
                of_modes: sum.of_modes.with(modes),
            }
        })
    }
}

/// How much a source has.
#[derive(Clone, Copy, Default)]
struct Tally {
    comms: usize,
    modules: usize,
    of_modules: ModuleTally,
}

fn tally_of(tree: &Tree) -> Tally
    ensures { result ≡ fold with_program no_tally (tree_of tree.now) }
{
    let programs = tree.programs.as_slice();
    programs.iter().fold(Tally::default(), |sum, program| {
        let modules = program.modules.as_slice();
        Tally {
            comms: sum.comms.saturating_add(program.comms.as_slice().len()),
            modules: sum.modules.saturating_add(modules.len()),
            of_modules: sum.of_modules.with(modules),
        }
    })
}

/// How many root selections there are, none without root modules: a selection takes a mode of each.
fn selections(modules: &[ModuleNode]) -> usize
    ensures { result ≡ selected (map module_of modules.now) }
{
    modules.iter().fold(modules.len().min(1), |n, module| {
        n.saturating_mul(module.modes.as_slice().len())
    })
}

/// The most positions that a root selection has.
fn positions(modules: &[ModuleNode]) -> usize
    ensures { result ≡ fold placed 0 (map module_of modules.now) }
{
    modules.iter().fold(0usize, |n, module| {
        let tally = ModeTally::default().with(module.modes.as_slice());
        n.saturating_add(tally.most_invokes)
    })
}

// ---- levels of programs

/// How many programs lead from the root to a program, both counted.
fn level(refined: &[RefinedModes], program: usize) -> usize
    ensures { result ≡ level_by (refined_at refined.now) (length refined.now) program }
{
    let mut at = program;
    for k in 0..refined.len() {
        match refined_at(at, refined) {
            Some(mode) => at = mode.program,
            None => return k + 1,
        }
    }
    refined.len()
}

/// The greatest level of a program.
fn levels(refined: &[RefinedModes]) -> usize
    ensures { result ≡ levels_by (refined_at refined.now) (length refined.now) }
{
    let mut most = 0usize;
    for p in 0..refined.len() {
        most = most.max(level(refined, p));
    }
    most
}

// ---- the limits

/// What there is of the kind that a limit is set to, and the limit; the limits are counted from 0.
fn count_and_limit(limit: u8, sum: &Tally, tree: &Tree, refined: &[RefinedModes]) -> (usize, usize)
    requires counted { IsTally (tree_of tree.now) sum.now }
    requires refined { AreRefinedModes (tree_of tree.now) refined.now }
    requires within { limit < 11 }
    ensures count { capped result.0 ≡ capped (get_or (counts (symbols_of (tree_of tree.now)) (tree_of tree.now)) limit 0) }
    ensures limit { result.1 ≡ get_or limits limit 0 }
    ensures small { result.1 ≤ 4096 }
{
    match limit {
        0 => (sum.comms, MAX_COMMUNICATORS),
        1 => (sum.modules, MAX_MODULES),
        2 => (sum.of_modules.modes, MAX_MODES),
        3 => (sum.of_modules.of_modes.ports, MAX_PORTS),
        4 => (sum.of_modules.tasks, MAX_TASKS),
        5 => (sum.of_modules.of_modes.invokes, MAX_INVOCATIONS),
        6 => (sum.of_modules.of_modes.switches, MAX_SWITCHES),
        7 => (sum.of_modules.of_modes.most_invokes, MAX_MODE_INVOCATIONS),
        8 => (levels(refined), MAX_LEVELS),
        9 => (selections(modules_at(tree, 0)), MAX_SELECTIONS as usize),
        _ => (positions(modules_at(tree, 0)), MAX_POSITIONS),
    }
}

/// The first limit that is exceeded. `refined` has the modes that each program refines. Levels are counted only where the limits
/// before theirs are kept, so that there are few programs from which to climb.
pub(crate) fn first_exceeded(tree: &Tree, refined: &[RefinedModes]) -> Option<NameFault>
    requires { AreRefinedModes (tree_of tree.now) refined.now }
    ensures { IsSearched (tree_of tree.now) Limits (λ f. f) result }
{
    let sum = tally_of(tree);
    for k in 0..11u8 {
        let (count, limit) = count_and_limit(k, &sum, tree, refined);
        if limit < count {
            let count = count.min(u32::MAX as usize) as u32;
            return Some(NameFault::Limit {
                which: k + 1,
                count,
            });
        }
    }
    None
}
