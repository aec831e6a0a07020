// How many functions and schedules the tables ask for.
ghost use Rattle.std.specs.Prelude.{◌≡◌, ◌<◌, ◌≤◌, ◌^◌, ◌+◌, ◌==◌, ◌&&◌, ℕ, is_none, min, length, get_or, cond, count_by, sum_by};
ghost use Rattle.htl_model.specs.Frames.{frame_limit, nodes};
ghost use Rattle.htl_object.specs.Modules.{is_mode_of};
ghost use Rattle.htl_object.specs.Files.{is_root_number as is_root, selections_to, selections_of, widest_to, positions_to, are_few, is_node_count, counted_functions as function_count};

use crate::declaration_reader::is_mode_of;
use htl_base::limits::{MAX_MODES, MAX_POSITIONS, MAX_SELECTIONS};
use htl_model::items::count_invs;
use htl_model::{Inv, Mode, Module, Tables, Task};

fn is_root(modules: &[Module], k: usize) -> bool
    ensures { result ≡ is_root modules.now k }
{
    match modules.get(k) {
        None => false,
        Some(m) => m.parent.is_none(),
    }
}

fn mode_count(modes: &[Mode], k: usize) -> usize
    ensures { result ≡ count_by (λ q. q.«module» == k) modes.now }
{
    modes.iter().filter(|q| q.module as usize == k).count()
}

fn inv_count(counts: &[usize], _invs: &[Inv], mode: usize) -> usize
    requires counted { (m : ℕ) → m < length counts.now → get_or counts.now m 0 ≡ count_by (λ i. i.mode == m) _invs.now }
    requires within { mode < length counts.now }
    ensures { result ≡ count_by (λ i. i.mode == mode) _invs.now }
{
    counts[mode]
}

// The number of selections, up to 1,025.
fn selections(modes: &[Mode], modules: &[Module]) -> u64
    ensures { result ≡ min (selections_to modes.now modules.now (length modules.now)) 1025 }
{
    let mut found = 1u64;
    for k in 0..modules.len() {
        if is_root(modules, k) {
            found = found
                .saturating_mul(mode_count(modes, k) as u64)
                .min(MAX_SELECTIONS as u64 + 1);
        }
    }
    found
}

// The number of selections, up to 1,025; none without modules.
fn count(modes: &[Mode], modules: &[Module]) -> u64
    ensures { result ≡ min (selections_of modes.now modules.now) 1025 }
{
    if modules.len() == 0 {
        0
    } else {
        selections(modes, modules)
    }
}

// The most invocations of a mode of the module.
fn widest(modes: &[Mode], counts: &[usize], invs: &[Inv], k: usize) -> usize
    requires counted { (m : ℕ) → m < length counts.now → get_or counts.now m 0 ≡ count_by (λ i. i.mode == m) invs.now }
    requires few { length modes.now ≤ length counts.now }
    ensures { result ≡ widest_to modes.now invs.now k (length modes.now) }
{
    let mut found = 0;
    for q in 0..modes.len() {
        if is_mode_of(modes, k, q) {
            found = inv_count(counts, invs, q).max(found);
        }
    }
    found
}

// The most positions of a selection, up to 129.
fn positions(modes: &[Mode], modules: &[Module], invs: &[Inv]) -> usize
    requires { length modes.now ≤ 256 }
    ensures { result ≡ min (positions_to modes.now modules.now invs.now (length modules.now)) 129 }
{
    let mut counts = [0usize; MAX_MODES];
    count_invs(invs, &mut counts);
    let mut found = 0usize;
    for k in 0..modules.len() {
        if is_root(modules, k) {
            found = found
                .saturating_add(widest(modes, &counts, invs, k))
                .min(MAX_POSITIONS + 1);
        }
    }
    found
}

// There are at most `MAX_SELECTIONS` selections, and none has more than `MAX_POSITIONS` positions.
fn are_few(modes: &[Mode], modules: &[Module], invs: &[Inv]) -> bool
    requires { length modes.now ≤ 256 }
    ensures { result ≡ are_few modes.now modules.now invs.now }
{
    count(modes, modules) <= MAX_SELECTIONS as u64
        && positions(modes, modules, invs) <= MAX_POSITIONS
}

// A frame of the tables has so many nodes, and no limit of frames is exceeded.
fn has_nodes(t: &Tables, n: u16) -> bool
    ensures { result ≡ (is_none (frame_limit t.now) && (n == nodes t.now)) }
{
    match t.frame_limits() {
        Ok(()) => n as u32 == t.nodes(),
        Err(_) => false,
    }
}

/// A frame of the tables has so many nodes, and no limit on selections, positions or frames is exceeded.
pub fn is_node_count(t: &Tables, n: u16) -> bool
    ensures { result ≡ is_node_count t.now n }
{
    let parts = t.parts();
    let modes = parts.modes.as_slice();
    are_few(modes, parts.modules.as_slice(), parts.invs.as_slice()) && has_nodes(t, n)
}

/// One for each output of a concrete task, and one for each switch, up to a limit.
pub fn function_count(tasks: &[Task], switches: u16) -> usize
    requires { sum_by (λ t. cond t.is_abstract 0 (length t.outputs)) tasks.now < 2 ^ 60 }
    ensures { result ≡ function_count tasks.now switches }
{
    let mut found = 0usize;
    for t in tasks {
        if !t.is_abstract {
            found += t.outputs.as_slice().len();
        }
    }
    found + switches as usize
}
