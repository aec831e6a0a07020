//! Root selections and their positions.
ghost use Rattle.std.specs.Prelude.{◌≡◌, ◌≤◌, ◌<◌, ◌+◌, ◌*◌, ◌-◌, ◌/◌, ◌%◌, ◌^◌, min, cond, length, get_or, slice_get, drop, None, Some, MatchOption};
ghost use Rattle.htl_base.specs.declared.limits.TheConstants as limit;
ghost use Rattle.htl_model.specs.Ranges.{AreInRange};
ghost use Rattle.htl_model.specs.RootModes.{AreRootModes, modes_below};
ghost use Rattle.htl_model.specs.Selections.{is_root as is_root_of, root_modules, modes_of, choices_from, root_mode as root_mode_of, positions as positions_of, root_period as root_period_of};

use crate::choice::is_running;
use crate::lookup::{lists, mode_period};
use crate::{Module, Tables};
use htl_base::Time;
use htl_base::limits::MAX_MODULES;

/// Whether a module refines no mode.
pub fn is_root(module: &Module) -> bool
    ensures { result ≡ is_root_of «module».now }
{
    module.parent.is_none()
}

/// The first root module. One pass over the modules in front of it.
pub fn first_root(t: &Tables) -> Option<u16>
    requires { length t.now.modules ≤ limit.MAX_MODULES }
    ensures { result ≡ slice_get (root_modules t.now) 0 }
{
    let modules = lists(t).modules.as_slice();
    for k in 0..modules.len() {
        if is_root(&modules[k]) {
            return Some(k as u16);
        }
    }
    None
}

/// How many modes a module has. One pass over the modes.
pub fn mode_count(t: &Tables, module: u16) -> u32
    requires { length t.now.modes ≤ limit.MAX_MODES }
    ensures count { result ≡ length (modes_of t.now «module») }
    ensures few { result ≤ limit.MAX_MODES }
{
    let modes = lists(t).modes.as_slice();
    let mut n = 0u32;
    for k in 0..modes.len() {
        if modes[k].module == module {
            n += 1;
        }
    }
    n
}

/// A mode of a module by its place among them; 0 where there is none. One pass over the modes in front of it.
pub fn mode_at(t: &Tables, module: u16, place: u32) -> u16
    requires { length t.now.modes ≤ limit.MAX_MODES }
    ensures { result ≡ get_or (modes_of t.now «module») place 0 }
{
    let modes = lists(t).modes.as_slice();
    let mut left = place;
    for k in 0..modes.len() {
        if modes[k].module == module {
            if left == 0 {
                return k as u16;
            }
            left -= 1;
        }
    }
    0
}

// The first mode of a module whose last one stands in front of `end`.
fn first_mode(t: &Tables, module: u16, end: usize) -> usize
    requires { end ≡ modes_below t.now.modes («module» + 1) }
    ensures first { result ≡ modes_below t.now.modes «module» }
    ensures front { result ≤ end }
{
    t.keeps_ranges();
    let modes = lists(t).modes.as_slice();
    let mut first = end;
    while first > 0 && modes[first - 1].module == module {
        first -= 1;
    }
    first
}

// The choices of the modules behind with those of one more, capped.
fn more_choices(n: u64, count: u64, module: &Module) -> u64
    ensures { result ≡ min (n * cond (is_root_of «module».now) count 1) (2 ^ 64 - 1) }
{
    if is_root(module) {
        n.saturating_mul(count)
    } else {
        n
    }
}

/// How many choices of modes the root modules from a number on have, capped at 2^64 - 1. One pass over the modules and
/// modes from there on.
pub fn choices(t: &Tables, from: usize) -> u64
    requires few { length t.now.modes ≤ limit.MAX_MODES }
    requires modules { length t.now.modules ≤ limit.MAX_MODULES }
    requires within { from ≤ length t.now.modules }
    ensures { result ≡ min (choices_from t.now from (drop from t.now.modules)) (2 ^ 64 - 1) }
{
    t.keeps_ranges();
    let modules = lists(t).modules.as_slice();
    let modes = lists(t).modes.as_slice();
    let mut n = 1u64;
    let mut end = modes.len();
    let mut k = modules.len();
    while k > from {
        k -= 1;
        let first = first_mode(t, k as u16, end);
        n = more_choices(n, (end - first) as u64, &modules[k]);
        end = first;
    }
    n
}

// The digit of a module whose modes stand from `first` to `end`, as its mode, and the digits before it. A module that
// refines a mode has none.
fn digit(module: &Module, first: usize, end: usize, digits: u32) -> (Option<u16>, u32)
    requires some { first < end }
    requires few { end ≤ limit.MAX_MODES }
    ensures mode { result.0 ≡ cond (is_root_of «module».now) (Some (first + digits % (end - first))) None }
    ensures before { result.1 ≡ cond (is_root_of «module».now) (digits / (end - first)) digits }
{
    if !is_root(module) {
        return (None, digits);
    }
    let count = (end - first) as u32;
    (Some((first as u32 + digits % count) as u16), digits / count)
}

/// The modes of all root modules in a selection, one entry for each module; None for a module that refines a mode, and
/// behind the last module. One pass over the modules and modes, with one division a root module; it serves
/// `is_running` for the positions.
pub fn root_modes(t: &Tables, selection: u32) -> [Option<u16>; MAX_MODULES]
    ensures { AreRootModes t.now selection result }
{
    t.keeps_ranges();
    let modules = lists(t).modules.as_slice();
    let modes = lists(t).modes.as_slice();
    let mut entries = [None; MAX_MODULES];
    let mut digits = selection;
    let mut end = modes.len();
    let mut k = modules.len();
    while k > 0 {
        k -= 1;
        let first = first_mode(t, k as u16, end);
        let (mode, before) = digit(&modules[k], first, end, digits);
        entries[k] = mode;
        digits = before;
        end = first;
    }
    entries
}

/// The mode of a root module in a selection. One pass over the modules and modes; `root_modes` has all of them for as much.
pub fn root_mode(t: &Tables, selection: u32, module: u16) -> u16
    requires ranges { AreInRange t.now }
    requires within { «module» < length t.now.modules }
    ensures { result ≡ root_mode_of t.now selection «module» }
{
    let later = choices(t, module as usize + 1);
    let place = selection as u64 / later % mode_count(t, module) as u64;
    mode_at(t, module, place as u32)
}

/// How many positions a selection has. One pass over the modules, modes and invocations.
pub fn position_count(t: &Tables, selection: u32) -> usize
    requires ranges { AreInRange t.now }
    ensures { result ≡ length (positions_of t.now selection) }
{
    let modes = root_modes(t, selection);
    let invs = lists(t).invs.as_slice();
    let mut n = 0usize;
    for k in 0..invs.len() {
        if is_running(t, &modes, invs[k].mode) {
            n += 1;
        }
    }
    n
}

/// The invocation at a position of a selection; 0 where there is none. One pass over the modules, modes and invocations.
pub fn position_at(t: &Tables, selection: u32, place: usize) -> u16
    requires ranges { AreInRange t.now }
    ensures { result ≡ get_or (positions_of t.now selection) place 0 }
{
    let modes = root_modes(t, selection);
    let invs = lists(t).invs.as_slice();
    let mut left = place;
    for k in 0..invs.len() {
        if is_running(t, &modes, invs[k].mode) {
            if left == 0 {
                return k as u16;
            }
            left -= 1;
        }
    }
    0
}

/// The period of the first mode of the first root module. One pass over the modules and modes in front of it.
pub fn root_period(t: &Tables) -> Option<Time>
    requires ranges { AreInRange t.now }
    ensures value { result ≡ root_period_of t.now }
    ensures none { MatchOption result (length t.now.modules ≡ 0) (λ p. 0 < length t.now.modules) }
{
    match first_root(t) {
        Some(root) => Some(mode_period(t, mode_at(t, root, 0)) as u64),
        None => None,
    }
}
