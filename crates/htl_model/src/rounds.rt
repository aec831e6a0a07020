//! The rounds of root modules of different periods, and the choices of modes that they have.
ghost use Rattle.std.specs.Prelude.{◌≡◌, ◌≤◌, ◌<◌, ◌+◌, ◌-◌, ◌*◌, ◌++◌, ◌%◌, ◌^◌, ℕ, get_or, eqb, min, length, map, take};
ghost use Rattle.std.specs.List.{flat_map};
ghost use Rattle.htl_base.specs.declared.limits.TheConstants as limit;
ghost use Rattle.htl_model.specs.Frames.{unit_period as unit_period_of, begins, rounds_of, rounds_at, choices as choices_of};
ghost use Rattle.htl_model.specs.Selections.{root_modules};

use crate::Tables;
use crate::frame::Round;
use crate::lookup::{lists, mode_period};
use crate::selections::{is_root, mode_count};
use htl_base::Time;
use htl_base::limits::MAX_MODULES;

/// The period of a root module: that of its start mode, in ticks.
pub fn unit_period(t: &Tables, unit: u16) -> u32
    ensures { result ≡ unit_period_of t.now unit }
{
    let modules = lists(t).modules.as_slice();
    if (unit as usize) < modules.len() {
        mode_period(t, modules[unit as usize].start)
    } else {
        mode_period(t, 0)
    }
}

/// Writes the root modules to the front, and answers how many there are.
pub fn fill_roots(t: &Tables, out: &mut [u16; MAX_MODULES]) -> usize
    requires { length t.now.modules ≤ limit.MAX_MODULES }
    ensures roots { take result out.new ≡ root_modules t.now }
    ensures count { result ≡ length (root_modules t.now) }
    ensures few { result ≤ limit.MAX_MODULES }
{
    let modules = lists(t).modules.as_slice();
    let mut n = 0;
    for k in 0..modules.len() {
        if is_root(&modules[k]) {
            out[n] = k as u16;
            n += 1;
        }
    }
    n
}

/// Whether a round of a module begins at an instant.
pub fn begins_at(t: &Tables, unit: u16, at: Time) -> bool
    ensures { result ≡ eqb (at % unit_period_of t.now unit) 0 }
{
    let period = unit_period(t, unit) as Time;
    if period == 0 {
        at == 0
    } else {
        at % period == 0
    }
}

// Writes the rounds that begin at an instant to the places from `n` on: the place behind the last.
fn put_rounds(t: &Tables, roots: &[u16], at: Time, out: &mut [Round], n: usize) -> usize
    requires room { n + length roots.now ≤ length out.old }
    ensures front { take result out.new ≡ take n out.old ++ rounds_of t.now at roots.now }
    ensures few { result ≤ n + length roots.now }
    ensures len { length out.new ≡ length out.old }
{
    let mut end = n;
    for k in 0..roots.len() {
        if begins_at(t, roots[k], at) {
            out[end] = Round { at, unit: roots[k] };
            end += 1;
        }
    }
    end
}

/// Writes the rounds that begin at these instants to the front, and answers how many there are.
pub fn fill_rounds(t: &Tables, roots: &[u16], starts: &[Time], out: &mut [Round]) -> usize
    requires roots { roots.now ≡ root_modules t.now }
    requires few { length roots.now ≤ limit.MAX_MODULES }
    requires starts { length starts.now ≤ 32 }
    requires room { length out.old ≡ 2048 }
    ensures rounds { take result out.new ≡ flat_map (rounds_at t.now) starts.now }
    ensures few { result ≤ 2048 }
    ensures len { length out.new ≡ length out.old }
{
    let mut n = 0;
    for j in 0..starts.len() {
        n = put_rounds(t, roots, starts[j], out, n);
    }
    n
}

/// How many choices of modes some rounds have, capped at 4,294,967,295.
pub fn round_choices(t: &Tables, rounds: &[Round]) -> u64
    requires few { length t.now.modes ≤ limit.MAX_MODES }
    ensures { result ≡ min (choices_of t.now rounds.now) (2 ^ 32 - 1) }
{
    let mut n = 1u64;
    for k in 0..rounds.len() {
        n = (n * mode_count(t, rounds[k].unit) as u64).min(u32::MAX as u64);
    }
    n
}

/// How many choices of modes the rounds have that begin at an instant, capped at 4,294,967,295.
pub fn start_choices(t: &Tables, roots: &[u16], at: Time) -> u64
    requires few { length t.now.modes ≤ limit.MAX_MODES }
    ensures { result ≡ min (choices_of t.now (rounds_of t.now at roots.now)) (2 ^ 32 - 1) }
{
    let mut n = 1u64;
    for k in 0..roots.len() {
        if begins_at(t, roots[k], at) {
            n = (n * mode_count(t, roots[k]) as u64).min(u32::MAX as u64);
        }
    }
    n
}

/// Writes the choices at each start to the front.
pub fn fill_radices(t: &Tables, roots: &[u16], starts: &[Time], out: &mut [u32])
    requires few { length t.now.modes ≤ limit.MAX_MODES }
    requires roots { roots.now ≡ root_modules t.now }
    requires starts { length starts.now ≤ length out.old }
    requires small { (j : ℕ) → j < length starts.now → choices_of t.now (rounds_at t.now (get_or starts.now j 0)) ≤ 1024 }
    ensures radices { take (length starts.now) out.new ≡ map (λ (a : ℕ). choices_of t.now (rounds_at t.now a)) starts.now }
    ensures len { length out.new ≡ length out.old }
{
    for j in 0..starts.len() {
        out[j] = start_choices(t, roots, starts[j]) as u32;
    }
}
