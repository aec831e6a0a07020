//! The limits of frames.
ghost use Rattle.std.specs.Prelude.{◌≡◌, ◌≤◌, ◌<◌, ◌+◌, ◌-◌, Some, OnOk, IfErr, None, max, length};
ghost use Rattle.htl_base.specs.declared.limits.TheConstants as limit;
ghost use Rattle.htl_model.specs.Frames.{most_invs as most_invs_of, most_positions as most_positions_of, frame_limit, too_long as too_long_of, frame_of, other_limit};
ghost use Rattle.htl_model.specs.Selections.{root_modules, modes_of, invs_of};

use crate::Tables;
use crate::frame::Round;
use crate::lookup::lists;
use crate::rounds::{fill_roots, fill_rounds, round_choices, unit_period};
use crate::starts::{common, count_starts, fill_starts, hyperperiod};
use htl_base::Time;
use htl_base::limits::{MAX_FRAME, MAX_MODULES, MAX_PATHS, MAX_POSITIONS, MAX_ROUNDS, MAX_STARTS};

// The first module up to which the least common multiple of the periods is more than the greatest frame, with the multiple.
fn too_long(t: &Tables, roots: &[u16]) -> Option<(u16, u64)>
    ensures { result ≡ too_long_of t.now 1 roots.now }
{
    let mut multiple = 1;
    for k in 0..roots.len() {
        multiple = common(multiple, unit_period(t, roots[k]) as u64);
        if multiple > MAX_FRAME {
            return Some((roots[k], multiple));
        }
    }
    None
}

// How many invocations a mode has.
fn invs_in(t: &Tables, mode: u16) -> usize
    requires { length t.now.invs ≤ limit.MAX_INVOCATIONS }
    ensures count { result ≡ length (invs_of t.now mode) }
    ensures few { result ≤ limit.MAX_INVOCATIONS }
{
    let invs = lists(t).invs.as_slice();
    let mut n = 0usize;
    for k in 0..invs.len() {
        if invs[k].mode == mode {
            n += 1;
        }
    }
    n
}

// The greatest number of invocations in a mode of a module.
fn most_invs(t: &Tables, unit: u16) -> usize
    requires modes { length t.now.modes ≤ limit.MAX_MODES }
    requires invs { length t.now.invs ≤ limit.MAX_INVOCATIONS }
    ensures most { result ≡ most_invs_of t.now (modes_of t.now unit) }
    ensures few { result ≤ limit.MAX_INVOCATIONS }
{
    let modes = lists(t).modes.as_slice();
    let mut n = 0;
    for k in 0..modes.len() {
        if modes[k].module == unit {
            n = invs_in(t, k as u16).max(n);
        }
    }
    n
}

// The greatest number of positions in the rounds of a path.
fn most_positions(t: &Tables, rounds: &[Round]) -> u64
    requires modes { length t.now.modes ≤ limit.MAX_MODES }
    requires invs { length t.now.invs ≤ limit.MAX_INVOCATIONS }
    requires rounds { length rounds.now ≤ 2048 }
    ensures { result ≡ most_positions_of t.now rounds.now }
{
    let mut n = 0u64;
    for k in 0..rounds.len() {
        n += most_invs(t, rounds[k].unit) as u64;
    }
    n
}

// The first limit behind the one on ticks that frames of these modules exceed: what there is, and what there may be.
fn other_limits(t: &Tables, roots: &[u16], frame: Time) -> Option<(u64, u64)>
    requires modes { length t.now.modes ≤ limit.MAX_MODES }
    requires invs { length t.now.invs ≤ limit.MAX_INVOCATIONS }
    requires roots { roots.now ≡ root_modules t.now }
    requires few { length roots.now ≤ limit.MAX_MODULES }
    requires some { 0 < length roots.now }
    requires frame { frame ≡ frame_of t.now }
    requires long { 0 < frame }
    requires short { frame ≤ 1000000 }
    ensures { result ≡ other_limit t.now }
{
    let many = count_starts(t, roots, frame);
    if many > MAX_STARTS as u64 {
        return Some((many, MAX_STARTS as u64));
    }
    let mut starts = [0; MAX_STARTS + 1];
    let count = fill_starts(t, roots, frame, &mut starts);
    let mut rounds = [Round { at: 0, unit: 0 }; MAX_ROUNDS];
    let round_count = fill_rounds(t, roots, &starts[..count], &mut rounds);
    let choices = round_choices(t, &rounds[..round_count]);
    if choices > MAX_PATHS as u64 {
        return Some((choices, MAX_PATHS as u64));
    }
    let positions = most_positions(t, &rounds[..round_count]);
    if positions > MAX_POSITIONS as u64 {
        return Some((positions, MAX_POSITIONS as u64));
    }
    None
}

impl Tables {
    /// Judges the limits of frames, by the periods of the root modules' start modes: a least common multiple of at most
    /// 1,000,000 up to each root module, at most 32 starts, 1,024 paths, and 128 positions in each path. Where one is
    /// exceeded it answers the module, what there is (of paths at most 4,294,967,295) and what there may be: the first
    /// module up to which the multiple is too great, and for the other three the last root module. Without root modules
    /// none is. Up to 1,000,000 starts are counted, each in one pass over the root modules.
    pub fn frame_limits(&self) -> Result<(), (u16, u64, u64)>
        ensures kept { OnOk result (frame_limit self.now ≡ None) }
        ensures exceeded { IfErr result (λ e. frame_limit self.now ≡ Some (e.0, (e.1, e.2))) }
    {
        self.keeps_ranges();
        let mut table = [0; MAX_MODULES];
        let count = fill_roots(self, &mut table);
        if count == 0 {
            return Ok(());
        }
        let roots = &table[..count];
        if let Some((unit, multiple)) = too_long(self, roots) {
            return Err((unit, multiple, MAX_FRAME));
        }
        let frame = hyperperiod(self, roots);
        match other_limits(self, roots, frame) {
            Some((have, need)) => Err((roots[count - 1], have, need)),
            None => Ok(()),
        }
    }
}
