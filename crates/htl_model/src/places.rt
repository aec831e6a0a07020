//! The positions of a path through a frame.
ghost use Rattle.std.specs.Prelude.{◌≡◌, ◌≤◌, ◌<◌, ◌+◌, ◌-◌, ◌++◌, Some, ◌%◌, ◌&&◌, eqb, length, take};
ghost use Rattle.htl_base.specs.declared.limits.TheConstants as limit;
ghost use Rattle.htl_model.specs.Frames.{choices as choices_of, places_of, places_in, known_by as known_by_of, mode_from as mode_from_of};
ghost use Rattle.htl_model.specs.Selections.{invs_of};

use crate::Tables;
use crate::frame::{Place, Round};
use crate::lookup::lists;
use crate::selections::{mode_at, mode_count};
use htl_base::Time;

/// How many positions have begun by an instant.
pub fn known_by(places: &[Place], at: Time) -> usize
    ensures known { result ≡ known_by_of at places.now }
    ensures few { result ≤ length places.now }
{
    let mut n = 0;
    for k in 0..places.len() {
        if places[k].at <= at {
            n += 1;
        }
    }
    n
}

/// Writes the positions of a round in a mode to the places from `n` on: the place behind the last.
pub fn put_places(t: &Tables, mode: u16, at: Time, out: &mut [Place], n: usize) -> usize
    requires few { length t.now.invs ≤ limit.MAX_INVOCATIONS }
    requires room { n + length (places_of at (invs_of t.now mode)) ≤ length out.old }
    ensures front { take result out.new ≡ take n out.old ++ places_of at (invs_of t.now mode) }
    ensures count { result ≡ n + length (places_of at (invs_of t.now mode)) }
    ensures len { length out.new ≡ length out.old }
{
    let invs = lists(t).invs.as_slice();
    let mut end = n;
    for k in 0..invs.len() {
        if invs[k].mode == mode {
            out[end] = Place {
                inv: Some(k as u16),
                at,
            };
            end += 1;
        }
    }
    end
}

/// Writes the positions of the rounds of a path to the front, and answers how many there are. The path is a number below
/// `paths`, the choices for all of the rounds.
pub fn fill_places(t: &Tables, rounds: &[Round], paths: u32, path: u32, out: &mut [Place]) -> usize
    requires modes { length t.now.modes ≤ limit.MAX_MODES }
    requires invs { length t.now.invs ≤ limit.MAX_INVOCATIONS }
    requires paths { paths ≡ choices_of t.now rounds.now }
    requires some { 0 < paths }
    requires room { length (places_in t.now path rounds.now) ≤ length out.old }
    ensures places { take result out.new ≡ places_in t.now path rounds.now }
    ensures count { result ≡ length (places_in t.now path rounds.now) }
    ensures len { length out.new ≡ length out.old }
{
    let mut behind = paths;
    let mut n = 0;
    for k in 0..rounds.len() {
        let count = mode_count(t, rounds[k].unit);
        behind /= count;
        let mode = mode_at(t, rounds[k].unit, path / behind % count);
        n = put_places(t, mode, rounds[k].at, out, n);
    }
    n
}

// Whether a round is that of a module that begins at an instant.
fn is_round(round: Round, unit: u16, at: Time) -> bool
    ensures { result ≡ (eqb round.unit unit && eqb round.at at) }
{
    round.unit == unit && round.at == at
}

/// The mode of the round of a module that begins at an instant, in a path; 0 where there is none.
pub fn mode_from(t: &Tables, rounds: &[Round], paths: u32, path: u32, unit: u16, at: Time) -> u16
    requires modes { length t.now.modes ≤ limit.MAX_MODES }
    requires paths { paths ≡ choices_of t.now rounds.now }
    requires some { 0 < paths }
    ensures { result ≡ mode_from_of t.now path unit at rounds.now }
{
    let mut behind = paths;
    for k in 0..rounds.len() {
        let count = mode_count(t, rounds[k].unit);
        behind /= count;
        if is_round(rounds[k], unit, at) {
            return mode_at(t, rounds[k].unit, path / behind % count);
        }
    }
    0
}
