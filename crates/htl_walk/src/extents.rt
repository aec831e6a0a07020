// Where the modes of each module and the invocations of each mode stand, so that those of a path are met without a pass
// over all of them for each of its rounds.
ghost use Rattle.std.specs.Prelude.{◌≡◌, ◌≤◌, ◌<◌, ◌+◌, ◌++◌, ℕ, [], length, take, get_or};
ghost use Rattle.htl_model.specs.Frames.{choices as choices_of, places_of, places_in};
ghost use Rattle.htl_model.specs.Selections.{modes_of, invs_of, mode_of_module, inv_of_mode};
ghost use Rattle.htl_walk.specs.Extents.{Stand, no_items, widened as widened_of, AreExtents};

use htl_base::Time;
use htl_base::limits::{MAX_MODES, MAX_MODULES};
use htl_model::Tables;
use htl_model::frame::{Place, Round};

/// Some items of a list.
#[derive(Clone, Copy)]
pub struct Extent {
    /// They stand from this place on.
    pub first: usize,
    /// They stand before this place.
    pub end: usize,
    /// How many there are.
    pub count: u32,
}

/// Where the modes of each module stand, and the invocations of each mode.
#[derive(Clone, Copy)]
pub struct Extents {
    pub modes: [Extent; MAX_MODULES],
    pub invs: [Extent; MAX_MODES],
}

impl Extent {
    /// No items.
    pub const NONE: Extent = Extent {
        first: 0,
        end: 0,
        count: 0,
    };
}

// The items with the one at place `k`, which stands behind them.
fn widened(items: Extent, k: usize) -> Extent
    requires place { k < 65535 }
    requires few { items.count ≤ k }
    ensures { result ≡ widened_of k items }
{
    Extent {
        first: if items.end == 0 { k } else { items.first },
        end: k + 1,
        count: items.count + 1,
    }
}

// Where the modes of each module stand.
fn mode_extents(t: &Tables) -> [Extent; MAX_MODULES]
    ensures { (u : ℕ) → Stand (mode_of_module u) (length t.now.modes) [] (get_or result u no_items) t.now.modes }
{
    t.keeps_ranges();
    let modes = t.parts().modes.as_slice();
    let mut table = [Extent::NONE; MAX_MODULES];
    for k in 0..modes.len() {
        let owner = modes[k].module as usize;
        table[owner] = widened(table[owner], k);
    }
    table
}

// Where the invocations of each mode stand.
fn inv_extents(t: &Tables) -> [Extent; MAX_MODES]
    ensures { (m : ℕ) → Stand (inv_of_mode m) (length t.now.invs) [] (get_or result m no_items) t.now.invs }
{
    t.keeps_ranges();
    let invs = t.parts().invs.as_slice();
    let mut table = [Extent::NONE; MAX_MODES];
    for k in 0..invs.len() {
        let owner = invs[k].mode as usize;
        table[owner] = widened(table[owner], k);
    }
    table
}

impl Extents {
    /// Those of the tables. One pass over the modes, and one over the invocations.
    pub fn survey(t: &Tables) -> Extents
        ensures { AreExtents t.now result }
    {
        Extents {
            modes: mode_extents(t),
            invs: inv_extents(t),
        }
    }
}

// The extent with a number; that of no items where there is none.
fn extent_at(table: &[Extent], n: u16) -> Extent
    ensures { result ≡ get_or table.now n no_items }
{
    if (n as usize) < table.len() {
        table[n as usize]
    } else {
        Extent::NONE
    }
}

// A mode of a module, whose modes stand there, by its place among them; 0 where there is none.
fn mode_at(t: &Tables, modes: Extent, module: u16, place: u32) -> u16
    requires { Stand (mode_of_module «module») (length t.now.modes) [] modes t.now.modes }
    ensures { result ≡ get_or (modes_of t.now «module») place 0 }
{
    t.keeps_ranges();
    let list = t.parts().modes.as_slice();
    let mut left = place;
    for k in modes.first..modes.end {
        if list[k].module == module {
            if left == 0 {
                return k as u16;
            }
            left -= 1;
        }
    }
    0
}

// Writes the positions of a round in a mode, whose invocations stand there, to the places from `n` on: the place behind
// the last.
fn put_round(t: &Tables, invs: Extent, mode: u16, at: Time, out: &mut [Place], n: usize) -> usize
    requires stand { Stand (inv_of_mode mode) (length t.now.invs) [] invs t.now.invs }
    requires room { n + length (places_of at (invs_of t.now mode)) ≤ length out.old }
    ensures front { take result out.new ≡ take n out.old ++ places_of at (invs_of t.now mode) }
    ensures count { result ≡ n + length (places_of at (invs_of t.now mode)) }
    ensures len { length out.new ≡ length out.old }
{
    t.keeps_ranges();
    let list = t.parts().invs.as_slice();
    let mut end = n;
    for k in invs.first..invs.end {
        if list[k].mode == mode {
            out[end] = Place {
                inv: Some(k as u16),
                at,
            };
            end += 1;
        }
    }
    end
}

/// Writes the positions of the rounds of a path to the front, and answers how many there are. The path is a number below
/// `paths`, the choices for all of the rounds.
pub fn put_path(
    t: &Tables,
    extents: &Extents,
    rounds: &[Round],
    paths: u32,
    path: u32,
    out: &mut [Place],
) -> usize
    requires extents { AreExtents t.now extents.now }
    requires paths { paths ≡ choices_of t.now rounds.now }
    requires some { 0 < paths }
    requires room { length (places_in t.now path rounds.now) ≤ length out.old }
    ensures places { take result out.new ≡ places_in t.now path rounds.now }
    ensures count { result ≡ length (places_in t.now path rounds.now) }
    ensures len { length out.new ≡ length out.old }
{
    let mut behind = paths;
    let mut n = 0;
    for k in 0..rounds.len() {
        let modes = extent_at(&extents.modes, rounds[k].unit);
        behind /= modes.count;
        let mode = mode_at(t, modes, rounds[k].unit, path / behind % modes.count);
        n = put_round(
            t,
            extent_at(&extents.invs, mode),
            mode,
            rounds[k].at,
            out,
            n,
        );
    }
    n
}
