// What precedes what by ports, and the parents of the ports' writers.
ghost use Rattle.std.specs.Prelude.{◌≡◌, ◌≤◌, ◌<◌, ◌+◌, ℕ, false, Option, Some, None, cond, length, get_or, slice_get};
ghost use Rattle.std.specs.List.{list_any};
ghost use Rattle.htl_base.specs.declared.limits.TheConstants as limit;
ghost use Rattle.htl_model.specs.PortWriters.{is_port};
ghost use Rattle.htl_model.specs.First.{or_else};
ghost use Rattle.htl_form.specs.Rows.{IsRangeOf};
ghost use Rattle.htl_model.specs.Bits.{cell};
ghost use Rattle.htl_refine.specs.Refining.{inv_precedes as precedes_of, writer_parent as writer_parent_of};
ghost use Rattle.htl_refine.specs.Orders.{AreRowsBelow, ArePlaces, AreParents, IsPut, IsOrderOf};

use htl_base::limits::{MAX_INVOCATIONS, MAX_MODE_INVOCATIONS, MAX_PORTS};
use htl_form::ranges::count_from;
use htl_form::rows::{clear_writers, fill_rows, fill_writers, through_all};
use htl_model::bits::has_bit;
use htl_model::items::{inv_at, inv_count, mode_count};
use htl_model::{End, Tables};

/// What is noted once over the tables, so that each input is judged in a few steps.
#[derive(Drop)]
pub struct Order {
    /// For each invocation a bit for each one of its mode that precedes it by the ports, by place in the mode.
    pub rows: [u128; MAX_INVOCATIONS],
    /// For each invocation its place in its mode.
    pub places: [u8; MAX_INVOCATIONS],
    /// For each port the parent of the invocation that writes it.
    pub parents: [Option<u16>; MAX_PORTS],
}

// ---- rows

// Writes the first `n` rows to the places from `base` on.
fn put_rows(from: &[u128], base: usize, n: usize, rows: &mut [u128])
    requires from { n ≤ length from.now }
    requires room { base + n ≤ length rows.old }
    ensures put { IsPut base n (λ q. get_or from.now q 0) rows.old rows.new }
    ensures len { length rows.new ≡ length rows.old }
{
    for q in 0..n {
        rows[base + q] = from[q];
    }
}

// Numbers `n` places from `base` on.
fn put_places(base: usize, n: usize, places: &mut [u8])
    requires few { n ≤ limit.MAX_MODE_INVOCATIONS }
    requires room { base + n ≤ length places.old }
    ensures put { IsPut base n (λ q. q) places.old places.new }
    ensures len { length places.new ≡ length places.old }
{
    for q in 0..n {
        places[base + q] = q as u8;
    }
}

// The rows of the `n` invocations of a mode from `base` on, closed. The table of writers is lent: it is empty before and after.
fn mode_rows(t: &Tables, mode: u16, base: usize, n: usize, writers: &mut [u128], rows: &mut [u128])
    requires range { IsRangeOf t.now mode base n }
    requires room { n ≤ length rows.old }
    requires ports { length writers.old ≡ limit.MAX_PORTS }
    requires empty { (p q : ℕ) → cell writers.old p q ≡ false }
    ensures closed { (b a : ℕ) → b < n → a < n → cell rows.new b a ≡ precedes_of t.now (base + a) (base + b) }
    ensures len { length rows.new ≡ length rows.old }
    ensures ports { length writers.new ≡ limit.MAX_PORTS }
    ensures empty { (p q : ℕ) → cell writers.new p q ≡ false }
{
    t.keeps_ranges();
    fill_writers(t, base, n, writers);
    fill_rows(t, mode, base, n, writers, rows);
    clear_writers(t, base, n, writers);
    through_all(rows, n);
}

// The `n` invocations of a mode, from `base` on.
#[derive(Clone, Copy)]
struct ModeRange {
    mode: u16,
    base: usize,
    n: usize,
}

// Notes the rows and places of one mode.
fn note_mode(
    t: &Tables,
    range: ModeRange,
    writers: &mut [u128],
    rows: &mut [u128],
    places: &mut [u8],
)
    requires range { IsRangeOf t.now range.mode range.base range.n }
    requires ports { length writers.old ≡ limit.MAX_PORTS }
    requires empty { (p q : ℕ) → cell writers.old p q ≡ false }
    requires rows { length rows.old ≡ limit.MAX_INVOCATIONS }
    requires places { length places.old ≡ limit.MAX_INVOCATIONS }
    requires before { AreRowsBelow t.now range.mode rows.old places.old }
    requires few { ArePlaces places.old }
    ensures rows { AreRowsBelow t.now (range.mode + 1) rows.new places.new }
    ensures few { ArePlaces places.new }
    ensures len { length rows.new ≡ limit.MAX_INVOCATIONS }
    ensures len_places { length places.new ≡ limit.MAX_INVOCATIONS }
    ensures ports { length writers.new ≡ limit.MAX_PORTS }
    ensures empty { (p q : ℕ) → cell writers.new p q ≡ false }
{
    let ModeRange { mode, base, n } = range;
    t.keeps_ranges();
    let mut room = [0u128; MAX_MODE_INVOCATIONS];
    let closed = &mut room[..n];
    mode_rows(t, mode, base, n, writers, closed);
    put_rows(closed, base, n, rows);
    put_places(base, n, places);
}

// Notes them for all modes.
fn note_modes(t: &Tables, rows: &mut [u128], places: &mut [u8])
    requires rows { length rows.old ≡ limit.MAX_INVOCATIONS }
    requires places { length places.old ≡ limit.MAX_INVOCATIONS }
    requires few { ArePlaces places.old }
    ensures rows { AreRowsBelow t.now limit.MAX_MODES rows.new places.new }
    ensures few { ArePlaces places.new }
{
    t.keeps_ranges();
    let modes = mode_count(t);
    let mut writers = [0u128; MAX_PORTS];
    let mut base = 0;
    for m in 0..modes {
        let mode = m as u16;
        let n = count_from(t, mode, base);
        note_mode(t, ModeRange { mode, base, n }, &mut writers, rows, places);
        base += n;
    }
}

// ---- parents

// Notes the parent at an end that is a port, where none is noted.
fn note_end(end: End, parent: Option<u16>, parents: &mut [Option<u16>])
    ensures says { (p : ℕ) → p < length parents.old → get_or parents.new p None ≡ or_else (get_or parents.old p None) (cond (is_port p end) parent None) }
    ensures len { length parents.new ≡ length parents.old }
{
    if let End::Port { port } = end {
        if (port as usize) < parents.len() && parents[port as usize].is_none() {
            parents[port as usize] = parent;
        }
    }
}

// Notes the parent at the ports among the ends.
fn note_ends(ends: &[End], parent: Option<u16>, parents: &mut [Option<u16>])
    ensures says { (p : ℕ) → p < length parents.old → get_or parents.new p None ≡ or_else (get_or parents.old p None) (cond (list_any (is_port p) ends.now) parent None) }
    ensures len { length parents.new ≡ length parents.old }
{
    for k in 0..ends.len() {
        let end = ends[k];
        note_end(end, parent, parents);
    }
}

// Notes for each port the parent of the first invocation with one that writes it.
fn note_parents(t: &Tables, parents: &mut [Option<u16>])
    requires none { (p : ℕ) → get_or parents.old p None ≡ None }
    requires len { length parents.old ≡ limit.MAX_PORTS }
    ensures { AreParents t.now parents.new }
{
    let count = inv_count(t);
    for k in 0..count {
        let inv = inv_at(t, k);
        note_ends(inv.writes.as_slice(), inv.parent, parents);
    }
}

impl Order {
    /// The order of these tables.
    pub fn of(t: &Tables) -> Order
        ensures { IsOrderOf t.now result }
    {
        let mut order = Order {
            rows: [0; MAX_INVOCATIONS],
            places: [0; MAX_INVOCATIONS],
            parents: [None; MAX_PORTS],
        };
        note_modes(t, &mut order.rows, &mut order.places);
        note_parents(t, &mut order.parents);
        order
    }
}

/// Whether an invocation precedes another by the ports.
pub fn precedes(t: &Tables, order: &Order, a: u16, b: u16) -> bool
    requires { IsOrderOf t.now order.now }
    ensures { result ≡ precedes_of t.now a b }
{
    t.keeps_ranges();
    let count = inv_count(t);
    if a as usize >= count {
        return false;
    }
    if b as usize >= count {
        return false;
    }
    if inv_at(t, a as usize).mode != inv_at(t, b as usize).mode {
        return false;
    }
    has_bit(order.rows[b as usize], order.places[a as usize] as u32)
}

/// The parent of an invocation that writes the port.
pub fn writer_parent(t: &Tables, order: &Order, port: u16) -> Option<u16>
    requires { IsOrderOf t.now order.now }
    ensures { result ≡ writer_parent_of t.now port }
{
    t.keeps_ranges();
    if (port as usize) < order.parents.len() {
        order.parents[port as usize]
    } else {
        None
    }
}
