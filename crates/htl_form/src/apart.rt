// Which invocations write nothing that an earlier concrete invocation writes.
ghost use Rattle.std.specs.Prelude.{◌≡◌, ◌≤◌, ◌<◌, ◌+◌, ℕ, true, false, eqb, length, get_or, slice_get, Some};
ghost use Rattle.std.specs.List.{IsDistinct};
ghost use Rattle.htl_form.specs.Apart.{keys_from, IsApart, AreApart};
ghost use Rattle.htl_form.specs.Owners.{AreOwners, AreNoted};
ghost use Rattle.htl_form.specs.Rows.{IsRangeOf};

use crate::instances::{MOST_WRITES, are_written_once};
use crate::owners::{Owner, note_owners, writes_shared};
use crate::ranges::count_from;
use crate::taken::{mark_taken, some_taken};
use htl_base::limits::MAX_COMMUNICATORS;
use htl_model::Tables;
use htl_model::items::{inv_at, mode_count};
use htl_model::lookup::mode_module;

// The invocations of a mode: the `count` from `base` on.
#[derive(Clone, Copy)]
struct Run {
    mode: u16,
    base: usize,
    count: usize,
}

// Marks at least those communicators that the mode writes and that concrete invocations of earlier modes write which can
// stand together with it. Where all of its communicators are written by its module alone, there are none.
fn note_taken(t: &Tables, run: Run, owners: &[Owner], taken: &mut [bool])
    requires range { IsRangeOf t.now run.mode run.base run.count }
    requires owners { AreOwners t.now run.base owners.now }
    requires len { length taken.old ≡ 1024 }
    requires empty { (c : ℕ) → get_or taken.old c false ≡ false }
    ensures noted { AreNoted t.now run.mode run.base run.count taken.new }
    ensures len { length taken.new ≡ length taken.old }
{
    t.keeps_ranges();
    let module = mode_module(t, run.mode);
    if writes_shared(t, run.base, run.count, module, owners) {
        mark_taken(t, run.mode, run.base, taken);
    }
}

// Whether the invocation `q` of a mode writes nothing that an earlier one does. Where the whole mode writes no instance twice,
// neither do those up to it.
fn is_apart(t: &Tables, run: Run, q: usize, taken: &[bool], once: bool, room: &mut [u32]) -> bool
    requires range { IsRangeOf t.now run.mode run.base run.count }
    requires within { q < run.count }
    requires noted { AreNoted t.now run.mode run.base run.count taken.now }
    requires once { once ≡ true → IsDistinct eqb (keys_from t.now run.base run.count) }
    requires room { length room.old ≡ 32768 }
    ensures apart { result ≡ true → IsApart t.now (run.base + q) }
    ensures room { length room.new ≡ 32768 }
{
    t.keeps_ranges();
    let inv = inv_at(t, run.base + q);
    if some_taken(inv.writes.as_slice(), taken) {
        return false;
    }
    once || are_written_once(t, run.base, q + 1, room)
}

// Marks those invocations of a mode that are apart, and answers whether the mode writes each instance once.
fn mark_mode(t: &Tables, run: Run, owners: &[Owner], room: &mut [u32], marks: &mut [bool]) -> bool
    requires range { IsRangeOf t.now run.mode run.base run.count }
    requires owners { AreOwners t.now run.base owners.now }
    requires room { run.base + run.count ≤ length marks.old }
    requires marks { AreApart t.now marks.old }
    requires keys { length room.old ≡ 32768 }
    ensures apart { AreApart t.now marks.new }
    ensures len { length marks.new ≡ length marks.old }
    ensures keys { length room.new ≡ 32768 }
{
    let mut taken = [false; MAX_COMMUNICATORS];
    note_taken(t, run, owners, &mut taken);
    let once = are_written_once(t, run.base, run.count, room);
    for q in 0..run.count {
        marks[run.base + q] = is_apart(t, run, q, &taken, once, room);
    }
    once
}

/// Marks invocations that are apart: all, up to the first mode that writes an instance twice. The invocations of earlier modes
/// are gone over again for those modes alone that write what another module writes.
pub fn mark_apart(t: &Tables, marks: &mut [bool])
    requires room { length t.now.invs ≤ length marks.old }
    requires marks { AreApart t.now marks.old }
    ensures { AreApart t.now marks.new }
{
    t.keeps_ranges();
    let modes = mode_count(t);
    let mut owners = [Owner::Nobody; MAX_COMMUNICATORS];
    let mut room = [0u32; MOST_WRITES];
    let mut base = 0;
    for m in 0..modes {
        let mode = m as u16;
        let count = count_from(t, mode, base);
        if !mark_mode(t, Run { mode, base, count }, &owners, &mut room, marks) {
            return;
        }
        note_owners(t, base, count, &mut owners);
        base += count;
    }
}
