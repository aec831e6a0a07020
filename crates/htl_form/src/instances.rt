// The instances that the concrete invocations of a mode write, and whether any is written twice.
ghost use Rattle.std.specs.Prelude.{◌≡◌, ◌≤◌, ◌<◌, ◌+◌, ◌*◌, ◌↔◌, IsTrue, eqb, length, Some};
ghost use Rattle.std.specs.List.{IsDistinct};
ghost use Rattle.std.specs.List.Sorted.{IsStrictlyIncreasing};
ghost use Rattle.htl_form.specs.Apart.{instance_of, AreNear, end_keys, keys_in, inv_keys, keys_from, IsFilled};

use htl_base::limits::{MAX_ENDS, MAX_MODE_INVOCATIONS};
use htl_model::items::inv_at;
use htl_model::lookup::is_concrete;
use htl_model::{End, Inv, Tables};

/// As many instances as the invocations of a mode can write.
pub const MOST_WRITES: usize = MAX_MODE_INVOCATIONS * MAX_ENDS;

// Adds an end to the first `len` keys, where it is an instance, and answers how many there are then.
fn add_end(end: End, keys: &mut [u32], len: usize) -> usize
    requires room { len < length keys.old }
    requires near { instance_of end ≤ 1000000 }
    ensures filled { IsFilled keys.old len keys.new result (end_keys end) }
    ensures few { result ≤ len + 1 }
{
    match end {
        End::Comm { comm, instance } => {
            keys[len] = instance * 1024 + comm as u32;
            len + 1
        }
        End::Port { .. } => len,
    }
}

fn add_ends(ends: &[End], keys: &mut [u32], len: usize) -> usize
    requires room { len + length ends.now ≤ length keys.old }
    requires near { AreNear ends.now }
    ensures filled { IsFilled keys.old len keys.new result (keys_in ends.now) }
    ensures few { result ≤ len + length ends.now }
{
    let mut n = len;
    for k in 0..ends.len() {
        n = add_end(ends[k], keys, n);
    }
    n
}

fn add_inv(t: &Tables, inv: &Inv, keys: &mut [u32], len: usize) -> usize
    requires room { len + length inv.now.writes ≤ length keys.old }
    requires near { AreNear inv.now.writes }
    ensures filled { IsFilled keys.old len keys.new result (inv_keys t.now (Some inv.now)) }
    ensures few { result ≤ len + length inv.now.writes }
{
    if is_concrete(t, inv) {
        add_ends(inv.writes.as_slice(), keys, len)
    } else {
        len
    }
}

// What the `n` invocations from `base` on write, in the first keys; answers how many they are.
fn collect(t: &Tables, base: usize, n: usize, keys: &mut [u32]) -> usize
    requires within { base + n ≤ length t.now.invs }
    requires room { n * 256 ≤ length keys.old }
    ensures { IsFilled keys.old 0 keys.new result (keys_from t.now base n) }
{
    t.keeps_ranges();
    let mut len = 0;
    for q in 0..n {
        let inv = inv_at(t, base + q);
        len = add_inv(t, inv, keys, len);
    }
    len
}

// Whether each key is above the one before it.
fn is_rising(keys: &[u32]) -> bool
    ensures { IsTrue result ↔ IsStrictlyIncreasing keys.now }
{
    for k in 1..keys.len() {
        if keys[k] <= keys[k - 1] {
            return false;
        }
    }
    true
}

// Whether no key is there twice.
fn are_different(keys: &mut [u32]) -> bool
    ensures { IsTrue result ↔ IsDistinct eqb keys.old }
{
    keys.sort_unstable();
    is_rising(keys)
}

/// Whether the concrete ones of the `n` invocations from `base` on, at most 128, write no instance twice: n log n steps
/// in the number of their outputs. The room for these is lent, and what it holds means nothing.
pub fn are_written_once(t: &Tables, base: usize, n: usize, room: &mut [u32]) -> bool
    requires within { base + n ≤ length t.now.invs }
    requires few { n ≤ 128 }
    requires room { length room.old ≡ 32768 }
    ensures once { IsTrue result ↔ IsDistinct eqb (keys_from t.now base n) }
    ensures room { length room.new ≡ 32768 }
{
    let len = collect(t, base, n, room);
    are_different(&mut room[..len])
}
