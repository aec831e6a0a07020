//! The starts of a frame, and where it ends.
ghost use Rattle.std.specs.Prelude.{◌≡◌, ◌≤◌, ◌<◌, ◌+◌, ◌-◌, ◌*◌, ◌++◌, ◌%◌, ◌^◌, ℕ, suc, [], ◌∷◌, true, None, eqb, min, length, map, take, false};
ghost use Rattle.htl_model.specs.Frames.{unit_period as unit_period_of, begins, gcd_in, common_multiple, multiple_of, starts_below, too_long as too_long_of};

use crate::Tables;
use crate::rounds::unit_period;
use htl_base::Time;

// The first instant after another at which a round of a module begins, or the bound.
fn next_round(t: &Tables, unit: u16, after: Time, bound: Time) -> Time
    requires order { after < bound }
    requires bound { bound ≤ 1000000 }
    ensures later { after < result }
    ensures within { result ≤ bound }
    ensures none { (x : ℕ) → after < x → x < result → eqb (x % unit_period_of t.now unit) 0 ≡ false }
    ensures here { result < bound → eqb (result % unit_period_of t.now unit) 0 ≡ true }
{
    let period = unit_period(t, unit) as Time;
    if period == 0 {
        return bound;
    }
    ((after / period + 1) * period).min(bound)
}

// The first instant after another at which a round begins, or the bound.
fn next_begin(t: &Tables, roots: &[u16], after: Time, bound: Time) -> Time
    requires order { after < bound }
    requires bound { bound ≤ 1000000 }
    ensures later { after < result }
    ensures within { result ≤ bound }
    ensures none { (x : ℕ) → after < x → x < result → begins (map (unit_period_of t.now) roots.now) x ≡ false }
    ensures here { result < bound → begins (map (unit_period_of t.now) roots.now) result ≡ true }
{
    let mut next = bound;
    for k in 0..roots.len() {
        next = next.min(next_round(t, roots[k], after, bound));
    }
    next
}

/// Writes the starts of a frame to the front and its end behind them, and answers how many starts there are.
pub fn fill_starts(t: &Tables, roots: &[u16], frame: Time, out: &mut [Time]) -> usize
    requires some { 0 < length roots.now }
    requires long { 0 < frame }
    requires frame { frame ≤ 1000000 }
    requires few { length (starts_below (map (unit_period_of t.now) roots.now) frame) ≤ 32 }
    requires room { length out.old ≡ 33 }
    ensures starts { take (result + 1) out.new ≡ starts_below (map (unit_period_of t.now) roots.now) frame ++ frame ∷ [] }
    ensures count { result ≡ length (starts_below (map (unit_period_of t.now) roots.now) frame) }
    ensures len { length out.new ≡ 33 }
{
    let mut n = 0;
    let mut at = 0;
    while at < frame {
        out[n] = at;
        n += 1;
        at = next_begin(t, roots, at, frame);
    }
    out[n] = frame;
    n
}

/// How many starts a frame has.
pub fn count_starts(t: &Tables, roots: &[u16], frame: Time) -> u64
    requires some { 0 < length roots.now }
    requires frame { frame ≤ 1000000 }
    ensures { result ≡ length (starts_below (map (unit_period_of t.now) roots.now) frame) }
{
    let mut n = 0u64;
    let mut at = 0;
    while at < frame {
        n += 1;
        at = next_begin(t, roots, at, frame);
    }
    n
}

// The greatest common divisor.
fn gcd(a: u64, b: u64) -> u64
    ensures { result ≡ gcd_in (suc b) a b }
{
    let mut x = a;
    let mut y = b;
    while y != 0 {
        let rest = x % y;
        x = y;
        y = rest;
    }
    x
}

/// The least common multiple of two numbers.
pub fn common(a: u64, b: u64) -> u64
    requires { (a ≤ 1000000) × (b < 2 ^ 32) }
    ensures { result ≡ common_multiple a b }
{
    let divisor = gcd(a, b);
    if divisor == 0 { 0 } else { a / divisor * b }
}

/// The least common multiple of the periods of these modules, where it is small up to each of them.
pub fn hyperperiod(t: &Tables, roots: &[u16]) -> u64
    requires { too_long_of t.now 1 roots.now ≡ None }
    ensures { result ≡ multiple_of 1 (map (unit_period_of t.now) roots.now) }
{
    let mut multiple = 1;
    for k in 0..roots.len() {
        multiple = common(multiple, unit_period(t, roots[k]) as u64);
    }
    multiple
}
