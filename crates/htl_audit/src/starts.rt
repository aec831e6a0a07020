// When rounds begin: those of each root module at the multiples of its own period.
ghost use Rattle.std.specs.Prelude.{◌≡◌, ◌≤◌, ◌<◌, ◌%◌, ℕ, Some, All, map, take, length, eqb};
ghost use Rattle.htl_base.specs.declared.limits.TheConstants as limit;
ghost use Rattle.htl_model.specs.Frames.{unit_period as unit_period_of};
ghost use Rattle.htl_model.specs.Selections.{root_modules};
ghost use Rattle.htl_audit.specs.Auditing.{IsNextIn, IsNextStart, sooner as sooner_of};
ghost use Rattle.htl_audit.specs.Keeping.{begins_round as begins_round_of};

use htl_base::Time;
use htl_base::limits::MAX_MODULES;
use htl_model::Tables;
use htl_model::lookup::mode_period;
use htl_model::rounds::{fill_roots, unit_period};

// The first multiple of a period from an instant on.
fn next_multiple(at: Time, period: Time) -> Time
    requires some { 1 ≤ period }
    requires small { period ≤ 1000000 }
    requires at { at ≤ 1000000000 }
    ensures low { at ≤ result }
    ensures whole { result % period ≡ 0 }
    ensures first { (n : ℕ) → at ≤ n → n < result → n % period ≡ 0 → ⊥ }
{
    let over = at % period;
    if over == 0 { at } else { at + (period - over) }
}

// The sooner of two instants, of which there may be only the second.
fn sooner(next: Option<Time>, at: Time) -> Time
    ensures { result ≡ sooner_of next at }
{
    match next {
        Some(n) => n.min(at),
        None => at,
    }
}

// The first instant from `at` on at which a round of one of these modules begins; none where there is none of them.
fn next_of(t: &Tables, roots: &[u16], at: Time) -> Option<Time>
    requires periods { All (λ u. (1 ≤ unit_period_of t.now u) × (unit_period_of t.now u ≤ 1000000)) roots.now }
    requires at { at ≤ 1000000000 }
    ensures { IsNextIn (map (unit_period_of t.now) roots.now) at result }
{
    let mut next = None;
    for k in 0..roots.len() {
        let period = unit_period(t, roots[k]) as Time;
        next = Some(sooner(next, next_multiple(at, period)));
    }
    next
}

/// The first instant from `at` on, in ticks, at which rounds begin: the least next multiple of a root module's period. None without
/// modules.
pub fn next_start(t: &Tables, at: Time) -> Option<Time>
    requires at { at ≤ 1000000000 }
    ensures { IsNextStart t.now at result }
{
    t.keeps_ranges();
    let mut roots = [0u16; MAX_MODULES];
    let count = fill_roots(t, &mut roots);
    next_of(t, &roots[..count], at)
}

/// Whether a round of an invocation begins at an instant, in ticks, where it stands: the period of its mode divides the instant.
pub fn begins_round(t: &Tables, at: Time, i: usize) -> bool
    requires { i < length t.now.invs }
    ensures { result ≡ begins_round_of t.now at i }
{
    let period = mode_period(t, t.parts().invs.as_slice()[i].mode) as Time;
    if period == 0 {
        at == 0
    } else {
        at % period == 0
    }
}
