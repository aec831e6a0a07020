// Whether the root modules have one period.
ghost use Rattle.std.specs.Prelude.{◌≡◌, ◌↔◌, true, eqb};
ghost use Rattle.std.specs.List.{list_all};
ghost use Rattle.htl_model.specs.Frames.{unit_period as unit_period_of};
ghost use Rattle.htl_walk.specs.EqualPeriods.{RootsHaveOnePeriod};

use htl_base::limits::MAX_MODULES;
use htl_model::Tables;
use htl_model::rounds::{fill_roots, unit_period};

// Whether these modules have the period, in ticks.
fn all_have(t: &Tables, period: u32, roots: &[u16]) -> bool
    ensures { result ≡ list_all (λ u. eqb (unit_period_of t.now u) period) roots.now }
{
    roots.iter().all(|unit| unit_period(t, *unit) == period)
}

/// Whether there is a period that all root modules have; so it is without root modules. One pass over the modules.
pub fn roots_have_one_period(t: &Tables) -> bool
    ensures { result ≡ true ↔ RootsHaveOnePeriod t.now }
{
    t.keeps_ranges();
    let mut table = [0; MAX_MODULES];
    let count = fill_roots(t, &mut table);
    if count == 0 {
        return true;
    }
    all_have(t, unit_period(t, table[0]), &table[..count])
}
