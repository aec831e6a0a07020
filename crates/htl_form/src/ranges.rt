//! How many invocations of each mode stand in the list, mode by mode.
ghost use Rattle.std.specs.Prelude.{◌+◌};
ghost use Rattle.htl_form.specs.Rows.{IsRangeOf};
ghost use Rattle.htl_model.specs.Starts.{IsStartOf};

use htl_model::Tables;
use htl_model::items::next_start;

/// How many invocations a mode has, whose first has number `base`: as many steps.
pub fn count_from(t: &Tables, mode: u16, base: usize) -> usize
    requires { IsStartOf t.now mode base }
    ensures range { IsRangeOf t.now mode base result }
    ensures next { IsStartOf t.now (mode + 1) (base + result) }
{
    t.keeps_ranges();
    next_start(t, mode, base) - base
}
