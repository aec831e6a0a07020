// How many positions paths have, by the invocations of each mode, which are counted once.
ghost use Rattle.std.specs.Prelude.{◌≡◌, ◌≤◌, ◌<◌, ℕ, length, get_or};
ghost use Rattle.htl_model.specs.Frames.{most_invs, paths};
ghost use Rattle.htl_model.specs.FrameTables.{IsFrame};
ghost use Rattle.htl_model.specs.Selections.{invs_of, modes_of};
ghost use Rattle.htl_top.specs.Checked.{most_positions_below as most_positions_of};

use htl_base::limits::MAX_MODES;
use htl_model::Tables;
use htl_model::frame::Frame;
use htl_model::items::count_invs;

// The greatest number of invocations in a mode of a module.
fn widest(t: &Tables, counts: &[usize], unit: u16) -> usize
    requires few { length t.now.modes ≤ length counts.now }
    requires counts { (m : ℕ) → m < length counts.now → get_or counts.now m 0 ≡ length (invs_of t.now m) }
    ensures { result ≡ most_invs t.now (modes_of t.now unit) }
{
    let modes = t.parts().modes.as_slice();
    let mut most = 0;
    for k in 0..modes.len() {
        if modes[k].module == unit {
            most = most.max(counts[k]);
        }
    }
    most
}

/// The greatest number of positions of a path; 0 without one: in each round the mode with the most invocations. One pass over the
/// invocations, and for each round one over the modes.
pub(crate) fn most_positions(t: &Tables, f: &Frame) -> usize
    requires { IsFrame t.now f.now }
    ensures { result ≡ most_positions_of t.now (paths t.now) }
{
    t.keeps_ranges();
    let mut counts = [0usize; MAX_MODES];
    count_invs(t.parts().invs.as_slice(), &mut counts);
    let mut n = 0;
    for k in 0..f.round_count {
        n += widest(t, &counts, f.rounds[k].unit);
    }
    n
}
