// The root selection to which a selection of running modes belongs.
ghost use Rattle.std.specs.Prelude.{◌≡◌, ◌≤◌, ◌<◌, length};
ghost use Rattle.htl_model.specs.Broken.{KeepsLimits};
ghost use Rattle.htl_model.specs.Selections.{modes_of, selection_count};
ghost use Rattle.htl_refine.specs.ConcreteJobs.{IsOfSelection};
ghost use Rattle.htl_refine.specs.Roots.{place_among, entry_place as entry_place_of, selection_of as selection_of_of};
ghost use Rattle.htl_model.specs.Selected.{IsSelection};

use crate::begun::begun_choice;
use crate::selection::Selection;
use htl_model::Tables;
use htl_model::choice::entry;

// The place of a mode among those of a module.
fn mode_place(t: &Tables, module: u16, mode: u16) -> u32
    ensures value { result ≡ place_among mode (modes_of t.now «module») }
    ensures few { result ≤ 256 }
{
    let modes = t.parts().modes.as_slice();
    let mut n = 0u32;
    for k in 0..modes.len() {
        if modes[k].module == module {
            if k as u16 == mode {
                return n;
            }
            n += 1;
        }
    }
    n
}

// The place of a module's mode among its modes.
pub(crate) fn entry_place(t: &Tables, modes: &[Option<u16>], module: u16) -> u32
    ensures value { result ≡ entry_place_of t.now modes.now «module» }
    ensures few { result ≤ 256 }
{
    match entry(modes, module) {
        Some(m) => mode_place(t, module, m),
        None => 0,
    }
}

/// The number of the root selection in whose modes the root modules are. There is a module.
pub fn selection_of(t: &Tables, s: &Selection) -> u32
    requires selection { IsSelection t.now s.now.modes }
    requires limits { KeepsLimits t.now }
    requires some { 0 < length t.now.modules }
    ensures value { result ≡ selection_of_of t.now s.now.modes }
    ensures below { result < selection_count t.now }
    ensures roots { IsOfSelection t.now result s.now.modes }
{
    t.keeps_ranges();
    begun_choice(t, s, 0)
}
