// The two programs side by side: items of the donor have the numbers behind the host's.
ghost use Rattle.std.specs.Prelude.{◌≡◌, ◌<◌, ◌≤◌, length, option_map};
ghost use Rattle.htl_model.specs.Selected.{is_at};
ghost use Rattle.htl_patch.specs.Patched.{refines as refines_of};
ghost use Rattle.htl_patch.specs.Renumbered.{module_at, mode_at};
ghost use Rattle.htl_model.specs.Ranges.{AreInRange};
ghost use Rattle.htl_model.specs.Selections.{mode_of_module};
ghost use Rattle.htl_patch.specs.Combined.{combined, refined_mode};

use htl_model::Tables;
use std::marker::Model;

/// The mode of the host whose refinement is replaced, and the mode of the donor whose refinement takes its place.
#[derive(Drop)]
pub(crate) struct Replacement<'a> {
    pub host: &'a Tables,
    pub donor: &'a Tables,
    pub patched_mode: u16,
    pub replacing_mode: u16,
}

impl<'a> Model for Replacement<'a> {
    ghost use Rattle.htl_model.specs.contracts.tables.Tables as tables_row;
    ghost use Rattle.htl_patch.specs.Combined.{Replacement};
    ghost use Rattle.std.specs.Coded.{codes};

    ghost Value = { Replacement };

    ghost coded = { Prim.hlevel (codes, tables_row.the_row.coded) };

    ghost view = { λ g. record { host = g.host.now; donor = g.donor.now; patched_mode = g.patched_mode; replacing_mode = g.replacing_mode } };
}

impl<'a> Replacement<'a> {
    /// Both programs are in range; there is nothing to do.
    pub(crate) fn keeps_ranges(&self)
        ensures host { AreInRange self.now.host }
        ensures donor { AreInRange self.now.donor }
    {
        self.host.keeps_ranges();
        self.donor.keeps_ranges();
    }
}

/// How many modules there are in both.
pub(crate) fn module_count(g: &Replacement<'_>) -> usize
    ensures count { result ≡ length (combined g.now).modules }
    ensures few { result ≤ 128 }
{
    g.keeps_ranges();
    g.host.parts().modules.as_slice().len() + g.donor.parts().modules.as_slice().len()
}

/// How many modes there are in both.
pub(crate) fn mode_count(g: &Replacement<'_>) -> usize
    ensures count { result ≡ length (combined g.now).modes }
    ensures few { result ≤ 512 }
{
    g.keeps_ranges();
    g.host.parts().modes.as_slice().len() + g.donor.parts().modes.as_slice().len()
}

/// The mode that a module of the donor refines, by the mode that it refines there.
pub(crate) fn refined(g: &Replacement<'_>, p: u16) -> usize
    ensures { result ≡ refined_mode g.now p }
{
    if p == g.replacing_mode {
        g.patched_mode as usize
    } else {
        g.host.parts().modes.as_slice().len() + p as usize
    }
}

fn is_refined(g: &Replacement<'_>, parent: Option<u16>, m: usize) -> bool
    ensures { result ≡ is_at (option_map (refined_mode g.now) parent) m }
{
    match parent {
        Some(p) => refined(g, p) == m,
        None => false,
    }
}

fn is_parent(parent: Option<u16>, m: usize) -> bool
    ensures { result ≡ is_at parent m }
{
    match parent {
        Some(p) => p as usize == m,
        None => false,
    }
}

/// Whether a module is of the refinement of a mode.
pub(crate) fn refines(g: &Replacement<'_>, x: usize, m: usize) -> bool
    requires { x < length (combined g.now).modules }
    ensures { result ≡ refines_of m (module_at (combined g.now) x) }
{
    let modules = g.host.parts().modules.as_slice();
    if x < modules.len() {
        return is_parent(modules[x].parent, m);
    }
    let behind = g.donor.parts().modules.as_slice();
    is_refined(g, behind[x - modules.len()].parent, m)
}

/// Whether a mode is one of a module.
pub(crate) fn is_mode_of(g: &Replacement<'_>, m: usize, u: u16) -> bool
    requires { m < length (combined g.now).modes }
    ensures { result ≡ mode_of_module u (mode_at (combined g.now) m) }
{
    let modes = g.host.parts().modes.as_slice();
    if m < modes.len() {
        return modes[m].module == u;
    }
    let behind = g.donor.parts().modes.as_slice();
    g.host.parts().modules.as_slice().len() + behind[m - modes.len()].module as usize == u as usize
}
