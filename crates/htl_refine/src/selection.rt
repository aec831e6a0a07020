// Selections of running modes.
ghost use Rattle.std.specs.Prelude.{◌≡◌, ◌≤◌, length};
ghost use Rattle.std.specs.Bool.{Decides};
ghost use Rattle.htl_model.specs.Selected.{is_mode_of as is_mode_of_of, is_active as is_active_of, is_entry as is_entry_of, are_entries as are_entries_of, is_selection as is_selection_of, IsSelection};

use htl_base::Seq;
use htl_model::Tables;
use htl_model::choice::{entry, is_running};

/// The modes in which the modules are.
#[derive(Drop)]
pub struct Selection {
    /// One entry for each module: the mode in which it is; None where it is inactive.
    pub modes: Seq<Option<u16>>,
}

// Whether a mode is one of a module.
fn is_mode_of(t: &Tables, module: u16, mode: u16) -> bool
    ensures { result ≡ is_mode_of_of t.now «module» mode }
{
    let modes = t.parts().modes.as_slice();
    (mode as usize) < modes.len() && modes[mode as usize].module == module
}

// Whether a module with this parent is active: a root module, or one whose refined mode runs.
fn is_active(t: &Tables, modes: &[Option<u16>], parent: Option<u16>) -> bool
    ensures { result ≡ is_active_of t.now modes.now parent }
{
    match parent {
        Some(p) => is_running(t, modes, p),
        None => true,
    }
}

// Whether the entry of a module is right.
fn is_entry(
    t: &Tables,
    modes: &[Option<u16>],
    module: u16,
    parent: Option<u16>,
    mode: Option<u16>,
) -> bool
    ensures { result ≡ is_entry_of t.now modes.now «module» parent mode }
{
    match mode {
        Some(m) => is_mode_of(t, module, m) && is_active(t, modes, parent),
        None => !is_active(t, modes, parent),
    }
}

// Whether all entries are right.
fn are_entries(t: &Tables, modes: &[Option<u16>]) -> bool
    ensures { result ≡ are_entries_of t.now modes.now 0 t.now.modules }
{
    let modules = t.parts().modules.as_slice();
    for u in 0..modules.len() {
        if !is_entry(
            t,
            modes,
            u as u16,
            modules[u].parent,
            entry(modes, u as u16),
        ) {
            return false;
        }
    }
    true
}

// Whether there are as many entries as modules, and all are right.
fn is_right(t: &Tables, modes: &[Option<u16>]) -> bool
    ensures { result ≡ is_selection_of t.now modes.now }
{
    modes.len() == t.parts().modules.as_slice().len() && are_entries(t, modes)
}

/// Whether there is one entry for each module, each active module is in a mode of its own, and a module is active exactly where it
/// is a root module or the mode that it refines runs.
pub fn is_selection(t: &Tables, s: &Selection) -> bool
    ensures { Decides result (IsSelection t.now s.now.modes) }
{
    is_right(t, s.modes.as_slice())
}
