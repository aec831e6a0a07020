// What names in the input of a plan mean.
ghost use Rattle.std.specs.Prelude.{◌≡◌, ◌<◌, length, IfSome};
ghost use Rattle.std.specs.List.{position_from};
ghost use Rattle.htl_model.specs.Ranges.{parent_of as parent_of_of};
ghost use Rattle.htl_model.specs.Selected.{is_active as is_active_of};
ghost use Rattle.htl_plan.specs.SelectionInput.{module_is_named as has_name_of, unit_of as unit_of_of, is_mode as is_mode_of, mode_of as mode_of_of};

use htl_model::choice::is_running;
use htl_model::{Mode, Module, Tables};

// The module with this name.
pub fn unit_of(t: &Tables, name: &[u8]) -> Option<u16>
    ensures { result ≡ unit_of_of t.now name.now }
{
    match first_unit(t.parts().modules.as_slice(), name) {
        Some(place) => Some(place as u16),
        None => None,
    }
}

fn first_unit(units: &[Module], name: &[u8]) -> Option<usize>
    ensures first { result ≡ position_from (has_name_of name.now) 0 units.now }
    ensures bound { IfSome result (λ place. place < length units.now) }
{
    units.iter().position(|x| has_name(name, x))
}

fn has_name(name: &[u8], unit: &Module) -> bool
    ensures { result ≡ has_name_of name.now unit.now }
{
    unit.name.as_bytes() == name
}

// The mode of a module with this name.
pub fn mode_of(t: &Tables, unit: u16, name: &[u8]) -> Option<u16>
    ensures { result ≡ mode_of_of t.now unit name.now }
{
    match first_mode(t.parts().modes.as_slice(), unit, name) {
        Some(place) => Some(place as u16),
        None => None,
    }
}

fn first_mode(modes: &[Mode], unit: u16, name: &[u8]) -> Option<usize>
    ensures first { result ≡ position_from (is_mode_of unit name.now) 0 modes.now }
    ensures bound { IfSome result (λ place. place < length modes.now) }
{
    modes.iter().position(|x| is_mode(unit, name, x))
}

fn is_mode(unit: u16, name: &[u8], mode: &Mode) -> bool
    ensures { result ≡ is_mode_of unit name.now mode.now }
{
    mode.module == unit && mode.name.as_bytes() == name
}

// The mode that a module refines.
pub fn parent_of(t: &Tables, unit: u16) -> Option<u16>
    ensures { result ≡ parent_of_of t.now unit }
{
    let units = t.parts().modules.as_slice();
    if (unit as usize) < units.len() {
        units[unit as usize].parent
    } else {
        None
    }
}

/// Whether a module with this parent is active: a root module, or one whose refined mode runs.
pub fn is_active(t: &Tables, modes: &[Option<u16>], parent: Option<u16>) -> bool
    ensures { result ≡ is_active_of t.now modes.now parent }
{
    match parent {
        Some(p) => is_running(t, modes, p),
        None => true,
    }
}
