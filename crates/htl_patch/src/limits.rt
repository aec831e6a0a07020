// The limits that the patched tables must keep.
ghost use Rattle.std.specs.Prelude.{◌≡◌, ◌≤◌, ◌<◌, ◌+◌, length};
ghost use Rattle.htl_model.specs.Lists.{list_to};
ghost use Rattle.htl_model.specs.Ranges.{parent_of};
ghost use Rattle.htl_model.specs.Tables.{mode_module, greatest};
ghost use Rattle.htl_patch.specs.Joining.{level as level_of, exceeded as exceeded_of};
ghost use Rattle.htl_patch.specs.Levels.{module_mode_tables, sizes_of, AreFewNumbers};

use crate::numbers::OldNumbers;
use htl_base::limits::{
    MAX_INVOCATIONS, MAX_LEVELS, MAX_MODE_INVOCATIONS, MAX_MODES, MAX_MODULES, MAX_PORTS,
    MAX_SWITCHES, MAX_TASKS,
};
use htl_model::{Mode, Module};

fn parent(modules: &[Module], modes: &[Mode], unit: usize) -> Option<u16>
    ensures { result ≡ parent_of (module_mode_tables modules.now modes.now) unit }
{
    if unit < modules.len() {
        modules[unit].parent
    } else {
        None
    }
}

fn module_of(modules: &[Module], modes: &[Mode], mode: u16) -> u16
    ensures { result ≡ mode_module (module_mode_tables modules.now modes.now) mode }
{
    if (mode as usize) < modes.len() {
        modes[mode as usize].module
    } else {
        0
    }
}

// How many levels a module is down, a root module being on the first, counted up to so many steps.
fn level(modules: &[Module], modes: &[Mode], unit: usize, steps: u32) -> u32
    requires { steps ≤ 16 }
    ensures value { result ≡ level_of steps (module_mode_tables modules.now modes.now) unit }
    ensures most { result ≤ 17 }
{
    let mut here = unit;
    let mut left = steps;
    while left > 0 {
        match parent(modules, modes, here) {
            Some(mode) => here = module_of(modules, modes, mode) as usize,
            None => return steps - left + 1,
        }
        left -= 1;
    }
    steps + 1
}

/// How many levels there are, each counted up to so many steps.
pub(crate) fn levels(modules: &[Module], modes: &[Mode], steps: u32) -> u32
    requires { steps ≤ 16 }
    ensures value { result ≡ greatest 0 (list_to (level_of steps (module_mode_tables modules.now modes.now)) (length modules.now)) }
    ensures most { result ≤ 17 }
{
    let mut most = 0;
    for unit in 0..modules.len() {
        most = level(modules, modes, unit, steps).max(most);
    }
    most
}

/// The first number above its limit, with the number of that limit; the first limit is told by number 2.
pub(crate) fn exceeded(sizes: &[(u32, u32)]) -> Option<(u8, u32)>
    requires { length sizes.now ≤ 8 }
    ensures { result ≡ exceeded_of 2 sizes.now }
{
    for k in 0..sizes.len() {
        let (size, most) = sizes[k];
        if size > most {
            return Some((k as u8 + 2, size));
        }
    }
    None
}

/// The first limit that the patched tables exceed, by their number of levels.
pub(crate) fn first_limit(n: &OldNumbers, levels: u32) -> Option<(u8, u32)>
    requires { AreFewNumbers n.now }
    ensures { result ≡ exceeded_of 2 (sizes_of n.now levels) }
{
    let sizes = [
        (n.units.len() as u32, MAX_MODULES as u32),
        (n.modes.len() as u32, MAX_MODES as u32),
        (n.ports.len() as u32, MAX_PORTS as u32),
        (n.tasks.len() as u32, MAX_TASKS as u32),
        (n.invs.len() as u32, MAX_INVOCATIONS as u32),
        (n.switches.len() as u32, MAX_SWITCHES as u32),
        (0, MAX_MODE_INVOCATIONS as u32),
        (levels, MAX_LEVELS as u32),
    ];
    exceeded(&sizes)
}
