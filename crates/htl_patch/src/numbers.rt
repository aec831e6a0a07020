// The old numbers of the items in the new order, and the new numbers of the old.
ghost use Rattle.std.specs.Prelude.{◌≡◌, ◌<◌, ◌≤◌, ℕ, All, length, get_or, IfOk};
ghost use Rattle.std.specs.List.{flat_map};
ghost use Rattle.htl_model.specs.Selections.{modes_of, invs_of};
ghost use Rattle.htl_patch.specs.Patched.{order as order_of, new_numbers};
ghost use Rattle.htl_patch.specs.Placed.{ArePlaces};
ghost use Rattle.htl_patch.specs.Renumbered.{place_among, ports_of, tasks_of, switches_of};
ghost use Rattle.htl_patch.specs.Combined.{combined};

use crate::lists::{invs, modes, modules, ports, switches, tasks};
use crate::order::order;
use crate::owned::owned;
use crate::owners::owners_of;
use crate::places::places;
use crate::replacement::{Replacement, mode_count, module_count};
use std::alloc::{AllocError, Global};
use std::marker::Model;

/// The old numbers of the modules that are taken over, and of all that they own, in the new order.
pub(crate) struct OldNumbers {
    pub units: Vec<u16>,
    pub modes: Vec<u16>,
    pub ports: Vec<u16>,
    pub tasks: Vec<u16>,
    pub invs: Vec<u16>,
    pub switches: Vec<u16>,
}

impl Model for OldNumbers {
    ghost use Rattle.htl_patch.specs.Renumbered.{Numbering};

    ghost Value = { Numbering };

    ghost view = { λ n. record {
      modules = n.units.items;
      modes = n.modes.items;
      ports = n.ports.items;
      tasks = n.tasks.items;
      invs = n.invs.items;
      switches = n.switches.items;
    } };
}

impl Drop for OldNumbers {
    fn drop(self) {
        let Self {
            units: _,
            modes: _,
            ports: _,
            tasks: _,
            invs: _,
            switches: _,
        } = self;
    }
}

/// The new numbers by the old ones; of what isn't taken over a number that no item has.
pub(crate) struct NewNumbers {
    pub units: Vec<u16>,
    pub modes: Vec<u16>,
    pub ports: Vec<u16>,
    pub tasks: Vec<u16>,
    pub invs: Vec<u16>,
}

impl Drop for NewNumbers {
    fn drop(self) {
        let Self {
            units: _,
            modes: _,
            ports: _,
            tasks: _,
            invs: _,
        } = self;
    }
}

// The modes of modules, by module.
fn modes_in(alloc: Global, g: &Replacement<'_>, keys: &[u16]) -> Result<Vec<u16>, AllocError>
    requires { All (λ x. x < length (combined g.now).modules) keys.now }
    ensures { IfOk result (λ v. v.items ≡ flat_map (modes_of (combined g.now)) keys.now) }
{
    let before = modules(g.host).len() as u16;
    let owners = owners_of(alloc, modes(g.host), modes(g.donor), before)?;
    let count = module_count(g);
    owned(alloc, owners.as_slice(), count, keys)
}

// The ports of modes, by mode.
fn ports_in(alloc: Global, g: &Replacement<'_>, keys: &[u16]) -> Result<Vec<u16>, AllocError>
    requires { All (λ x. x < length (combined g.now).modes) keys.now }
    ensures { IfOk result (λ v. v.items ≡ flat_map (ports_of (combined g.now)) keys.now) }
{
    let before = modes(g.host).len() as u16;
    let owners = owners_of(alloc, ports(g.host), ports(g.donor), before)?;
    let count = mode_count(g);
    owned(alloc, owners.as_slice(), count, keys)
}

// The tasks of modules, by module.
fn tasks_in(alloc: Global, g: &Replacement<'_>, keys: &[u16]) -> Result<Vec<u16>, AllocError>
    requires { All (λ x. x < length (combined g.now).modules) keys.now }
    ensures { IfOk result (λ v. v.items ≡ flat_map (tasks_of (combined g.now)) keys.now) }
{
    let before = modules(g.host).len() as u16;
    let owners = owners_of(alloc, tasks(g.host), tasks(g.donor), before)?;
    let count = module_count(g);
    owned(alloc, owners.as_slice(), count, keys)
}

// The invocations of modes, by mode.
fn invs_in(alloc: Global, g: &Replacement<'_>, keys: &[u16]) -> Result<Vec<u16>, AllocError>
    requires { All (λ x. x < length (combined g.now).modes) keys.now }
    ensures { IfOk result (λ v. v.items ≡ flat_map (invs_of (combined g.now)) keys.now) }
{
    let before = modes(g.host).len() as u16;
    let owners = owners_of(alloc, invs(g.host), invs(g.donor), before)?;
    let count = mode_count(g);
    owned(alloc, owners.as_slice(), count, keys)
}

// The switches of modes, by mode.
fn switches_in(alloc: Global, g: &Replacement<'_>, keys: &[u16]) -> Result<Vec<u16>, AllocError>
    requires { All (λ x. x < length (combined g.now).modes) keys.now }
    ensures { IfOk result (λ v. v.items ≡ flat_map (switches_of (combined g.now)) keys.now) }
{
    let before = modes(g.host).len() as u16;
    let owners = owners_of(alloc, switches(g.host), switches(g.donor), before)?;
    let count = mode_count(g);
    owned(alloc, owners.as_slice(), count, keys)
}

/// The old numbers in the new order. The time is linear in both programs.
pub(crate) fn old_numbers(alloc: Global, g: &Replacement<'_>) -> Result<OldNumbers, AllocError>
    requires patched_mode { g.now.patched_mode < length g.now.host.modes }
    requires replacing_mode { g.now.replacing_mode < length g.now.donor.modes }
    ensures { IfOk result (λ n. n ≡ new_numbers g.now) }
{
    g.keeps_ranges();
    let units = order(alloc, g)?;
    let modes = modes_in(alloc, g, units.as_slice())?;
    let ports = ports_in(alloc, g, modes.as_slice())?;
    let tasks = tasks_in(alloc, g, units.as_slice())?;
    let invs = invs_in(alloc, g, modes.as_slice())?;
    let switches = switches_in(alloc, g, modes.as_slice())?;
    Ok(OldNumbers {
        units,
        modes,
        ports,
        tasks,
        invs,
        switches,
    })
}

/// The new numbers of what has these old ones. The time is linear in both programs.
pub(crate) fn renumber(
    alloc: Global,
    g: &Replacement<'_>,
    n: &OldNumbers,
) -> Result<NewNumbers, AllocError>
    requires patched_mode { g.now.patched_mode < length g.now.host.modes }
    requires replacing_mode { g.now.replacing_mode < length g.now.donor.modes }
    requires numbers { n.now ≡ new_numbers g.now }
    ensures { IfOk result (ArePlaces (combined g.now) (new_numbers g.now)) }
{
    g.keeps_ranges();
    let units = places(alloc, n.units.as_slice(), module_count(g))?;
    let modes = places(alloc, n.modes.as_slice(), mode_count(g))?;
    let count = ports(g.host).len() + ports(g.donor).len();
    let ports = places(alloc, n.ports.as_slice(), count)?;
    let count = tasks(g.host).len() + tasks(g.donor).len();
    let tasks = places(alloc, n.tasks.as_slice(), count)?;
    let count = invs(g.host).len() + invs(g.donor).len();
    let invs = places(alloc, n.invs.as_slice(), count)?;
    Ok(NewNumbers {
        units,
        modes,
        ports,
        tasks,
        invs,
    })
}
