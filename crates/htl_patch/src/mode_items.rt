// The ports, invocations and switches of the patched tables: those of both programs, with their new numbers.
ghost use Rattle.std.specs.Prelude.{◌≡◌, ◌<◌, ◌≤◌, ◌+◌, All, IfSome, length, map, option_map, IfOk};
ghost use Rattle.htl_patch.specs.Patched.{new_numbers};
ghost use Rattle.htl_patch.specs.Counterparts.{all_counterparts};
ghost use Rattle.htl_patch.specs.Placed.{ArePlaces, HasPlace, HasPlaces, placed_end, placed_inv, placed_port, placed_switch};
ghost use Rattle.htl_patch.specs.Renumbered.{inv_at, port_at, switch_at, new_inv as new_inv_of, new_port as new_port_of, new_switch as new_switch_of};
ghost use Rattle.htl_patch.specs.Combined.{combined, donor_parent, belongs_to_mode as is_of_mode_of};

use crate::lists::{invs, modes, ports, switches, tasks};
use crate::numbers::NewNumbers;
use crate::replacement::Replacement;
use crate::unit_items::new_number;
use htl_base::Seq;
use htl_model::{End, Inv, Port, Switch, Tables};
use std::alloc::{AllocError, Global};

// A port with the new number of its mode.
fn copied_port(x: &Port, modes: &[u16], before: usize) -> Port
    requires { before + x.now.mode < length modes.now }
    ensures { result ≡ placed_port modes.now before x.now }
{
    Port {
        name: x.name,
        mode: modes[before + x.mode as usize],
        ty: x.ty,
    }
}

fn new_port(g: &Replacement<'_>, p: &NewNumbers, k: usize) -> Port
    requires places { ArePlaces (combined g.now) (new_numbers g.now) p.now }
    requires within { k < length (combined g.now).ports }
    ensures { result ≡ new_port_of (new_numbers g.now) (port_at (combined g.now) k) }
{
    g.keeps_ranges();
    let before = modes(g.host).len();
    let front = ports(g.host);
    if k < front.len() {
        return copied_port(&front[k], p.modes.as_slice(), 0);
    }
    let back = ports(g.donor);
    copied_port(&back[k - front.len()], p.modes.as_slice(), before)
}

/// The ports with these old numbers, with their new numbers.
pub(crate) fn new_ports(
    alloc: Global,
    g: &Replacement<'_>,
    p: &NewNumbers,
    keys: &[u16],
) -> Result<Vec<Port>, AllocError>
    requires places { ArePlaces (combined g.now) (new_numbers g.now) p.now }
    requires within { All (λ x. x < length (combined g.now).ports) keys.now }
    ensures { IfOk result (λ v. v.items ≡ map (λ x. new_port_of (new_numbers g.now) (port_at (combined g.now) x)) keys.now) }
{
    let mut found = Vec::new(alloc);
    for k in 0..keys.len() {
        found.push(new_port(g, p, keys[k] as usize))?;
    }
    Ok(found)
}

// An end with the new number of its port.
fn copied_end(x: &End, ports: &[u16], before: usize) -> End
    requires { HasPlace (length ports.now) before x.now }
    ensures { result ≡ placed_end ports.now before x.now }
{
    match *x {
        End::Comm { comm, instance } => End::Comm { comm, instance },
        End::Port { port } => End::Port {
            port: ports[before + port as usize],
        },
    }
}

fn copied_ends(
    alloc: Global,
    ends: &[End],
    ports: &[u16],
    before: usize,
) -> Result<Vec<End>, AllocError>
    requires { All (HasPlace (length ports.now) before) ends.now }
    ensures { IfOk result (λ v. v.items ≡ map (placed_end ports.now before) ends.now) }
{
    let mut found = Vec::new(alloc);
    for k in 0..ends.len() {
        found.push(copied_end(&ends[k], ports, before))?;
    }
    Ok(found)
}

// How many modes, tasks and ports are before those of a program.
#[derive(Clone, Copy)]
struct Before {
    modes: usize,
    tasks: usize,
    ports: usize,
}

// An invocation with new numbers, in the place of the given one.
fn copied_inv(
    alloc: Global,
    x: &Inv,
    parent: Option<u16>,
    p: &NewNumbers,
    before: Before,
) -> Result<Inv, AllocError>
    requires { HasPlaces p.now before.modes before.tasks before.ports parent x.now }
    ensures { IfOk result (λ y. y ≡ placed_inv p.now before.modes before.tasks before.ports parent x.now) }
{
    let reads = copied_ends(alloc, x.reads.as_slice(), p.ports.as_slice(), before.ports)?;
    let writes = copied_ends(alloc, x.writes.as_slice(), p.ports.as_slice(), before.ports)?;
    Ok(Inv {
        mode: p.modes[before.modes + x.mode as usize],
        task: p.tasks[before.tasks + x.task as usize],
        parent: new_number(parent, p.invs.as_slice()),
        reads: Seq::new(reads),
        writes: Seq::new(writes),
    })
}

// Whether an invocation is one of the mode.
fn is_of_mode(t: &Tables, mode: u16, k: usize) -> bool
    requires { k < length t.now.invs }
    ensures { result ≡ is_of_mode_of t.now mode k }
{
    invs(t)[k].mode == mode
}

// The invocation of both in whose place one of the donor stands, by the one in whose place it stands there.
fn moved(g: &Replacement<'_>, counterparts: &[Option<u16>], k: u16) -> u16
    requires counterparts { counterparts.now ≡ all_counterparts g.now }
    requires within { k < length g.now.donor.invs }
    ensures { result ≡ donor_parent g.now k }
{
    g.keeps_ranges();
    if is_of_mode(g.donor, g.replacing_mode, k as usize) {
        match counterparts[k as usize] {
            Some(inv) => inv,
            None => 0,
        }
    } else {
        invs(g.host).len() as u16 + k
    }
}

fn moved_parent(
    g: &Replacement<'_>,
    counterparts: &[Option<u16>],
    parent: Option<u16>,
) -> Option<u16>
    requires counterparts { counterparts.now ≡ all_counterparts g.now }
    requires within { IfSome parent (λ k. k < length g.now.donor.invs) }
    ensures { result ≡ option_map (donor_parent g.now) parent }
{
    match parent {
        Some(k) => Some(moved(g, counterparts, k)),
        None => None,
    }
}

fn new_inv(
    alloc: Global,
    g: &Replacement<'_>,
    p: &NewNumbers,
    counterparts: &[Option<u16>],
    k: usize,
) -> Result<Inv, AllocError>
    requires places { ArePlaces (combined g.now) (new_numbers g.now) p.now }
    requires counterparts { counterparts.now ≡ all_counterparts g.now }
    requires within { k < length (combined g.now).invs }
    ensures { IfOk result (λ y. y ≡ new_inv_of (new_numbers g.now) (inv_at (combined g.now) k)) }
{
    g.keeps_ranges();
    let front = invs(g.host);
    if k < front.len() {
        let none = Before {
            modes: 0,
            tasks: 0,
            ports: 0,
        };
        let x = &front[k];
        return copied_inv(alloc, x, x.parent, p, none);
    }
    let before = Before {
        modes: modes(g.host).len(),
        tasks: tasks(g.host).len(),
        ports: ports(g.host).len(),
    };
    let x = &invs(g.donor)[k - front.len()];
    copied_inv(alloc, x, moved_parent(g, counterparts, x.parent), p, before)
}

/// The invs with these old numbers, with their new numbers.
pub(crate) fn new_invs(
    alloc: Global,
    g: &Replacement<'_>,
    p: &NewNumbers,
    counterparts: &[Option<u16>],
    keys: &[u16],
) -> Result<Vec<Inv>, AllocError>
    requires places { ArePlaces (combined g.now) (new_numbers g.now) p.now }
    requires counterparts { counterparts.now ≡ all_counterparts g.now }
    requires within { All (λ x. x < length (combined g.now).invs) keys.now }
    ensures { IfOk result (λ v. v.items ≡ map (λ x. new_inv_of (new_numbers g.now) (inv_at (combined g.now) x)) keys.now) }
{
    let mut found = Vec::new(alloc);
    for k in 0..keys.len() {
        found.push(new_inv(alloc, g, p, counterparts, keys[k] as usize)?)?;
    }
    Ok(found)
}

// A switch with the new numbers of its modes.
fn copied_switch(
    alloc: Global,
    x: &Switch,
    modes: &[u16],
    before: usize,
) -> Result<Switch, AllocError>
    requires mode { before + x.now.mode < length modes.now }
    requires target { before + x.now.target < length modes.now }
    ensures { IfOk result (λ y. y ≡ placed_switch modes.now before x.now) }
{
    let reads = x.reads.as_slice().to_vec(alloc)?;
    Ok(Switch {
        mode: modes[before + x.mode as usize],
        target: modes[before + x.target as usize],
        reads: Seq::new(reads),
    })
}

fn new_switch(
    alloc: Global,
    g: &Replacement<'_>,
    p: &NewNumbers,
    k: usize,
) -> Result<Switch, AllocError>
    requires places { ArePlaces (combined g.now) (new_numbers g.now) p.now }
    requires within { k < length (combined g.now).switches }
    ensures { IfOk result (λ y. y ≡ new_switch_of (new_numbers g.now) (switch_at (combined g.now) k)) }
{
    g.keeps_ranges();
    let before = modes(g.host).len();
    let front = switches(g.host);
    if k < front.len() {
        return copied_switch(alloc, &front[k], p.modes.as_slice(), 0);
    }
    let back = switches(g.donor);
    copied_switch(alloc, &back[k - front.len()], p.modes.as_slice(), before)
}

/// The switches with these old numbers, with their new numbers.
pub(crate) fn new_switches(
    alloc: Global,
    g: &Replacement<'_>,
    p: &NewNumbers,
    keys: &[u16],
) -> Result<Vec<Switch>, AllocError>
    requires places { ArePlaces (combined g.now) (new_numbers g.now) p.now }
    requires within { All (λ x. x < length (combined g.now).switches) keys.now }
    ensures { IfOk result (λ v. v.items ≡ map (λ x. new_switch_of (new_numbers g.now) (switch_at (combined g.now) x)) keys.now) }
{
    let mut found = Vec::new(alloc);
    for k in 0..keys.len() {
        found.push(new_switch(alloc, g, p, keys[k] as usize)?)?;
    }
    Ok(found)
}
