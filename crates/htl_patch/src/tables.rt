// The patched tables.
ghost use Rattle.std.specs.Prelude.{◌≡◌, ◌<◌, All, length, IfOk, MatchResult};
ghost use Rattle.htl_model.specs.Broken.{Formed};
ghost use Rattle.htl_model.specs.Ranges.{AreInRange};
ghost use Rattle.htl_object.specs.Ranges.{IsFunctionCode};
ghost use Rattle.htl_patch.specs.Counterparts.{all_counterparts};
ghost use Rattle.htl_patch.specs.Joining.{Joins};
ghost use Rattle.htl_patch.specs.Patched.{new_numbers, patched};
ghost use Rattle.htl_patch.specs.Placed.{ArePlaces};
ghost use Rattle.htl_patch.specs.Stops.{AreMatched, IsEarlyFault};
ghost use Rattle.htl_patch.specs.Combined.{combined};

use crate::fault::PatchFault;
use crate::functions::new_functions;
use crate::joining::{Transferred, join_fault};
use crate::limits::{first_limit, levels};
use crate::lists::comms;
use crate::matching::find_counterparts;
use crate::mode_items::{new_invs, new_ports, new_switches};
use crate::numbers::{NewNumbers, OldNumbers, old_numbers, renumber};
use crate::replacement::Replacement;
use crate::unit_items::{new_modes, new_modules, new_tasks};
use htl_base::Seq;
use htl_model::{Comm, Mode, Module, Parts, Tables};
use std::alloc::{AllocError, Global};

fn copied_comms(alloc: Global, comms: &[Comm]) -> Result<Vec<Comm>, AllocError>
    ensures { IfOk result (λ v. v.items ≡ comms.now) }
{
    let mut found = Vec::new(alloc);
    for x in comms {
        found.push(Comm {
            name: x.name,
            ty: x.ty,
            sensor: x.sensor,
            period: x.period,
            init: x.init,
        })?;
    }
    Ok(found)
}

// The modules and modes of the patched tables.
#[derive(Drop)]
struct Heads {
    modules: Vec<Module>,
    modes: Vec<Mode>,
}

fn heads_of(
    alloc: Global,
    g: &Replacement<'_>,
    n: &OldNumbers,
    p: &NewNumbers,
) -> Result<Heads, AllocError>
    requires patched_mode { g.now.patched_mode < length g.now.host.modes }
    requires replacing_mode { g.now.replacing_mode < length g.now.donor.modes }
    requires numbers { n.now ≡ new_numbers g.now }
    requires places { ArePlaces (combined g.now) (new_numbers g.now) p.now }
    ensures modules { IfOk result (λ h. h.modules.items ≡ (patched g.now).modules) }
    ensures modes { IfOk result (λ h. h.modes.items ≡ (patched g.now).modes) }
{
    g.keeps_ranges();
    let modules = new_modules(alloc, g, p, n.units.as_slice())?;
    let modes = new_modes(alloc, g, p, n.modes.as_slice())?;
    Ok(Heads { modules, modes })
}

// The patched tables, of which it is known that they are in range.
fn assembled(
    alloc: Global,
    g: &Replacement<'_>,
    n: &OldNumbers,
    p: &NewNumbers,
    counterparts: &[Option<u16>],
    heads: Heads,
) -> Result<Tables, AllocError>
    requires numbers { n.now ≡ new_numbers g.now }
    requires places { ArePlaces (combined g.now) (new_numbers g.now) p.now }
    requires counterparts { counterparts.now ≡ all_counterparts g.now }
    requires coded { All IsFunctionCode g.now.host.functions }
    requires donor_coded { All IsFunctionCode g.now.donor.functions }
    requires modules { heads.modules.items ≡ (patched g.now).modules }
    requires modes { heads.modes.items ≡ (patched g.now).modes }
    requires ranges { AreInRange (patched g.now) }
    ensures { IfOk result (λ t. t ≡ patched g.now) }
{
    let comms = copied_comms(alloc, comms(g.host))?;
    let ports = new_ports(alloc, g, p, n.ports.as_slice())?;
    let tasks = new_tasks(alloc, g, p, n.tasks.as_slice())?;
    let invs = new_invs(alloc, g, p, counterparts, n.invs.as_slice())?;
    let switches = new_switches(alloc, g, p, n.switches.as_slice())?;
    let functions = new_functions(alloc, g, n)?;
    Ok(Tables::new(Parts {
        comms: Seq::new(comms),
        modes: Seq::new(heads.modes),
        modules: Seq::new(heads.modules),
        ports: Seq::new(ports),
        tasks: Seq::new(tasks),
        invs: Seq::new(invs),
        switches: Seq::new(switches),
        functions: Seq::new(functions),
    }))
}

// The patched tables of a refinement whose parents and names are met, or the first limit that they exceed.
fn limited(
    alloc: Global,
    g: &Replacement<'_>,
    n: &OldNumbers,
    p: &NewNumbers,
    counterparts: &[Option<u16>],
) -> Result<Result<Tables, PatchFault>, AllocError>
    requires patched_mode { g.now.patched_mode < length g.now.host.modes }
    requires replacing_mode { g.now.replacing_mode < length g.now.donor.modes }
    requires formed { Formed g.now.host }
    requires coded { All IsFunctionCode g.now.host.functions }
    requires donor_coded { All IsFunctionCode g.now.donor.functions }
    requires numbers { n.now ≡ new_numbers g.now }
    requires places { ArePlaces (combined g.now) (new_numbers g.now) p.now }
    requires counterparts { counterparts.now ≡ all_counterparts g.now }
    requires matched { AreMatched g.now }
    ensures { IfOk result (λ r. MatchResult r (λ t. (t ≡ patched g.now) × Joins g.now) (IsEarlyFault g.now)) }
{
    g.keeps_ranges();
    let heads = heads_of(alloc, g, n, p)?;
    let count = levels(heads.modules.as_slice(), heads.modes.as_slice(), 16);
    if let Some((which, count)) = first_limit(n, count) {
        return Ok(Err(PatchFault::Limit { which, count }));
    }
    let tables = assembled(alloc, g, n, p, counterparts, heads)?;
    Ok(Ok(tables))
}

/// The tables in which the refinement of the host's mode is the donor's, or the first fault for which it isn't taken over.
pub(crate) fn with_replacement(
    alloc: Global,
    g: &Replacement<'_>,
) -> Result<Result<Tables, PatchFault>, AllocError>
    requires patched_mode { g.now.patched_mode < length g.now.host.modes }
    requires replacing_mode { g.now.replacing_mode < length g.now.donor.modes }
    requires formed { Formed g.now.host }
    requires coded { All IsFunctionCode g.now.host.functions }
    requires donor_coded { All IsFunctionCode g.now.donor.functions }
    ensures { IfOk result (λ r. MatchResult r (λ t. (t ≡ patched g.now) × Joins g.now) (IsEarlyFault g.now)) }
{
    let n = old_numbers(alloc, g)?;
    let p = renumber(alloc, g, &n)?;
    let counterparts = find_counterparts(alloc, g)?;
    let transferred = Transferred {
        units: n.units.as_slice(),
        places: p.units.as_slice(),
    };
    if let Some(fault) = join_fault(g, &transferred, counterparts.as_slice()) {
        return Ok(Err(fault));
    }
    limited(alloc, g, &n, &p, counterparts.as_slice())
}
