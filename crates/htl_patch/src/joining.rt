// What a donor must keep so that its refinement can be taken over: parents and names.
ghost use Rattle.std.specs.Prelude.{◌≡◌, ◌<◌, ◌≤◌, ◌+◌, length, ◌&&◌, ltb, Some, MatchOption};
ghost use Rattle.std.specs.Str.{bytes_eq};
ghost use Rattle.htl_model.specs.Ranges.{IsInvInRange};
ghost use Rattle.htl_patch.specs.Counterparts.{all_counterparts};
ghost use Rattle.htl_patch.specs.Joining.{is_transferred as is_transferred_of, is_unmatched_parent as is_unmatched_parent_of, is_unmatched as is_unmatched_of, first_unmatched as first_unmatched_of, is_kept_name as is_kept_name_of, module_name, first_twice as first_twice_of};
ghost use Rattle.htl_patch.specs.Patched.{order};
ghost use Rattle.htl_patch.specs.Placed.{ArePlacesOf};
ghost use Rattle.htl_patch.specs.Stops.{AreMatched, IsJoinFault};
ghost use Rattle.htl_patch.specs.Combined.{combined};

use crate::fault::PatchFault;
use crate::finding::first_difference;
use crate::lists::{comms, invs, modules};
use crate::replacement::Replacement;
use htl_base::Name;
use htl_model::lookup::mode_module;
use htl_model::{Inv, Tables};

/// The modules that are taken over in the new order, and the place of each module among them.
#[derive(Clone, Copy)]
pub(crate) struct Transferred<'a> {
    pub units: &'a [u16],
    pub places: &'a [u16],
}

// Whether a module of the donor is taken over.
fn is_transferred(g: &Replacement<'_>, transferred: &Transferred<'_>, unit: usize) -> bool
    requires units { transferred.now.units.now ≡ order g.now }
    requires places { ArePlacesOf (length (combined g.now).modules) (order g.now) transferred.now.places.now }
    requires unit { unit < length g.now.donor.modules }
    ensures { result ≡ is_transferred_of g.now unit }
{
    let place = transferred.places[modules(g.host).len() + unit] as usize;
    place < transferred.units.len()
}

// Whether a parent in the donor isn't taken over, and none of the host's mode stands for it.
fn is_unmatched_parent(
    g: &Replacement<'_>,
    transferred: &Transferred<'_>,
    counterparts: &[Option<u16>],
    p: usize,
) -> bool
    requires units { transferred.now.units.now ≡ order g.now }
    requires places { ArePlacesOf (length (combined g.now).modules) (order g.now) transferred.now.places.now }
    requires counterparts { counterparts.now ≡ all_counterparts g.now }
    requires p { p < length g.now.donor.invs }
    ensures { result ≡ is_unmatched_parent_of g.now (Some p) }
{
    let unit = mode_module(g.donor, invs(g.donor)[p].mode) as usize;
    match counterparts[p] {
        Some(_) => false,
        None => !is_transferred(g, transferred, unit),
    }
}

// Whether an invocation of the donor is taken over, and its parent is unmatched.
fn is_unmatched(
    g: &Replacement<'_>,
    transferred: &Transferred<'_>,
    counterparts: &[Option<u16>],
    x: &Inv,
) -> bool
    requires units { transferred.now.units.now ≡ order g.now }
    requires places { ArePlacesOf (length (combined g.now).modules) (order g.now) transferred.now.places.now }
    requires counterparts { counterparts.now ≡ all_counterparts g.now }
    requires range { IsInvInRange g.now.donor x.now }
    ensures { result ≡ is_unmatched_of g.now x.now }
{
    g.keeps_ranges();
    let unit = mode_module(g.donor, x.mode) as usize;
    match x.parent {
        Some(p) => is_transferred(g, transferred, unit)
            && is_unmatched_parent(g, transferred, counterparts, p as usize),
        None => false,
    }
}

/// The first invocation of the donor that is taken over, and whose parent neither is nor has one of the host's mode that stands for it.
pub(crate) fn first_unmatched(
    g: &Replacement<'_>,
    transferred: &Transferred<'_>,
    counterparts: &[Option<u16>],
) -> Option<u16>
    requires units { transferred.now.units.now ≡ order g.now }
    requires places { ArePlacesOf (length (combined g.now).modules) (order g.now) transferred.now.places.now }
    requires counterparts { counterparts.now ≡ all_counterparts g.now }
    ensures { result ≡ first_unmatched_of g.now }
{
    let all = invs(g.donor);
    for k in 0..all.len() {
        if is_unmatched(g, transferred, counterparts, &all[k]) {
            return Some(k as u16);
        }
    }
    None
}

// Whether a module has the name.
fn has_name(t: &Tables, unit: usize, name: &Name) -> bool
    requires { unit < length t.now.modules }
    ensures { result ≡ bytes_eq (module_name t.now unit) name.now }
{
    modules(t)[unit].name.as_bytes() == name.as_bytes()
}

// Whether a module of both is one of the host's, and has the name.
fn has_host_name(g: &Replacement<'_>, unit: u16, name: &Name) -> bool
    ensures { result ≡ (ltb unit (length g.now.host.modules) && bytes_eq (module_name g.now.host unit) name.now) }
{
    if (unit as usize) < modules(g.host).len() {
        has_name(g.host, unit as usize, name)
    } else {
        false
    }
}

// Whether a module of the host that stays has the name.
fn is_kept_name(g: &Replacement<'_>, units: &[u16], name: &Name) -> bool
    requires { units.now ≡ order g.now }
    ensures { result ≡ is_kept_name_of g.now name.now }
{
    units.iter().any(|unit| has_host_name(g, *unit, name))
}

// Whether a module of the donor is taken over, and has the name of one of the host's that stays.
fn is_twice(g: &Replacement<'_>, transferred: &Transferred<'_>, unit: usize) -> bool
    requires units { transferred.now.units.now ≡ order g.now }
    requires places { ArePlacesOf (length (combined g.now).modules) (order g.now) transferred.now.places.now }
    requires unit { unit < length g.now.donor.modules }
    ensures { result ≡ (is_transferred_of g.now unit && is_kept_name_of g.now (module_name g.now.donor unit)) }
{
    if is_transferred(g, transferred, unit) {
        is_kept_name(g, transferred.units, &modules(g.donor)[unit].name)
    } else {
        false
    }
}

/// The first module of the donor that is taken over, and has the name of one of the host's that stays.
pub(crate) fn first_twice(g: &Replacement<'_>, transferred: &Transferred<'_>) -> Option<u16>
    requires units { transferred.now.units.now ≡ order g.now }
    requires places { ArePlacesOf (length (combined g.now).modules) (order g.now) transferred.now.places.now }
    ensures { result ≡ first_twice_of g.now }
{
    let all = modules(g.donor);
    for k in 0..all.len() {
        if is_twice(g, transferred, k) {
            return Some(k as u16);
        }
    }
    None
}

/// The first fault of communicators, parents and names.
pub(crate) fn join_fault(
    g: &Replacement<'_>,
    transferred: &Transferred<'_>,
    counterparts: &[Option<u16>],
) -> Option<PatchFault>
    requires units { transferred.now.units.now ≡ order g.now }
    requires places { ArePlacesOf (length (combined g.now).modules) (order g.now) transferred.now.places.now }
    requires counterparts { counterparts.now ≡ all_counterparts g.now }
    ensures { MatchOption result (AreMatched g.now) (IsJoinFault g.now) }
{
    if let Some(place) = first_difference(comms(g.host), comms(g.donor)) {
        return Some(PatchFault::Comms { place });
    }
    if let Some(inv) = first_unmatched(g, transferred, counterparts) {
        return Some(PatchFault::Parent { inv });
    }
    match first_twice(g, transferred) {
        Some(module) => Some(PatchFault::Twice { module }),
        None => None,
    }
}
