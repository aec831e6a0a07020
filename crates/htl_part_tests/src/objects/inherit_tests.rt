// Objects that are accepted under the schedules of another.
ghost use Rattle.std.specs.Prelude.{◌≡◌, IfSome};
ghost use Rattle.htl_load.specs.Loading.{HasBytes};

use crate::asserts::holds_in;
use htl_load::{FormedObject, Loaded, SpelledObject, formed, inherit, load, spelled};
use htl_object::decode;
use htl_samples::object_bytes::{DOUBLING, REFINED, TWO_MODES};
use std::alloc::Global;

// The object with these bytes, as far as its form rules; None without memory, or where it is refused.
fn formed_of(alloc: Global, bytes: &[u8]) -> Option<FormedObject>
    ensures { IfSome result (HasBytes bytes.now) }
{
    let Ok(o) = decode(alloc, bytes) else {
        return None;
    };
    match formed(o) {
        Ok(formed) => Some(formed),
        Err(_) => None,
    }
}

// The same as far as its functions and its E code.
fn spelled_of(alloc: Global, bytes: &[u8]) -> Option<SpelledObject>
    ensures { IfSome result (HasBytes bytes.now) }
{
    let formed = formed_of(alloc, bytes)?;
    match spelled(formed) {
        Ok(spelled) => Some(spelled),
        Err(_) => None,
    }
}

// The same, accepted.
fn loaded_of(alloc: Global, bytes: &[u8]) -> Option<Loaded>
    ensures { IfSome result (HasBytes bytes.now) }
{
    match load(alloc, bytes) {
        Ok(loaded) => Some(loaded),
        Err(_) => None,
    }
}

fn under(o: SpelledObject, from: &Loaded, bytes: &[u8]) -> Loaded
    requires spelled { HasBytes bytes.now o }
    requires loaded { HasBytes bytes.now from.now }
{
    inherit(o, from)
}

// Whether an object is accepted under its own schedules.
fn is_inherited(alloc: Global, bytes: &[u8]) -> Option<bool> {
    let from = loaded_of(alloc, bytes)?;
    let o = spelled_of(alloc, bytes)?;
    let inherited = under(o, &from, bytes);
    Some(inherited.schedules().len() == from.schedules().len())
}

const OBJECTS: [&[u8]; 3] = [&DOUBLING, &REFINED, &TWO_MODES];

#[test]
fn schedules_are_inherited(rt: HostRuntime) {
    for bytes in OBJECTS {
        holds_in(&rt, bytes, is_inherited(rt.alloc(), bytes) == Some(true));
    }
}
