// Damaged objects: cut ones, and ones with another byte, in both versions.
use crate::asserts::{holds, same};
use crate::objects::load_tests::{answer, bad_field};
use crate::objects::object_tests::is_encoded;
use htl_base::Name;
use htl_object::{DecodeFault, MalKind, decode, encode};
use htl_samples::object_bytes::{DOUBLING, SOMETIMES, changed};
use std::alloc::{AllocError, Global};

// Two loops with rounds of 10 and of 20 ticks, and so with a schedule for each of two nodes; without E code.
const LOOPS: [u8; 264] = [
    // the text and the version
    72, 84, 76, 79, 0, 1,
    // seven counts
    0, 2, 0, 2, 0, 2, 0, 0, 0, 2, 0, 2, 0, 0,
    // communicators
    1, 117, 0, 0, 0, 0, 0, 10, 0, 0, 0, 0, 0, 0, 0, 1, 1, 119, 0, 0, 0, 0, 0, 10, 0, 0, 0, 0, 0, 0,
    0, 0,
    // modes
    1, 109, 0, 0, 0, 0, 0, 10, 1, 109, 0, 1, 0, 0, 0, 20,
    // modules
    1, 70, 255, 255, 0, 0, 1, 71, 255, 255, 0, 1,
    // tasks
    1, 97, 0, 0, 0, 0, 0, 0, 3, 0, 1, 0, 0, 1, 0, 1, 98, 0, 1, 0, 0, 0, 0, 9, 0, 1, 0, 0, 1, 0,
    // invocations
    0, 0, 0, 0, 255, 255, 0, 1, 0, 0, 0, 0, 0, 0, 0, 0, 1, 0, 0, 0, 0, 0, 0, 1, 0, 1, 0, 1, 255,
    255, 0, 1, 0, 0, 0, 0, 0, 0, 0, 0, 1, 0, 0, 1, 0, 0, 0, 2,
    // functions
    0, 1, 0, 0, 0, 3, 3, 0, 0, 1, 0, 0, 0, 0, 0, 0, 0, 1, 6, 0, 1, 0, 0, 0, 3, 3, 0, 0, 1, 0, 0, 0,
    0, 0, 0, 0, 10, 8,
    // addresses
    0, 0, 0, 0, 0, 0, 0, 0, 0, 0, 0, 0, 0, 0, 0, 0, 0, 0, 0, 0, 0, 0, 0, 0,
    // E code
    0, 0, 0, 0,
    // S code of two nodes
    0, 2, 0, 0, 0, 3, 1, 0, 0, 0, 0, 0, 3, 1, 0, 1, 0, 0, 0, 10, 3, 0, 0, 0, 3, 1, 0, 1, 0, 0, 0,
    12, 1, 0, 2, 0, 0, 0, 15, 3,
];

// The object with the name of a platform.
fn named(alloc: Global, bytes: &[u8]) -> Option<Vec<u8>> {
    let mut object = decode(alloc, bytes).ok()?;
    object.platform = Name::new(b"fast");
    encode(alloc, &object).ok()
}

// The first length at which a cut object isn't refused as too short, at its end.
fn first_not_short(alloc: Global, object: &[u8]) -> Option<usize> {
    for n in 0..object.len() {
        let short = bad_field(n as u64, MalKind::Short);
        if answer(alloc, &object[..n]) != Some(short) {
            return Some(n);
        }
    }
    None
}

// Whether bytes say an object.
fn is_object(alloc: Global, bytes: &[u8]) -> bool {
    decode(alloc, bytes).is_ok()
}

#[test]
fn cut_objects_of_nodes_are_short(rt: HostRuntime) {
    let alloc = rt.alloc();
    let loops = named(alloc, &LOOPS).expect(&rt, "an object");
    for object in [LOOPS.as_slice(), loops.as_slice()] {
        same(&rt, first_not_short(alloc, object), None);
        holds(&rt, is_object(alloc, object));
    }
}

// Whether an object is accepted.
fn is_loaded(alloc: Global, object: &[u8]) -> bool {
    match answer(alloc, object) {
        Some(answer) => answer.is_ok(),
        None => false,
    }
}

#[test]
fn cut_objects_of_both_versions_are_short(rt: HostRuntime) {
    let alloc = rt.alloc();
    let doubling = named(alloc, &DOUBLING).expect(&rt, "an object");
    let sometimes = named(alloc, &SOMETIMES).expect(&rt, "an object");
    for object in [
        DOUBLING.as_slice(),
        SOMETIMES.as_slice(),
        doubling.as_slice(),
        sometimes.as_slice(),
    ] {
        same(&rt, first_not_short(alloc, object), None);
        holds(&rt, is_loaded(alloc, object));
    }
}

// Whether these bytes are no object, or what they say has these bytes.
fn are_no_other(alloc: Global, bytes: &[u8]) -> bool {
    match decode(alloc, bytes) {
        Ok(object) => is_encoded(alloc, &object, bytes),
        Err(DecodeFault::Malformed(_)) => true,
        Err(DecodeFault::Memory) => false,
    }
}

// Whether this is so with 0, 255 and the byte but for its lowest bit at a place.
fn is_no_other(alloc: Global, object: &[u8], at: usize, byte: u8) -> Result<bool, AllocError> {
    for other in [0, 255, byte ^ 1] {
        let bytes = changed(alloc, object, at, &[other], true)?;
        if !are_no_other(alloc, &bytes) {
            return Ok(false);
        }
    }
    Ok(true)
}

// The first place at which it isn't so.
fn first_other(alloc: Global, object: &[u8]) -> Option<usize> {
    for (at, byte) in object.iter().enumerate() {
        if is_no_other(alloc, object, at, *byte) != Ok(true) {
            return Some(at);
        }
    }
    None
}

#[test]
fn a_changed_byte_is_refused_or_said(rt: HostRuntime) {
    let alloc = rt.alloc();
    let doubling = named(alloc, &DOUBLING).expect(&rt, "an object");
    for object in [DOUBLING.as_slice(), doubling.as_slice()] {
        same(&rt, first_other(alloc, object), None);
    }
}

#[test]
fn a_changed_byte_of_an_object_of_nodes_is_refused_or_said(rt: HostRuntime) {
    let alloc = rt.alloc();
    let loops = named(alloc, &LOOPS).expect(&rt, "an object");
    for object in [LOOPS.as_slice(), loops.as_slice()] {
        same(&rt, first_other(alloc, object), None);
    }
}
