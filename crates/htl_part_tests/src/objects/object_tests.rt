// A worked object with each kind of item, its bad fields, and objects with many selections.
ghost use Rattle.std.specs.Prelude.{◌≤◌};
ghost use Rattle.htl_object.specs.Objects.{IsObject};

use crate::asserts::{holds, same, same_in};
use htl_object::{DecodeFault, MalKind, Malformed, Object, decode, encode};
use std::alloc::{AllocError, Global};

const OBJECT: [u8; 385] = [
    // the text and the version
    72, 84, 76, 79, 0, 1,
    // seven counts
    0, 2, 0, 3, 0, 2, 0, 2, 0, 3, 0, 3, 0, 2,
    // communicators
    1, 97, 0, 0, 0, 0, 0, 10, 0, 0, 0, 0, 0, 0, 0, 5, 1, 98, 1, 1, 0, 0, 0, 20, 0, 0, 0, 0, 0, 0,
    0, 1,
    // modes
    1, 109, 0, 0, 0, 0, 0, 20, 1, 110, 0, 0, 0, 0, 0, 10, 1, 112, 0, 1, 0, 0, 0, 10,
    // modules
    1, 77, 255, 255, 0, 0, 1, 78, 0, 0, 0, 2,
    // ports
    1, 107, 0, 0, 0, 1, 108, 0, 0, 1,
    // tasks
    1, 102, 0, 0, 1, 0, 0, 0, 2, 0, 1, 0, 0, 1, 0, 1, 103, 0, 0, 0, 0, 0, 0, 3, 0, 1, 0, 0, 1, 1,
    1, 104, 0, 1, 0, 0, 0, 0, 2, 0, 1, 0, 0, 1, 0,
    // invocations
    0, 0, 0, 0, 255, 255, 0, 1, 0, 0, 0, 0, 0, 0, 1, 0, 1, 0, 0, 0, 0, 0, 0, 2, 0, 0, 0, 1, 255,
    255, 0, 1, 1, 0, 0, 0, 1, 1, 0, 1, 0, 2, 0, 2, 0, 0, 0, 1, 0, 0, 0, 0, 0, 0, 1, 0, 1, 0, 0, 0,
    0, 0, 0, 2,
    // switches
    0, 0, 0, 1, 0, 1, 0, 1, 0, 0, 0, 0, 0, 2, 0, 0, 0, 1,
    // functions
    0, 1, 0, 1, 0, 3, 3, 0, 0, 1, 0, 0, 0, 0, 0, 0, 0, 3, 11, 0, 1, 0, 0, 0, 1, 3, 0, 0, 0, 1, 1,
    1, 0, 1, 3, 0, 0, 0, 2, 0, 1, 1, 0, 1, 2, 1,
    // addresses
    0, 0, 0, 0, 0, 0, 0, 1, 0, 0, 0, 2, 0, 0, 0, 1, 0, 0, 0, 2, 0, 0, 0, 3, 0, 0, 0, 2, 0, 0, 0, 3,
    0, 0, 0, 4,
    // E code
    0, 0, 0, 11, 1, 0, 0, 0, 0, 2, 0, 1, 0, 0, 3, 0, 1, 4, 0, 0, 0, 10, 1, 0, 0, 0, 5, 5, 0, 0, 0,
    0, 0, 7, 6, 0, 0, 0, 1, 7, 0, 0, 0, 0, 0, 9, 8, 0, 0, 9, 10, 0, 1, 11,
    // S code
    0, 2, 0, 0, 0, 3, 1, 0, 0, 0, 0, 0, 4, 2, 0, 0, 0, 9, 3, 0, 0, 0, 1, 3,
];

// The bad field that decoding answers.
fn bad_field(alloc: Global, bytes: &[u8]) -> Option<Malformed> {
    match decode(alloc, bytes) {
        Err(DecodeFault::Malformed(m)) => Some(m),
        _ => None,
    }
}

// The worked object with one byte changed, or put behind it.
fn changed(alloc: Global, at: usize, byte: u8) -> Result<Vec<u8>, AllocError> {
    let mut bytes = Vec::new(alloc);
    bytes.extend_from_slice(&OBJECT)?;
    if at < bytes.len() {
        bytes[at] = byte;
    } else {
        bytes.push(byte)?;
    }
    Ok(bytes)
}

// A byte's place, its new value, and the bad field.
const BAD_FIELDS: [(usize, u8, MalKind, u64); 77] = [
    (0, 73, MalKind::Magic, 0), // magic
    (5, 3, MalKind::Version, 4), // version
    (5, 2, MalKind::Spelling, 6), // platform: no name
    (6, 255, MalKind::Index, 6), // count of comms
    (8, 255, MalKind::Index, 8), // count of modes
    (10, 255, MalKind::Index, 10), // count of modules
    (12, 255, MalKind::Index, 12), // count of ports
    (14, 255, MalKind::Index, 14), // count of tasks
    (16, 255, MalKind::Index, 16), // count of invs
    (18, 255, MalKind::Index, 18), // count of switches
    (21, 49, MalKind::Spelling, 20), // comm: no name
    (20, 0, MalKind::Spelling, 20), // comm: an empty name
    (37, 97, MalKind::Spelling, 36), // comm: repeated
    (22, 2, MalKind::Tag, 22), // comm: type
    (23, 2, MalKind::Tag, 23), // comm: flag
    (27, 0, MalKind::Index, 24), // comm: period 0
    (24, 1, MalKind::Index, 24), // comm: long period
    (51, 2, MalKind::Spelling, 44), // comm: init of a bool
    (53, 46, MalKind::Spelling, 52), // mode: no name
    (61, 109, MalKind::Spelling, 60), // mode: repeated
    (71, 2, MalKind::Index, 70), // mode: owner
    (55, 1, MalKind::Index, 62), // mode: owner falls
    (59, 0, MalKind::Index, 56), // mode: period
    (77, 46, MalKind::Spelling, 76), // module: no name
    (83, 77, MalKind::Spelling, 82), // module: repeated
    (85, 2, MalKind::Index, 84), // module: parent of no lower number
    (84, 1, MalKind::Index, 84), // module: parent
    (81, 2, MalKind::Index, 80), // module: start
    (89, 46, MalKind::Spelling, 88), // port: no name
    (94, 107, MalKind::Spelling, 93), // port: repeated
    (96, 3, MalKind::Index, 95), // port: owner
    (91, 1, MalKind::Index, 95), // port: owner falls
    (97, 2, MalKind::Tag, 97), // port: type
    (99, 46, MalKind::Spelling, 98), // task: no name
    (114, 102, MalKind::Spelling, 113), // task: repeated
    (131, 2, MalKind::Index, 130), // task: owner
    (101, 1, MalKind::Index, 115), // task: owner falls
    (102, 2, MalKind::Tag, 102), // task: flag
    (106, 0, MalKind::Index, 103), // task: worst case
    (107, 1, MalKind::Index, 107), // task: inputs
    (109, 2, MalKind::Tag, 109), // task: input type
    (110, 1, MalKind::Index, 110), // task: outputs
    (112, 2, MalKind::Tag, 112), // task: output type
    (184, 3, MalKind::Index, 183), // inv: mode
    (144, 1, MalKind::Index, 167), // inv: mode falls
    (146, 3, MalKind::Index, 145), // inv: task
    (146, 2, MalKind::Index, 145), // inv: task of another module
    (170, 0, MalKind::Index, 169), // inv: task again
    (188, 3, MalKind::Index, 187), // inv: parent
    (149, 1, MalKind::Index, 149), // inv: reads
    (158, 1, MalKind::Index, 158), // inv: writes
    (151, 2, MalKind::Tag, 151), // end: tag
    (153, 2, MalKind::Index, 152), // end: comm
    (154, 1, MalKind::Index, 154), // end: instance
    (177, 2, MalKind::Index, 176), // end: port
    (96, 1, MalKind::Index, 181), // end: port of another mode
    (216, 3, MalKind::Index, 215), // switch: mode
    (208, 1, MalKind::Index, 215), // switch: mode falls
    (210, 3, MalKind::Index, 209), // switch: target
    (210, 2, MalKind::Index, 209), // switch: target of another module
    (211, 1, MalKind::Index, 211), // switch: reads
    (214, 2, MalKind::Index, 213), // switch: comm
    (224, 0, MalKind::Index, 223), // switch: comm again
    (225, 1, MalKind::Index, 225), // function: arguments
    (227, 2, MalKind::Tag, 227), // function: argument type
    (228, 2, MalKind::Tag, 228), // function: result type
    (249, 0, MalKind::Index, 248), // function: no instruction
    (248, 2, MalKind::Index, 248), // function: 513 instructions
    (231, 20, MalKind::Tag, 231), // function: instruction
    (311, 12, MalKind::Tag, 311), // E code: instruction
    (311, 0, MalKind::Tag, 311), // E code: instruction 0
    (329, 4, MalKind::Tag, 329), // E code: phase
    (329, 0, MalKind::Tag, 329), // E code: phase 0
    (362, 1, MalKind::Index, 361), // too few selections
    (362, 3, MalKind::Index, 361), // too many selections
    (367, 4, MalKind::Tag, 367), // S code: instruction
    (OBJECT.len(), 0, MalKind::Trailing, OBJECT.len() as u64), // a byte too many
];

// Whether the worked object with one byte changed has this bad field.
fn is_told(alloc: Global, at: usize, byte: u8, told: Malformed) -> Result<bool, AllocError> {
    let bytes = changed(alloc, at, byte)?;
    Ok(bad_field(alloc, &bytes) == Some(told))
}

#[test]
fn bad_fields_are_told(rt: HostRuntime) {
    for (at, byte, kind, offset) in BAD_FIELDS {
        let told = Malformed { offset, kind };
        same_in(
            &rt,
            (at, byte),
            is_told(rt.alloc(), at, byte, told),
            Ok(true),
        );
    }
}

#[test]
fn the_worked_object_is_short_where_it_is_cut(rt: HostRuntime) {
    for n in 0..OBJECT.len() {
        let told = Some(Malformed {
            offset: n as u64,
            kind: MalKind::Short,
        });
        same(&rt, bad_field(rt.alloc(), &OBJECT[..n]), told);
    }
}

/// Whether an object has these bytes.
pub fn is_encoded(alloc: Global, object: &Object, bytes: &[u8]) -> bool
    requires { IsObject object.now }
{
    match encode(alloc, object) {
        Ok(again) => again.as_slice() == bytes,
        Err(_) => false,
    }
}

// Whether the object that these bytes say has these bytes.
fn is_encoded_again(alloc: Global, bytes: &[u8]) -> bool {
    match decode(alloc, bytes) {
        Ok(object) => is_encoded(alloc, &object, bytes),
        Err(_) => false,
    }
}

#[test]
fn what_is_decoded_is_encoded_again(rt: HostRuntime) {
    holds(&rt, is_encoded_again(rt.alloc(), &OBJECT));
}

// Root modules of two empty modes each, and schedules that end at once.
fn many(alloc: Global, modules: u8, schedules: u16) -> Result<Vec<u8>, AllocError>
    requires { modules ≤ 11 }
{
    let mut bytes = Vec::new(alloc);
    bytes.extend_from_slice(b"HTLO\x00\x01\x00\x00")?;
    bytes.extend_from_slice(&[0, 2 * modules, 0, modules, 0, 0, 0, 0, 0, 0, 0, 0])?;
    for module in 0..modules {
        bytes.extend_from_slice(&[1, b'm', 0, module, 0, 0, 0, 10])?;
        bytes.extend_from_slice(&[1, b'n', 0, module, 0, 0, 0, 10])?;
    }
    for module in 0..modules {
        bytes.extend_from_slice(&[1, b'A' + module, 255, 255, 0, 2 * module])?;
    }
    for _ in 0..2 * modules {
        bytes.extend_from_slice(&[0; 12])?;
    }
    bytes.extend_from_slice(&[0; 4])?;
    bytes.extend_from_slice(&schedules.to_be_bytes())?;
    for _ in 0..schedules {
        bytes.extend_from_slice(&[0, 0, 0, 1, 3])?;
    }
    Ok(bytes)
}

// Numbers of root modules and of schedules that don't fit.
const MISCOUNTED: [(u8, u16); 4] = [(10, 1_023), (11, 1_024), (11, 2_048), (0, 1)];

// What is answered of an object of so many modules and schedules.
fn counted(alloc: Global, modules: u8, schedules: u16) -> Option<Result<(), MalKind>>
    requires { modules ≤ 11 }
{
    let bytes = many(alloc, modules, schedules).ok()?;
    match decode(alloc, &bytes) {
        Ok(_) => Some(Ok(())),
        Err(DecodeFault::Malformed(told)) => Some(Err(told.kind)),
        Err(DecodeFault::Memory) => None,
    }
}

#[test]
fn selections_are_counted(rt: HostRuntime) {
    same(&rt, counted(rt.alloc(), 10, 1_024), Some(Ok(())));
    for (modules, schedules) in MISCOUNTED {
        let answer = counted(rt.alloc(), modules, schedules);
        same_in(&rt, (modules, schedules), answer, Some(Err(MalKind::Index)));
    }
}
