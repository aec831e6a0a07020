// Objects that are accepted, and the first faults of changed ones.
use crate::asserts::{holds, same};
use htl_base::Name;
use htl_ecode::{EFault, EKind};
use htl_load::{LoadFault, Loaded, ObjectFault, load};
use htl_model::{FormFault, Tables};
use htl_object::{MalKind, Malformed};
use htl_samples::object_bytes::{DOUBLING, NO_MODULE, PORT, REFINED, TWO_JOBS, TWO_MODES, changed};
use htl_walk::Miss;
use std::alloc::{AllocError, Global};

// The object of one invocation, with a plain jump to the block that reads.
const JUMPING: [u8; 215] = [
    // the text and the version
    72, 84, 76, 79, 0, 1,
    // seven counts
    0, 2, 0, 1, 0, 1, 0, 0, 0, 1, 0, 1, 0, 0,
    // communicators
    1, 115, 0, 1, 0, 0, 0, 10, 0, 0, 0, 0, 0, 0, 0, 0, 1, 117, 0, 0, 0, 0, 0, 10, 0, 0, 0, 0, 0, 0,
    0, 7,
    // modes
    1, 109, 0, 0, 0, 0, 0, 20,
    // modules
    1, 77, 255, 255, 0, 0,
    // tasks
    3, 100, 98, 108, 0, 0, 0, 0, 0, 0, 4, 0, 1, 0, 0, 1, 0,
    // invocations
    0, 0, 0, 0, 255, 255, 0, 1, 0, 0, 0, 0, 0, 0, 0, 0, 1, 0, 0, 1, 0, 0, 0, 1,
    // functions
    0, 1, 0, 0, 0, 3, 3, 0, 0, 1, 0, 0, 0, 0, 0, 0, 0, 2, 8,
    // addresses
    0, 0, 0, 0, 0, 0, 0, 1, 0, 0, 0, 10,
    // E code
    0, 0, 0, 12, 8, 0, 0, 4, 0, 0, 0, 10, 1, 0, 0, 0, 5, 4, 0, 0, 0, 0, 3, 0, 0, 0, 11, 4, 0, 0, 0,
    20, 2, 0, 0, 0, 10, 11, 1, 0, 0, 0, 0, 11, 2, 0, 0, 0, 0, 3, 0, 0, 11, 6, 0, 0, 0, 1, 6, 0, 0,
    0, 7,
    // S code
    0, 1, 0, 0, 0, 2, 1, 0, 0, 0, 0, 0, 4, 3,
];

// The numbers of root selections and of positions in the widest, or the fault.
pub type Answer = Result<(u32, usize), ObjectFault>;

const LONG: FormFault = FormFault {
    rule: 7,
    module: 0,
    mode: 0,
    inv: Some(0),
    have: 21,
    need: 20,
};

const LONGER_THAN_REFINED: FormFault = FormFault {
    rule: 16,
    module: 1,
    mode: 2,
    inv: Some(1),
    have: 5,
    need: 4,
};

pub fn bad_field(offset: u64, kind: MalKind) -> Answer {
    Err(ObjectFault::Malformed(Malformed { offset, kind }))
}

fn extent(t: &Tables) -> (u32, usize) {
    let mut widest = 0;
    for selection in 0..t.selections() {
        widest = t.positions(selection).max(widest);
    }
    (t.selections(), widest)
}

// What loading answers; None without memory.
pub fn answer(alloc: Global, bytes: &[u8]) -> Option<Answer> {
    match load(alloc, bytes) {
        Ok(loaded) => Some(Ok(extent(loaded.tables()))),
        Err(LoadFault::Refused(fault)) => Some(Err(fault)),
        Err(LoadFault::Memory) => None,
    }
}

// An object, the place of other bytes, these bytes, whether the rest is kept, and the answer.
type ChangedRow = (&'static [u8], usize, &'static [u8], bool, Answer);

const CHANGED: [ChangedRow; 25] = [
    // objects as they are
    (&NO_MODULE, 0, &[], true, Ok((0, 0))),
    (&DOUBLING, 0, &[], true, Ok((1, 1))),
    (&JUMPING, 0, &[], true, Ok((1, 1))),
    (&TWO_JOBS, 0, &[], true, Ok((1, 2))),
    (&PORT, 0, &[], true, Ok((1, 2))),
    (&TWO_MODES, 0, &[], true, Ok((2, 1))),
    (&REFINED, 0, &[], true, Ok((2, 1))),
    // its last byte is missing
    (
        &NO_MODULE,
        41,
        &[],
        false,
        Err(ObjectFault::Malformed(Malformed {
            offset: 41,
            kind: MalKind::Short,
        })),
    ),
    // a byte behind it
    (
        &NO_MODULE,
        42,
        &[0],
        true,
        Err(ObjectFault::Malformed(Malformed {
            offset: 42,
            kind: MalKind::Trailing,
        })),
    ),
    // another text
    (
        &NO_MODULE,
        0,
        &[73],
        true,
        Err(ObjectFault::Malformed(Malformed {
            offset: 0,
            kind: MalKind::Magic,
        })),
    ),
    // another version
    (
        &NO_MODULE,
        5,
        &[3],
        true,
        Err(ObjectFault::Malformed(Malformed {
            offset: 4,
            kind: MalKind::Version,
        })),
    ),
    // no name
    (
        &NO_MODULE,
        21,
        &[49],
        true,
        Err(ObjectFault::Malformed(Malformed {
            offset: 20,
            kind: MalKind::Spelling,
        })),
    ),
    // no type
    (
        &NO_MODULE,
        22,
        &[2],
        true,
        Err(ObjectFault::Malformed(Malformed {
            offset: 22,
            kind: MalKind::Tag,
        })),
    ),
    // a period of 0
    (
        &NO_MODULE,
        27,
        &[0],
        true,
        Err(ObjectFault::Malformed(Malformed {
            offset: 24,
            kind: MalKind::Index,
        })),
    ),
    // a worst case above the period
    (
        &DOUBLING,
        73,
        &[0, 0, 0, 21],
        true,
        Err(ObjectFault::IllFormed(LONG)),
    ),
    // a worst case above that of the refined task
    (
        &REFINED,
        125,
        &[0, 0, 0, 5],
        true,
        Err(ObjectFault::IllFormed(LONGER_THAN_REFINED)),
    ),
    // `not` in place of `mul`
    (
        &DOUBLING,
        125,
        &[5],
        true,
        Err(ObjectFault::Function { id: 0 }),
    ),
    // a switch by a number
    (
        &TWO_MODES,
        212,
        &[0, 0],
        true,
        Err(ObjectFault::Function { id: 2 }),
    ),
    // `leave` in place of `return`
    (
        &DOUBLING,
        181,
        &[9],
        true,
        Err(ObjectFault::ECode(EFault {
            address: 6,
            kind: EKind::Action,
        })),
    ),
    // a job that is dispatched twice more
    (
        &TWO_JOBS,
        305,
        &[
            0, 0, 0, 5, 1, 0, 0, 0, 0, 0, 1, 1, 0, 0, 0, 0, 0, 2, 1, 0, 1, 0, 0, 0, 5, 1, 0, 0, 0,
            0, 0, 10, 3,
        ],
        false,
        Ok((1, 2)),
    ),
    // a last dispatch that ends too soon
    (
        &TWO_JOBS,
        326,
        &[0, 0, 0, 9],
        true,
        Err(ObjectFault::Schedule {
            selection: 0,
            miss: Miss::Unfinished {
                position: 0,
                left: 1,
            },
        }),
    ),
    // the second job runs last
    (
        &TWO_JOBS,
        305,
        &[0, 0, 0, 3, 1, 0, 0, 0, 0, 0, 10, 1, 0, 1, 0, 0, 0, 10, 3],
        false,
        Err(ObjectFault::Schedule {
            selection: 0,
            miss: Miss::Late {
                position: 1,
                finish: 10,
                window_end: 6,
            },
        }),
    ),
    // a dispatch past the round
    (
        &TWO_JOBS,
        305,
        &[0, 0, 0, 3, 1, 0, 0, 0, 0, 0, 11, 1, 0, 1, 0, 0, 0, 10, 3],
        false,
        Err(ObjectFault::Schedule {
            selection: 0,
            miss: Miss::Order { instr: 0 },
        }),
    ),
    // the reader runs first
    (
        &PORT,
        254,
        &[0, 0, 0, 3, 1, 0, 0, 0, 0, 0, 10, 1, 0, 1, 0, 0, 0, 10, 3],
        false,
        Err(ObjectFault::Schedule {
            selection: 0,
            miss: Miss::Before {
                position: 0,
                predecessor: 1,
                at: 0,
            },
        }),
    ),
    // too little for the second selection
    (
        &TWO_MODES,
        400,
        &[0, 0, 0, 3],
        true,
        Err(ObjectFault::Schedule {
            selection: 1,
            miss: Miss::Unfinished {
                position: 0,
                left: 1,
            },
        }),
    ),
];

#[test]
fn objects_and_their_first_faults(rt: HostRuntime) {
    for (object, at, by, rest, want) in CHANGED {
        let bytes = changed(rt.alloc(), object, at, by, rest).expect(&rt, "memory");
        same(&rt, answer(rt.alloc(), &bytes), Some(want));
    }
}

// The numbers of instructions of the E code, of the last schedule and of the first function, and of schedules.
fn sizes(loaded: &Loaded) -> Option<(usize, usize, usize, usize)> {
    let functions = loaded.tables().parts().functions.as_slice().len();
    let schedule = loaded.schedules().last()?;
    if functions == 0 {
        return None;
    }
    let code = loaded.function(0).code;
    Some((
        loaded.ecode().instrs.as_slice().len(),
        schedule.instrs.as_slice().len(),
        code.instrs.as_slice().len(),
        loaded.object().schedules.as_slice().len(),
    ))
}

#[test]
fn what_is_loaded_is_handed_out(rt: HostRuntime) {
    let loaded = load(rt.alloc(), &TWO_JOBS)
        .ok()
        .expect(&rt, "an accepted object");
    same(&rt, sizes(&loaded), Some((18, 4, 3, 1)));
}

// The platform that what is loaded names.
fn platform(alloc: Global, bytes: &[u8]) -> Option<Name> {
    load(alloc, bytes).ok()?.platform()
}

// NO_MODULE for a platform.
fn named(alloc: Global) -> Result<Vec<u8>, AllocError> {
    let mut named = Vec::new(alloc);
    named.extend_from_slice(b"HTLO\x00\x02\x04fast")?;
    named.extend_from_slice(&NO_MODULE[6..])?;
    Ok(named)
}

#[test]
fn a_platform_is_handed_out(rt: HostRuntime) {
    let named = named(rt.alloc()).expect(&rt, "memory");
    holds(&rt, platform(rt.alloc(), &named) == Name::new(b"fast"));
    holds(&rt, platform(rt.alloc(), &NO_MODULE).is_none());
}

// How many of four broken places are mended, from the first on, and the answer: one test after the other.
const MENDED: [(usize, Answer); 4] = [
    (0, Err(ObjectFault::IllFormed(LONG))),
    (1, Err(ObjectFault::Function { id: 0 })),
    (
        2,
        Err(ObjectFault::ECode(EFault {
            address: 6,
            kind: EKind::Action,
        })),
    ),
    (
        3,
        Err(ObjectFault::Schedule {
            selection: 0,
            miss: Miss::Unfinished {
                position: 0,
                left: 1,
            },
        }),
    ),
];

// The places, and the bytes that break them.
const BROKEN: [(usize, u8); 4] = [(76, 21), (125, 5), (181, 9), (208, 3)];

fn broken_behind(mended: usize) -> [u8; DOUBLING.len()] {
    let mut bytes = DOUBLING;
    for k in mended..BROKEN.len() {
        let (at, byte) = BROKEN[k];
        if at < bytes.len() {
            bytes[at] = byte;
        }
    }
    bytes
}

#[test]
fn one_test_after_the_other(rt: HostRuntime) {
    for (mended, want) in MENDED {
        same(&rt, answer(rt.alloc(), &broken_behind(mended)), Some(want));
    }
}
