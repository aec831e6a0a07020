// Objects whose refinement is replaced, and the first faults of donors.
use crate::asserts::same;
use htl_base::Name;
use htl_load::{Loaded, load};
use htl_model::{FormFault, Tables};
use htl_object::decode;
use htl_patch::{PatchFault, PatchStop, patch};
use htl_samples::object_bytes::{REFINED, changed};
use std::alloc::Global;

// The worst case of the first task of the refinement; or the fault, and whether the new tables were handed back.
type Answer = Result<u32, (PatchFault, bool)>;

const LONGER_THAN_REFINED: FormFault = FormFault {
    rule: 16,
    module: 1,
    mode: 2,
    inv: Some(1),
    have: 5,
    need: 4,
};

// What patching answers; None where the donor's bytes are no object.
fn patched(
    alloc: Global,
    host: &Loaded,
    unit: &Name,
    mode: &Name,
    donor: &[u8],
) -> Option<Result<Loaded, PatchStop>> {
    match decode(alloc, donor) {
        Ok(donor) => Some(patch(alloc, host, unit, mode, &donor)),
        Err(_) => None,
    }
}

// The second task's worst case.
fn second_worst(t: &Tables) -> Option<u32> {
    let task = t.parts().tasks.as_slice().get(1)?;
    Some(task.worst)
}

// What is compared with the table; None without memory.
fn told(answer: Result<Loaded, PatchStop>) -> Option<Answer> {
    match answer {
        Ok(loaded) => Some(Ok(second_worst(loaded.tables())?)),
        Err(PatchStop::Refused(fault, tables)) => Some(Err((fault, tables.is_some()))),
        Err(PatchStop::Memory) => None,
    }
}

// The answer for words and a donor's bytes.
fn answer(alloc: Global, unit: &[u8], mode: &[u8], donor: &[u8]) -> Option<Answer> {
    let unit = Name::new(unit)?;
    let mode = Name::new(mode)?;
    let host = load(alloc, &REFINED).ok()?;
    let answer = patched(alloc, &host, &unit, &mode, donor)?;
    told(answer)
}

const MODE: Answer = Err((PatchFault::Mode, false));

// The words, a byte of the donor and what it is, and the answer.
const DONORS: [(&[u8], &[u8], usize, u8, Answer); 10] = [
    // a program patched with itself
    (b"M", b"m", 0, 72, Ok(3)),
    // another worst case
    (b"M", b"m", 128, 4, Ok(4)),
    // a mode that has no refinement, in both
    (b"N", b"one", 128, 4, Ok(3)),
    // no such mode
    (b"M", b"x", 0, 72, MODE),
    // none in the donor
    (b"M", b"m", 53, 107, MODE),
    // the first communicator begins with another value
    (
        b"M",
        b"m",
        35,
        1,
        Err((PatchFault::Comms { place: 0 }, false)),
    ),
    // the second
    (
        b"M",
        b"m",
        51,
        4,
        Err((PatchFault::Comms { place: 1 }, false)),
    ),
    // the refined task has another name
    (
        b"M",
        b"m",
        107,
        109,
        Err((PatchFault::Parent { inv: 1 }, false)),
    ),
    // a longer worst case than the refined task's
    (
        b"M",
        b"m",
        128,
        5,
        Err((PatchFault::IllFormed(LONGER_THAN_REFINED), true)),
    ),
    // `not` in place of `add`
    (
        b"M",
        b"m",
        257,
        5,
        Err((PatchFault::Function { id: 0 }, false)),
    ),
];

#[test]
fn donors_and_their_first_faults(rt: HostRuntime) {
    for (unit, mode, at, by, wanted) in DONORS {
        let donor = changed(rt.alloc(), &REFINED, at, &[by], true).expect(&rt, "memory");
        same(&rt, answer(rt.alloc(), unit, mode, &donor), Some(wanted));
    }
}
