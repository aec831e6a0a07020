// The limits of frames, and the numbers of a frame: worked out outside this program.
use crate::asserts::same;
use crate::made::made;
use htl_base::Time;
use htl_form::frames;
use htl_model::{FormFault, Tables};
use htl_samples::pieces::{Piece, joined};
use std::alloc::Global;

// Two root modules, the first with two modes of period p, the second with one of period q.
fn two_modules(alloc: Global, p: &'static str, q: &'static str) -> Option<Tables> {
    let pieces = [
        Piece::Once("program P { module A start a { mode a period "),
        Piece::Once(p),
        Piece::Once(" { } mode b period "),
        Piece::Once(p),
        Piece::Once(" { } } module B start c { mode c period "),
        Piece::Once(q),
        Piece::Once(" { } } }"),
    ];
    let text = joined(alloc, &pieces).ok()?;
    made(alloc, text.as_str())
}

// The hyperperiod of a frame, its starts, paths and nodes.
type Numbers = (Option<Time>, usize, u32, u32);

fn numbers_of(t: &Tables) -> Result<Numbers, FormFault> {
    frames(t)?;
    Ok((t.hyper(), t.starts(), t.paths(), t.nodes()))
}

// The numbers of the frame of modules of these periods, or the limit that is exceeded.
fn answer(alloc: Global, p: &'static str, q: &'static str) -> Option<Result<Numbers, FormFault>> {
    let t = two_modules(alloc, p, q)?;
    Some(numbers_of(&t))
}

// The fault at the first mode of module B.
fn exceeded(have: u64, need: u64) -> FormFault {
    FormFault {
        rule: 2,
        module: 1,
        mode: 2,
        inv: None,
        have,
        need,
    }
}

// The numbers of a frame, or what there is and what there may be.
type Wanted = Result<Numbers, (u64, u64)>;

fn told(wanted: Wanted) -> Result<Numbers, FormFault> {
    match wanted {
        Ok(numbers) => Ok(numbers),
        Err((have, need)) => Err(exceeded(have, need)),
    }
}

// The periods, and what is answered.
const FRAMES: [(&'static str, &'static str, Wanted); 6] = [
    // a multiple of a million at most
    ("1000000", "999999", Err((999_999_000_000, 1_000_000))),
    // at most 32 starts
    ("10", "330", Err((33, 32))),
    ("320", "10", Ok((Some(320), 32, 2, 64))),
    // at most 1,024 paths
    ("10", "110", Err((2_048, 1_024))),
    // they are told up to a cap
    ("10", "320", Err((4_294_967_295, 1_024))),
    ("10", "100", Ok((Some(100), 10, 1_024, 2_046))),
];

#[test]
fn limits_and_numbers_of_frames(rt: HostRuntime) {
    for (p, q, wanted) in FRAMES {
        same(&rt, answer(rt.alloc(), p, q), Some(told(wanted)));
    }
}
