// Calls of `times` over a shelf and streams in memory: what is asked, and whether it is answered so.
use htl_edge::{Page, Shelf};
use htl_samples::files::shelf_of;
use htl_times_top::{status, times};
use std::alloc::Global;

/// What fails: a fetch and a write by their numbers, 0 for none; and for how many bytes the output has room.
#[derive(Clone, Copy)]
pub struct Faults {
    pub fetch: u64,
    pub write: u64,
    pub room: usize,
}

pub const NO_FAULTS: Faults = Faults {
    fetch: 0,
    write: 0,
    room: 1000,
};

/// The status, and what is written and told.
pub type Answer = (u8, &'static str, &'static str);

/// The words, the object in the file A, what fails, and the answer.
pub type Row = (&'static [&'static str], &'static [u8], Faults, Answer);

/// Whether a call over a shelf is answered so; None where no memory is left, here and below.
pub fn is_answered_on<S: Shelf>(
    alloc: Global,
    words: &[&str],
    shelf: &mut S,
    faults: Faults,
    answer: Answer,
) -> Option<bool> {
    let mut out = Page::new(alloc, faults.room, &[faults.write]).ok()?;
    let mut err = Page::new(alloc, 100, &[]).ok()?;
    let came = status(&times(alloc, words, shelf, &mut out, &mut err));
    let (wanted, written, told) = answer;
    Some(came == wanted && out.bytes() == written.as_bytes() && err.bytes() == told.as_bytes())
}

// Whether the call of a row is answered so.
fn is_answered(alloc: Global, row: &Row) -> Option<bool> {
    let (words, object, faults, answer) = *row;
    let object = Vec::from_slice(alloc, object).ok()?;
    let mut shelf = shelf_of(alloc, object, Vec::new(alloc), &[faults.fetch])?;
    is_answered_on(alloc, words, &mut shelf, faults, answer)
}

/// The number of the first row with another answer.
pub fn first_wrong(alloc: Global, rows: &[Row]) -> Option<usize> {
    for (k, row) in rows.iter().enumerate() {
        if is_answered(alloc, row) != Some(true) {
            return Some(k);
        }
    }
    None
}
