//! A shelf of two files, and what a fetch gives.
use htl_edge::{Drawer, ShelfFault};
use std::alloc::Global;

/// A shelf that holds these bytes under the names A and B, and whose fetches of these numbers fail.
pub fn shelf_of(alloc: Global, a: Vec<u8>, b: Vec<u8>, fails: &[u64]) -> Option<Drawer> {
    let first = String::from_str(alloc, "A").ok()?;
    let second = String::from_str(alloc, "B").ok()?;
    let items = vec![in alloc; (first, a), (second, b)].ok()?;
    Drawer::new(alloc, items, fails).ok()
}

/// Whether a fetch gives these bytes, or this fault.
pub fn is_fetched(
    answer: Result<Vec<u8>, ShelfFault>,
    wanted: Result<&'static [u8], ShelfFault>,
) -> bool {
    match (answer, wanted) {
        (Ok(bytes), Ok(held)) => bytes.as_slice() == held,
        (Err(fault), Err(known)) => fault == known,
        _ => false,
    }
}
