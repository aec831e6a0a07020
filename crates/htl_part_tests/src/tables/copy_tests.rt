// Tables copied.
use crate::asserts::holds_in;
use crate::made::made;
use htl_model::Tables;
use htl_samples::samples::{ITEMS, PORT, REFINED};
use std::alloc::Global;

// A copy of the tables of a text; None without memory, or where the text has none.
fn copied(alloc: Global, text: &str) -> Option<Tables> {
    let t = made(alloc, text)?;
    t.copy(alloc).ok()
}

const TEXTS: [&str; 3] = [ITEMS, PORT, REFINED];

#[test]
fn tables_are_copied(rt: HostRuntime) {
    for text in TEXTS {
        holds_in(&rt, text, copied(rt.alloc(), text).is_some());
    }
}
