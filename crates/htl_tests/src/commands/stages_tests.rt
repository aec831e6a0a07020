// What an object, tables and an input go through, call by call.
use crate::asserts::{holds, same};
use htl_base::limits::MAX_SOURCE;
use htl_base::{Seq, Time};
use htl_compile::{bulk_source, front};
use htl_edge::Tape;
use htl_load::{Loaded, formed, scheduled, spelled};
use htl_model::Tables;
use htl_object::decode;
use htl_refine::Selection;
use htl_samples::object_bytes::DOUBLING;
use htl_samples::samples::{ITEMS, LOOPS};
use htl_top::read_selection;
use std::alloc::Global;

// The tables of a text.
fn read(alloc: Global, text: &str) -> Option<Tables> {
    if text.len() > MAX_SOURCE as usize {
        return None;
    }
    front(alloc, text.as_bytes()).ok()
}

fn accepted(alloc: Global, bytes: &[u8]) -> Option<Loaded> {
    let object = decode(alloc, bytes).ok()?;
    let formed = formed(object).ok()?;
    let spelled = spelled(formed).ok()?;
    scheduled(spelled).ok()
}

#[test]
fn an_object_is_formed_spelled_and_scheduled(rt: HostRuntime) {
    let loaded = accepted(rt.alloc(), &DOUBLING).expect(&rt, "an object");
    same(&rt, loaded.schedules().len(), 1);
}

// The window of an invocation, from the start of its round.
fn window(t: &Tables, inv: u16) -> Option<(Time, Time)> {
    if inv as usize >= t.parts().invs.as_slice().len() {
        return None;
    }
    let window = t.window(inv);
    Some((window.release, window.end))
}

#[test]
fn tables_have_windows_and_parts(rt: HostRuntime) {
    let t = read(rt.alloc(), LOOPS).expect(&rt, "tables");
    same(
        &rt,
        [window(&t, 0), window(&t, 1), window(&t, 2)],
        [Some((0, 10)), Some((0, 20)), None],
    );
    holds(
        &rt,
        t.period() == Some(10) && t.into_parts().invs.as_slice().len() == 2,
    );
}

// Whether an input says these modes, or has a fault where none are told.
fn is_said(alloc: Global, t: &Tables, input: &[u8], modes: Option<&[Option<u16>]>) -> Option<bool> {
    let none = vec![in alloc; None; t.parts().modules.as_slice().len()].ok()?;
    let mut selection = Selection {
        modes: Seq::new(none),
    };
    let mut tape = Tape::new(alloc, input, 3, &[]).ok()?;
    match read_selection(&mut tape, t, &mut selection) {
        Ok(()) => Some(modes == Some(selection.modes.as_slice())),
        Err(_) => Some(modes == None),
    }
}

#[test]
fn an_input_says_a_selection(rt: HostRuntime) {
    let alloc = rt.alloc();
    let t = read(alloc, ITEMS).expect(&rt, "tables");
    let wanted: &[Option<u16>] = &[Some(0), Some(3)];
    same(
        &rt,
        is_said(alloc, &t, b"mode A a\nmode B d\n", Some(wanted)),
        Some(true),
    );
    same(
        &rt,
        is_said(alloc, &t, b"mode A a\nmode B a\n", None),
        Some(true),
    );
}

// Whether the source of a generated program has tables.
fn is_generated(alloc: Global) -> bool {
    match bulk_source(alloc, 2) {
        Ok(source) if source.len() < 10_000 => front(alloc, &source).is_ok(),
        _ => false,
    }
}

#[test]
fn a_generated_source_has_tables(rt: HostRuntime) {
    holds(&rt, is_generated(rt.alloc()));
}
