// Runs of accepted objects by the calls of a machine, with all their lines.
ghost use Rattle.std.specs.Prelude.{◌≡◌, ◌≤◌, ◌++◌, ◌∷◌, [], List, length, true};
ghost use Rattle.htl_base.specs.declared.limits.TheConstants as limit;
ghost use Rattle.htl_model.specs.declared.event.Event.{Event as Told};
ghost use Rattle.htl_machine.specs.Calls.{Follows, IsSensorValue, IsLength};

use crate::asserts::{holds, holds_in, same};
use htl_base::limits::MAX_INSTANT;
use htl_base::{Time, Ty, Value};
use htl_console::{Shown, line_end};
use htl_edge::Page;
use htl_load::{Loaded, load};
use htl_machine::Machine;
use htl_model::lookup::{is_concrete, task_worst};
use htl_model::{Event, Tables};
use htl_samples::object_bytes::{
    DOUBLING, PORT, REFINED, SOMETIMES, TANKS, TWO_JOBS, TWO_MODES, restarted,
};
use std::alloc::Global;

// Whether a communicator is a sensor and a value is of its type.
fn is_sensor_value(t: &Tables, comm: u16, x: Value) -> bool
    ensures { result ≡ true → IsSensorValue t.now comm x }
{
    match t.parts().comms.as_slice().get(comm as usize) {
        Some(item) => item.sensor && (item.ty == Ty::Int || x == 0 || x == 1),
        None => false,
    }
}

// Whether an invocation is concrete and may take this long.
fn is_length(t: &Tables, inv: u16, length: Time) -> bool
    ensures { result ≡ true → IsLength t.now inv length }
{
    match t.parts().invs.as_slice().get(inv as usize) {
        Some(item) => is_concrete(t, item)
            && 1 <= length
            && length <= task_worst(t, item.task) as u64,
        None => false,
    }
}

// Whether a reading may come next.
fn is_reading(m: &Machine<'_>, at: Time) -> bool
    ensures { result ≡ true → (m.now.run_state.reading ≤ at) × (at ≤ limit.MAX_INSTANT) }
{
    m.reading() <= at && at <= MAX_INSTANT
}

// Tells a machine one event, behind those told; false where it isn't allowed or the page is full.
fn tell(m: &mut Machine<'_>, t: &Tables, event: &Event, page: &mut Page) -> bool
    requires follows { (es : List Told) × Follows m.old es }
    requires tables { m.old.object.tables ≡ t.now }
    ensures follows { (es : List Told) → Follows m.old es → result ≡ true → Follows m.new (es ++ event.now ∷ []) }
    ensures tables { m.new.object.tables ≡ t.now }
{
    match *event {
        Event::At(at) => {
            if !is_reading(m, at) {
                return false;
            }
            m.advance(at, page).is_ok()
        }
        Event::Sense { comm, x } => {
            if !is_sensor_value(t, comm, x) {
                return false;
            }
            m.sense(comm, x);
            true
        }
        Event::Took { inv, length } => {
            if !is_length(t, inv, length) {
                return false;
            }
            m.took(inv, length);
            true
        }
        Event::End(_) => false,
    }
}

// Ends a run behind the events told and writes its numbers.
fn end(m: &mut Machine<'_>, at: Time, page: &mut Page) -> bool
    requires { (es : List Told) × Follows m.old es }
{
    if !is_reading(m, at) || m.finish(at, page).is_err() {
        return false;
    }
    let totals = m.totals();
    m.is_spent() && line_end(page, totals.at, totals.jobs, totals.e, totals.s).is_ok()
}

// Goes through the events up to the end of the run.
fn play(m: &mut Machine<'_>, t: &Tables, events: &[Event], to: Time, page: &mut Page) -> bool
    requires follows { Follows m.old [] }
    requires tables { m.old.object.tables ≡ t.now }
{
    for k in 0..events.len() {
        if !tell(m, t, &events[k], page) {
            return false;
        }
    }
    end(m, to, page)
}

// Runs an accepted object; false where there is no memory, an event isn't allowed or the page is full.
fn run_on(alloc: Global, loaded: &Loaded, events: &[Event], to: Time, page: &mut Page) -> bool {
    match Machine::new(alloc, loaded, Shown::Jobs) {
        Ok(mut m) => play(&mut m, loaded.tables(), events, to, page),
        Err(_) => false,
    }
}

// The same of an object; false too where it isn't accepted.
fn run(alloc: Global, object: &[u8], events: &[Event], to: Time, page: &mut Page) -> bool {
    match load(alloc, object) {
        Ok(loaded) => run_on(alloc, &loaded, events, to, page),
        Err(_) => false,
    }
}

fn writes(alloc: Global, object: &[u8], events: &[Event], to: Time, text: &str) -> bool {
    match Page::new(alloc, 1024, &[]) {
        Ok(mut page) => run(alloc, object, events, to, &mut page)
            && page.bytes() == text.as_bytes(),
        Err(_) => false,
    }
}

// What a machine shows of a communicator before instant 0, with its reading; None where there is no memory, the object isn't accepted or
// there is no such communicator.
fn at_first(alloc: Global, object: &[u8], comm: u16) -> Option<(Value, Value, Time, bool)> {
    let loaded = load(alloc, object).ok()?;
    let Ok(m) = Machine::new(alloc, &loaded, Shown::Nothing) else {
        return None;
    };
    first_of(&m, loaded.tables(), comm)
}

fn first_of(m: &Machine<'_>, t: &Tables, comm: u16) -> Option<(Value, Value, Time, bool)>
    requires follows { Follows m.now [] }
    requires tables { m.now.object.tables ≡ t.now }
{
    shown(m, t, comm)
}

fn shown(m: &Machine<'_>, t: &Tables, comm: u16) -> Option<(Value, Value, Time, bool)>
    requires { length m.now.run_state.world.values ≡ length t.now.comms }
{
    if comm as usize >= t.parts().comms.as_slice().len() {
        return None;
    }
    Some((
        m.value(comm),
        m.world().value(comm),
        m.reading(),
        m.is_spent(),
    ))
}

#[test]
fn a_machine_shows_what_stands_before_instant_0(rt: HostRuntime) {
    same(
        &rt,
        at_first(rt.alloc(), &DOUBLING, 1),
        Some((7, 7, 0, false)),
    );
}

// An object, events, the end of the run, and what is written.
const RUNS: &[(&[u8], &[Event], Time, &str)] = &[
    // what is read is doubled
    (
        &DOUBLING,
        &[
            Event::At(0),
            Event::Sense { comm: 0, x: 3 },
            Event::At(10),
            Event::Sense { comm: 0, x: 5 },
        ],
        10,
        "v 0 s 3\nv 0 u 7\nm 0 M m\nj 0 4 M.m.dbl\nd 4 M.m.dbl\nv 10 s 5\nv 10 u 6\nend 10 jobs 1 e 10 s 2\n",
    ),
    // a job that takes one tick
    (
        &DOUBLING,
        &[
            Event::At(0),
            Event::Sense { comm: 0, x: 3 },
            Event::Took { inv: 0, length: 1 },
            Event::At(10),
            Event::Sense { comm: 0, x: 5 },
        ],
        10,
        "v 0 s 3\nv 0 u 7\nm 0 M m\nj 0 1 M.m.dbl\nd 1 M.m.dbl\nv 10 s 5\nv 10 u 6\nend 10 jobs 1 e 10 s 2\n",
    ),
    // readings between
    (
        &DOUBLING,
        &[
            Event::At(0),
            Event::Sense { comm: 0, x: 3 },
            Event::At(3),
            Event::At(7),
            Event::At(10),
            Event::Sense { comm: 0, x: 5 },
        ],
        10,
        "v 0 s 3\nv 0 u 7\nm 0 M m\nj 0 4 M.m.dbl\nd 4 M.m.dbl\nv 10 s 5\nv 10 u 6\nend 10 jobs 1 e 10 s 2\n",
    ),
    // one job interrupts another
    (
        &TWO_JOBS,
        &[],
        10,
        "v 0 x 1\nv 0 y 0\nv 0 z 0\nm 0 M m\nj 0 2 M.m.a\nj 2 5 M.m.b\nd 5 M.m.b\nv 6 y 5\nj 5 10 M.m.a\nd 10 M.m.a\nv 10 z 2\nend 10 jobs 2 e 26 s 4\n",
    ),
    // no job before its release
    (
        &TWO_JOBS,
        &[Event::At(0), Event::Took { inv: 0, length: 1 }],
        10,
        "v 0 x 1\nv 0 y 0\nv 0 z 0\nm 0 M m\nj 0 1 M.m.a\nd 1 M.m.a\nj 2 5 M.m.b\nd 5 M.m.b\nv 6 y 5\nv 10 z 2\nend 10 jobs 2 e 26 s 4\n",
    ),
    // a port is read once its writer is done
    (
        &PORT,
        &[Event::At(0), Event::Took { inv: 1, length: 1 }],
        10,
        "v 0 x 2\nv 0 u 0\nm 0 M m\nj 0 1 M.m.p\nd 1 M.m.p\nj 1 5 M.m.q\nd 5 M.m.q\nv 10 u 14\nend 10 jobs 2 e 20 s 3\n",
    ),
    // a refinement begins
    (
        &SOMETIMES,
        &[Event::At(10), Event::Sense { comm: 2, x: 1 }],
        20,
        "v 0 u 3\nv 0 w 0\nv 0 g 0\nm 0 M m\nm 0 N off\nj 0 2 M.m.fix\nd 2 M.m.fix\nv 10 w 1\nv 10 g 1\nm 10 N on\nj 10 13 N.on.fast\nd 13 N.on.fast\nj 13 15 M.m.fix\nd 15 M.m.fix\nv 20 u 10\nv 20 w 2\nend 20 jobs 3 e 54 s 6\n",
    ),
    // a module ends with the mode above and starts anew
    (
        &REFINED,
        &[
            Event::At(10),
            Event::Sense { comm: 0, x: 1 },
            Event::At(20),
            Event::Sense { comm: 0, x: 0 },
        ],
        30,
        "v 0 g 0\nv 0 u 0\nm 0 M m\nm 0 N one\nj 0 3 N.one.f\nd 3 N.one.f\nv 10 g 1\nv 10 u 1\nm 10 M rest\nm 10 N -\nv 20 g 0\nm 20 M m\nm 20 N one\nj 20 23 N.one.f\nd 23 N.one.f\nv 30 u 2\nm 30 N two\nend 30 jobs 2 e 50 s 5\n",
    ),
    // two tanks
    (
        &TANKS,
        &[
            Event::At(0),
            Event::Sense { comm: 0, x: 250 },
            Event::Sense { comm: 1, x: 300 },
        ],
        500,
        "v 0 h1 250\nv 0 h2 300\nv 0 u1 0\nv 0 u2 0\nm 0 T1 hold\nm 0 C1 p\nm 0 T2 hold\nj 100 160 C1.p.prop\nd 160 C1.p.prop\nj 160 260 T2.hold.direct\nd 260 T2.hold.direct\nv 400 u1 300\nv 400 u2 100\nend 500 jobs 2 e 39 s 3\n",
    ),
    // a switch takes the schedule of the mode
    (
        &TWO_MODES,
        &[Event::At(10), Event::Sense { comm: 0, x: 1 }],
        20,
        "v 0 g 0\nv 0 u 0\nm 0 M one\nj 0 3 M.one.f\nd 3 M.one.f\nv 10 g 1\nv 10 u 1\nm 10 M two\nj 10 14 M.two.h\nd 14 M.two.h\nv 20 u 101\nend 20 jobs 2 e 30 s 4\n",
    ),
];

// A switch to the same mode keeps what stands below.
const RESTART: [Event; 2] = [Event::At(10), Event::Sense { comm: 0, x: 1 }];

const AFTER_RESTART: &str =
    "v 0 g 0\nv 0 u 0\nm 0 M m\nm 0 N one\nj 0 3 N.one.f\nd 3 N.one.f\nv 10 g 1\nv 10 u 1\nm 10 N two\nj 10 14 N.two.h\nd 14 N.two.h\nv 20 u 101\nend 20 jobs 2 e 41 s 4\n";

#[test]
fn runs_are_written(rt: HostRuntime) {
    for (object, events, to, text) in RUNS {
        holds_in(&rt, text, writes(rt.alloc(), object, events, *to, text));
    }
    holds(
        &rt,
        writes(rt.alloc(), &restarted(), &RESTART, 20, AFTER_RESTART),
    );
}
