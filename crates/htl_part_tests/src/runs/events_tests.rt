// Scripts over small tables.
use crate::asserts::same;
use crate::made::made;
use htl_base::Memory;
use htl_edge::{Failed, Source, Tape};
use htl_model::{Event, Tables};
use htl_script::{Script, ScriptFault, ScriptKind, ScriptStop};
use std::alloc::Global;

// The sensors s (int) and g (bool), a communicator u, and in the mode M.m the invocations of dbl with
// worst case 4 and of the abstract hold.
const TWO_SENSORS: &str = "program P {
  sensor int s period 10 init 0;
  communicator int u period 10 init 0;
  sensor bool g period 10 init false;
  module M start m {
    task dbl input () output () worst 4;
    abstract task hold input () output () worst 4;
    mode m period 20 { invoke dbl input () output (); invoke hold input () output (); }
  }
}";

// Reads a script that comes in pieces of `step` bytes, and answers its events and how it ended.
fn read(
    alloc: Global,
    t: &Tables,
    bytes: &[u8],
    step: usize,
    fails: &[u64],
) -> Result<(Vec<Event>, Result<(), ScriptStop>), Memory> {
    let mut tape = Tape::new(alloc, bytes, step.max(1), fails)?;
    let mut script = Script::new();
    let mut events = Vec::new(alloc);
    'events: loop {
        match script.next(&mut tape, t) {
            Ok(Some(event)) => {
                if events.push(event).is_err() {
                    return Err(Memory);
                }
            }
            Ok(None) => return Ok((events, Ok(()))),
            Err(stop) => return Ok((events, Err(stop))),
        }
    }
}

// How the script of these tables ends.
fn ended_of(
    alloc: Global,
    t: &Tables,
    bytes: &[u8],
    step: usize,
    fails: &[u64],
) -> Option<Result<(), ScriptStop>> {
    let (_, answer) = read(alloc, t, bytes, step, fails).ok()?;
    Some(answer)
}

fn ended(
    alloc: Global,
    bytes: &[u8],
    step: usize,
    fails: &[u64],
) -> Option<Result<(), ScriptStop>> {
    let t = made(alloc, TWO_SENSORS)?;
    ended_of(alloc, &t, bytes, step, fails)
}

// Whether these events are read up to the end.
fn has_events_of(
    alloc: Global,
    t: &Tables,
    bytes: &[u8],
    step: usize,
    wanted: &[Event],
) -> Option<bool> {
    let (events, answer) = read(alloc, t, bytes, step, &[]).ok()?;
    Some(answer == Ok(()) && events.as_slice() == wanted)
}

fn has_events(alloc: Global, bytes: &[u8], step: usize, wanted: &[Event]) -> Option<bool> {
    let t = made(alloc, TWO_SENSORS)?;
    has_events_of(alloc, &t, bytes, step, wanted)
}

const REFUSED: [(&[u8], u64, ScriptKind); 10] = [
    (b"at 5\nat 5\n", 2, ScriptKind::Order),
    (b"sense s 1\n", 1, ScriptKind::Order),
    (b"at 0\nsense u 1\n", 2, ScriptKind::Unknown),
    (b"at 01\n", 1, ScriptKind::Form),
    (b"at 1000000001\n", 1, ScriptKind::Range),
    (b"end 5\nat 6\n", 2, ScriptKind::After),
    (b"at 0\ntook M.m.dbl 0\n", 2, ScriptKind::Range),
    (
        b"at 0\ntook M.m.dbl 5\n",
        2,
        ScriptKind::Overrun { took: 5, worst: 4 },
    ),
    (b"", 1, ScriptKind::NoEnd),
    (b"at 0", 2, ScriptKind::NoEnd),
];

#[test]
fn the_first_fault_is_named(rt: HostRuntime) {
    for (script, line, kind) in REFUSED {
        for step in [1usize, 7, 4096] {
            let fault = ScriptStop::Script(ScriptFault { line, kind });
            same(&rt, ended(rt.alloc(), script, step, &[]), Some(Err(fault)));
        }
    }
}

const LONG: ScriptFault = ScriptFault {
    line: 1,
    kind: ScriptKind::Long,
};

#[test]
fn long_lines_are_refused(rt: HostRuntime) {
    let mut script = [b'#'; 263];
    script[256..].copy_from_slice(b"\nend 5\n");
    for step in [1usize, 7, 4096] {
        let long = ended(rt.alloc(), &script, step, &[]);
        same(&rt, long, Some(Err(ScriptStop::Script(LONG))));
        let short = has_events(rt.alloc(), &script[1..], step, &[Event::End(5)]);
        same(&rt, short, Some(true));
    }
}

// A source of comments that never ends: a line as long as the buffer at each call.
#[derive(Drop)]
struct Comments;

impl Source for Comments {
    ghost use Rattle.std.specs.Prelude.{None};

    ghost rest = { λ _. None };

    ghost faults = { λ _. 0 };

    fn read(&mut self, buf: &mut [u8]) -> Result<usize, Failed> {
        buf.fill(b'#');
        if let Some(last) = buf.last_mut() {
            *last = b'\n';
        }
        Ok(buf.len())
    }
}

// Pieces of 256 bytes are lines, of which 4,194,304 are as much as a script may have.
const SIZE: ScriptFault = ScriptFault {
    line: 4_194_305,
    kind: ScriptKind::Size,
};

fn stop_of_comments(alloc: Global) -> Option<ScriptStop> {
    let t = made(alloc, TWO_SENSORS)?;
    Script::new().next(&mut Comments, &t).err()
}

#[test]
fn a_script_that_never_ends_is_refused(rt: HostRuntime) {
    let stop = stop_of_comments(rt.alloc());
    same(&rt, stop, Some(ScriptStop::Script(SIZE)));
}

const WHOLE: &[u8] =
    b"# a comment\n\nat 0\nsense s -9223372036854775808\nsense g 1\ntook M.m.dbl 4\nat 10\nsense s 5\nend 20\n# behind it";

const EVENTS: [Event; 7] = [
    Event::At(0),
    Event::Sense {
        comm: 0,
        x: i64::MIN,
    },
    Event::Sense { comm: 2, x: 1 },
    Event::Took { inv: 0, length: 4 },
    Event::At(10),
    Event::Sense { comm: 0, x: 5 },
    Event::End(20),
];

#[test]
fn a_whole_script_gives_its_events(rt: HostRuntime) {
    for step in [1usize, 7, 4096] {
        same(
            &rt,
            has_events(rt.alloc(), WHOLE, step, &EVENTS),
            Some(true),
        );
        // The last line may lack its line feed.
        let last = has_events(
            rt.alloc(),
            b"at 3\nend 3",
            step,
            &[Event::At(3), Event::End(3)],
        );
        same(&rt, last, Some(true));
    }
}

// Whether the source fails at this call behind some of the first seven events, or behind none.
fn is_cut_of(alloc: Global, t: &Tables, call: u64) -> Option<bool> {
    let (events, answer) = read(alloc, t, WHOLE, 7, &[call]).ok()?;
    let wanted = &EVENTS[..events.len().min(7)];
    Some(answer == Err(ScriptStop::Read) && events.as_slice() == wanted)
}

fn is_cut(alloc: Global, call: u64) -> Option<bool> {
    let t = made(alloc, TWO_SENSORS)?;
    is_cut_of(alloc, &t, call)
}

#[test]
fn a_fault_of_the_source_is_told(rt: HostRuntime) {
    // The script comes in 16 pieces of 7 bytes, and one more call meets its end.
    for call in 1..18u64 {
        same(&rt, is_cut(rt.alloc(), call), Some(true));
    }
    same(&rt, ended(rt.alloc(), WHOLE, 7, &[18]), Some(Ok(())));
}
