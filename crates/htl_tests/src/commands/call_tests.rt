// Whole calls of the top call: words and files, and streams that fail at each place.
use crate::asserts::{holds, holds_in, same};
use crate::calls::{Case, Content, EMPTY, Place, Streams, is_answered, is_answered_on};
use htl_samples::files::shelf_of;
use htl_samples::samples::{DOUBLED, DOUBLED_BEFORE, DOUBLING, READINGS};
use std::alloc::Global;

// ---- words and files

// Words that are no command, a file that isn't there, and one that is too long for a source and no object.
const UNSERVED: &[(&[&str], u8, &str)] = &[
    (&[], 2, "htl: usage\n"),
    (&[""], 2, "htl: usage\n"),
    (&["A"], 2, "htl: usage\n"),
    (&["go"], 2, "htl: usage\n"),
    (&["run"], 2, "htl: usage\n"),
    (&["jobs"], 2, "htl: usage\n"),
    (&["check"], 2, "htl: usage\n"),
    (&["plan"], 2, "htl: usage\n"),
    (&["show"], 2, "htl: usage\n"),
    (&["compile", "x"], 2, "htl: usage\n"),
    (&["compile", "with"], 2, "htl: usage\n"),
    (&["compile", "for", "A"], 2, "htl: usage\n"),
    (&["compile", "with", "A", "A"], 2, "htl: usage\n"),
    (&["code"], 2, "htl: usage\n"),
    (&["bulk"], 2, "htl: usage\n"),
    (&["bulk", "0"], 2, "htl: usage\n"),
    (&["bulk", "65"], 2, "htl: usage\n"),
    (&["bulk", "01"], 2, "htl: usage\n"),
    (&["bulk", "+1"], 2, "htl: usage\n"),
    (&["bulk", "A"], 2, "htl: usage\n"),
    (&["bulk", "1", "2"], 2, "htl: usage\n"),
    (&["slack", "A"], 2, "htl: usage\n"),
    (&["slack", "A", "M"], 2, "htl: usage\n"),
    (&["slack", "A", "M.t.u"], 2, "htl: usage\n"),
    (&["slack", "A", "M.task"], 2, "htl: usage\n"),
    (&["slack", "X", "M.t"], 8, "htl: shelf failed\n"),
    (&["patch", "A", "M.m"], 2, "htl: usage\n"),
    (&["patch", "A", "M", "A"], 2, "htl: usage\n"),
    (&["patch", "A", "M.mode", "A"], 2, "htl: usage\n"),
    (&["slack", "A", "M.m", "A"], 2, "htl: usage\n"),
    (&["patch", "A", "M.m", "A", "A"], 2, "htl: usage\n"),
    (&["GO", "A"], 2, "htl: usage\n"),
    (&["go", "A", "A"], 2, "htl: usage\n"),
    (&["run", "A", "A"], 2, "htl: usage\n"),
    (&["--help"], 2, "htl: usage\n"),
    (&["--version"], 2, "htl: usage\n"),
    (&["go", "X"], 8, "htl: shelf failed\n"),
    (&["run", "X"], 8, "htl: shelf failed\n"),
    (&["jobs", "X"], 8, "htl: shelf failed\n"),
    (&["plan", "X"], 8, "htl: shelf failed\n"),
    (&["show", "X"], 8, "htl: shelf failed\n"),
    (&["compile", "with", "X"], 8, "htl: shelf failed\n"),
    (&["go", "A"], 8, "htl: shelf too-long 1048577\n"),
    (
        &["compile", "with", "A"],
        8,
        "htl: shelf too-long 1048577\n",
    ),
    (&["run", "A"], 6, "htl: object malformed magic 0\n"),
];

#[test]
fn other_words_and_files_are_refused(rt: HostRuntime) {
    for (words, status, told) in UNSERVED {
        let case = Case {
            words,
            place: Place::Files,
            streams: Streams::Usual,
            contents: (Content::Filled(b' ', 1_048_577), EMPTY),
            script: "at 0\nsense s 3\nat 10\nsense s 5\nend 20\n",
            status: *status,
            out: EMPTY,
            told,
        };
        holds_in(&rt, words, is_answered(rt.alloc(), &case));
    }
}

// ---- streams that fail at each place

// `go` on DOUBLING over READINGS.
const DOUBLES: Case<'static> = Case {
    words: &["go", "A"],
    place: Place::Files,
    streams: Streams::Usual,
    contents: (Content::Text(DOUBLING), EMPTY),
    script: READINGS,
    status: 0,
    out: Content::Text(DOUBLED),
    told: "",
};

// The output has room for so many bytes.
#[test]
fn an_output_is_filled(rt: HostRuntime) {
    let mut case = DOUBLES;
    case.status = 10;
    case.told = "htl: write\n";
    for room in 0..DOUBLED.len() {
        case.streams = Streams::Room(room);
        case.out = Content::Front(DOUBLED.as_bytes(), room);
        holds_in(&rt, room, is_answered(rt.alloc(), &case));
    }
    // eight writes, and no ninth
    let mut whole = DOUBLES;
    whole.streams = Streams::RoomFails(DOUBLED.len(), 9);
    holds(&rt, is_answered(rt.alloc(), &whole));
}

// What was written where a read of one byte below this one fails: nothing before the second reading was read, all lines
// before it until the end of the run was read, and then all but the totals.
const WRITTEN: &[(u64, Content)] = &[
    (22, EMPTY),
    (39, Content::Text(DOUBLED_BEFORE)),
    (u64::MAX, Content::Lines(DOUBLED, 7)),
];

fn written_at(read: u64) -> Content {
    for (below, written) in WRITTEN {
        if read < *below {
            return *written;
        }
    }
    EMPTY
}

// Reads give one byte each, and one fails.
#[test]
fn a_byte_is_not_read(rt: HostRuntime) {
    let mut case = DOUBLES;
    case.status = 9;
    case.told = "htl: read\n";
    for read in 1..=READINGS.len() as u64 + 1 {
        case.streams = Streams::StepFails(1, read);
        case.out = written_at(read);
        holds_in(&rt, read, is_answered(rt.alloc(), &case));
    }
    // a read more than there is
    let mut whole = DOUBLES;
    whole.streams = Streams::StepFails(1, READINGS.len() as u64 + 2);
    holds(&rt, is_answered(rt.alloc(), &whole));
}

// Two fetches fail, and then none does. Each look at an answer makes two calls.
const FETCHES: [Case<'static>; 2] = [
    Case {
        words: &["go", "A"],
        place: Place::Files,
        streams: Streams::Usual,
        contents: (EMPTY, EMPTY),
        script: READINGS,
        status: 8,
        out: EMPTY,
        told: "htl: shelf failed\n",
    },
    DOUBLES,
];

// Whether the two calls are answered so, one after the other.
fn answers_of_fetches(alloc: Global) -> Option<[bool; 2]> {
    let source = Vec::from_slice(alloc, DOUBLING.as_bytes()).ok()?;
    let mut shelf = shelf_of(alloc, source, Vec::new(alloc), &[1, 2])?;
    let input = READINGS.as_bytes();
    let failed = is_answered_on(alloc, &FETCHES[0], &mut shelf, input)?;
    let done = is_answered_on(alloc, &FETCHES[1], &mut shelf, input)?;
    Some([failed, done])
}

#[test]
fn a_shelf_fails_at_first(rt: HostRuntime) {
    same(&rt, answers_of_fetches(rt.alloc()), Some([true, true]));
}

// ---- sources that are cut

// Sources with a blank between each two tokens, which have each production of the grammar, and the byte from which on they
// are cut.
const PRODUCTIONS: [(&str, usize); 2] = [
    (
        "program P { communicator int u period 10 init - 7 ; sensor bool s period 10 init true ; module M start m { task t input ( int x , bool y ) output ( int z = if ( ! y , x * - 3 , ( 2 + x ) ) , bool w = y && x < 2 || y ) worst 3 ; abstract task a input ( ) output ( int v ) worst 4 ; mode m period 10 program Q { port int p ; invoke t input ( ( u , 0 ) , p ) output ( p , ( u , 1 ) ) parent a ; switch ( s || u >= 3 , m ) ; } } }",
        0,
    ),
    ("program P { } program Q { }", 14),
];

// Whether a source that is cut here has its fault here.
fn is_told_when_cut(alloc: Global, source: &'static str, at: usize) -> bool {
    let Ok(told) = format!(in alloc; "htl: source syntax {at}\n") else {
        return false;
    };
    let case = Case {
        words: &["compile"],
        place: Place::Input,
        streams: Streams::Usual,
        contents: (Content::Front(source.as_bytes(), at), EMPTY),
        script: "",
        status: 3,
        out: EMPTY,
        told: told.as_str(),
    };
    is_answered(alloc, &case)
}

#[test]
fn cut_sources_have_their_fault_at_the_end(rt: HostRuntime) {
    for (source, from) in PRODUCTIONS {
        for (at, byte) in source.as_bytes().iter().enumerate() {
            if at >= from && *byte == b' ' {
                holds_in(&rt, at, is_told_when_cut(rt.alloc(), source, at));
            }
        }
    }
}
