// Platform files: what `compile with` answers of them, and what is said of the objects that it writes.
use crate::asserts::{holds, same};
use crate::calls::{Content, EMPTY, Group, Place, Row, Streams, Text, compiled_on, first_wrong};
use htl_base::limits::MAX_SOURCE;
use htl_compile::compile_with;
use htl_samples::samples::TWO_JOBS;
use std::alloc::Global;

const ILL_FORMED: &str =
    "program P { module M start a { mode a period 10 { } mode b period 20 { } } }";

// Sources and platform files.
const REFUSED: &[Row] = &[
    (
        Content::Text(TWO_JOBS),
        Content::Text("name = \"fast\"\n[worst]\n\"M.c\" = 1\n"),
        "",
        12,
        EMPTY,
        "htl: platform unknown 2\n",
    ),
    (
        Content::Text(TWO_JOBS),
        Content::Text("name = \"fast\"\n[worst]\n\"M.a\" = 0\n"),
        "",
        12,
        EMPTY,
        "htl: platform range 2\n",
    ),
    (
        Content::Text(TWO_JOBS),
        Content::Text("name = 3"),
        "",
        12,
        EMPTY,
        "htl: platform shape 0\n",
    ),
    (
        Content::Text(TWO_JOBS),
        Content::Text(""),
        "",
        12,
        EMPTY,
        "htl: platform shape 0\n",
    ),
    (
        Content::Text(TWO_JOBS),
        Content::Text("["),
        "",
        12,
        EMPTY,
        "htl: platform text\n",
    ),
    // the source's fault comes first, and that of the form rules last
    (
        Content::Text("program P { #"),
        Content::Text("["),
        "",
        3,
        EMPTY,
        "htl: source char 12\n",
    ),
    (
        Content::Text(ILL_FORMED),
        Content::Text("["),
        "",
        12,
        EMPTY,
        "htl: platform text\n",
    ),
    (
        Content::Text(ILL_FORMED),
        Content::Text("name = \"fast\""),
        "",
        4,
        EMPTY,
        "htl: ill-formed 1 at M.b have 20 need 10\n",
    ),
    // eleven ticks in ten
    (
        Content::Text(TWO_JOBS),
        Content::Text("name = \"slow\"\n[worst]\n\"M.a\" = 8\n"),
        "",
        5,
        EMPTY,
        "htl: unschedulable 0 from 0 to 10 demand 11\n",
    ),
];

const UNREAD: &[Row] = &[(
    Content::Text(TWO_JOBS),
    Content::Text("["),
    "",
    9,
    EMPTY,
    "htl: read\n",
)];

const FAST: &str = "name = \"fast\"\n[worst]\n\"M.a\" = 6\n";

// The job takes six ticks of work in place of seven.
const FASTER: &str = "v 0 x 1
v 0 y 0
v 0 z 0
m 0 M m
j 0 2 M.m.a
j 2 5 M.m.b
d 5 M.m.b
v 6 y 5
j 5 9 M.m.a
d 9 M.m.a
v 10 z 2
end 10 jobs 2 e 26 s 4
";

const CHECKED: &[Row] = &[(
    Content::ObjectOn(Text::Whole(TWO_JOBS), FAST),
    EMPTY,
    "",
    0,
    Content::Text("accepted selections 1 positions 2\n"),
    "",
)];

const RUN: &[Row] = &[(
    Content::ObjectOn(Text::Whole(TWO_JOBS), FAST),
    EMPTY,
    "end 10\n",
    0,
    Content::Text(FASTER),
    "",
)];

// What `show` writes first of the object for the platform.
const LISTED: &[Row] = &[(
    Content::ObjectOn(Text::Whole(TWO_JOBS), FAST),
    EMPTY,
    "",
    10,
    Content::Text("platform fast\ncomm x in"),
    "htl: write\n",
)];

const GROUPS: &[Group] = &[
    Group {
        name: "platforms are refused",
        words: &["compile", "with", "A"],
        place: Place::Input,
        streams: Streams::Usual,
        rows: REFUSED,
    },
    Group {
        name: "a failing input is told of platforms",
        words: &["compile", "with", "A"],
        place: Place::Input,
        streams: Streams::Fails(1, 0),
        rows: UNREAD,
    },
    Group {
        name: "objects for platforms are checked",
        words: &["check", "A"],
        place: Place::Files,
        streams: Streams::Usual,
        rows: CHECKED,
    },
    Group {
        name: "objects for platforms are run",
        words: &["jobs", "A"],
        place: Place::Files,
        streams: Streams::Usual,
        rows: RUN,
    },
    Group {
        name: "platforms are listed",
        words: &["show", "A"],
        place: Place::Files,
        streams: Streams::Room(23),
        rows: LISTED,
    },
];

#[test]
fn calls_are_answered(rt: HostRuntime) {
    same(&rt, first_wrong(rt.alloc(), GROUPS), None);
}

// What one call makes of a source on the platform that a file says; None where they are too long or it is refused.
fn made_on(alloc: Global, source: &[u8], file: &[u8]) -> Option<Vec<u8>> {
    if source.len() > MAX_SOURCE as usize || file.len() > MAX_SOURCE as usize {
        return None;
    }
    compile_with(alloc, source, file).ok()
}

#[test]
fn one_call_makes_the_object_for_a_platform(rt: HostRuntime) {
    let source = TWO_JOBS.as_bytes();
    let object = compiled_on(rt.alloc(), source, FAST).expect(&rt, "an object");
    holds(
        &rt,
        made_on(rt.alloc(), source, FAST.as_bytes()) == Some(object),
    );
}
