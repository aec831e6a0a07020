// `slack` over objects of sources in memory: its rows, and names of no such task.
use crate::asserts::same;
use crate::calls::{Content, EMPTY, Group, Place, Row, Streams, Text, first_wrong};
use htl_samples::samples::{DOUBLING, TWO_JOBS};

const DOUBLED: &[Row] = &[(
    Content::Text(DOUBLING),
    EMPTY,
    "at 0\n",
    0,
    Content::Text(
        "slack M.dbl worst 4 greatest 10\noverload 0 from 0 to 10 demand 11\nS 0:0 dispatch 0 until 10\nS 0:1 end\n",
    ),
    "",
)];

const INTERRUPTING: &[Row] = &[(
    Content::Text(TWO_JOBS),
    EMPTY,
    "at 0\n",
    0,
    Content::Text(
        "slack M.b worst 3 greatest 3\noverload 0 from 0 to 10 demand 11\nS 0:0 dispatch 0 until 2\nS 0:1 dispatch 1 until 5\nS 0:2 dispatch 0 until 10\nS 0:3 end\n",
    ),
    "",
)];

// The period of the module is the limit.
const LIMITED: &str =
    "slack M.dbl worst 4 greatest 10\nlimit period 10\nS 0:0 dispatch 0 until 10\nS 0:1 end\n";

const SHORT: &[Row] = &[(
    Content::Made(Text::Edited(DOUBLING, &[("mode m period 20", "mode m period 10")])),
    EMPTY,
    "at 0\n",
    0,
    Content::Text(LIMITED),
    "",
)];

const NO_TASK: &[Row] = &[(
    Content::Text(TWO_JOBS),
    EMPTY,
    "at 0\n",
    15,
    EMPTY,
    "htl: task\n",
)];

const GROUPS: &[Group] = &[
    Group {
        name: "greatest worst cases are told, of one task",
        words: &["slack", "A", "M.dbl"],
        place: Place::Compiled,
        streams: Streams::Usual,
        rows: DOUBLED,
    },
    Group {
        name: "greatest worst cases are told, of one of two",
        words: &["slack", "A", "M.b"],
        place: Place::Compiled,
        streams: Streams::Usual,
        rows: INTERRUPTING,
    },
    Group {
        name: "the period limits a worst case",
        words: &["slack", "A", "M.dbl"],
        place: Place::Compiled,
        streams: Streams::Usual,
        rows: SHORT,
    },
    Group {
        name: "no task has the name",
        words: &["slack", "A", "M.c"],
        place: Place::Compiled,
        streams: Streams::Usual,
        rows: NO_TASK,
    },
    Group {
        name: "no module has the name",
        words: &["slack", "A", "N.a"],
        place: Place::Compiled,
        streams: Streams::Usual,
        rows: NO_TASK,
    },
];

#[test]
fn calls_are_answered(rt: HostRuntime) {
    same(&rt, first_wrong(rt.alloc(), GROUPS), None);
}
