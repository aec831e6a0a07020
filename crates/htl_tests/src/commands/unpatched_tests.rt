// `patch` with donors whose refinement isn't taken over, with files that aren't had, and with an output that fails.
use crate::asserts::same;
use crate::calls::{
    Content, EMPTY, Group, Piece, Place, Row, Streams, Text, Tried, first_other, first_wrong,
};
use htl_samples::object_bytes::{NO_MODULE, REFINED as REFINED_BYTES};
use htl_samples::samples::SOMETIMES;

// The abstract task has another name than the host's.
const STRAY: &str = "program P {
  communicator int u period 10 init 3;
  communicator int w period 10 init 0;
  sensor bool g period 10 init false;
  module M start m {
    abstract task plot input (int i) output (int o) worst 4;
    mode m period 10 program Q { invoke plot input ((w, 0)) output ((u, 1)); }
  }
}
program Q {
  module N start on {
    task fast input (int i) output (int o = i) worst 3;
    mode on period 10 { invoke fast input ((w, 0)) output ((u, 1)) parent plot; }
  }
}";

// No module refines the mode, in which the host invokes an abstract task.
const BARE: &str = "program P {
  communicator int u period 10 init 3;
  communicator int w period 10 init 0;
  sensor bool g period 10 init false;
  module M start m { mode m period 10 program Q { } }
}
program Q { }";

// The module has no such mode.
const OTHER: &str = "program P {
  communicator int u period 10 init 3;
  communicator int w period 10 init 0;
  sensor bool g period 10 init false;
  module M start k { mode k period 10 { } }
}";

// A program whose mode M.m no module refines, beside 40 others, and one in which 24 modules refine it.
const CROWDED: &[Piece] = &[
    Piece::Once("program P { "),
    Piece::Numbered(40, "module K", " start k { mode k period 10 { } } "),
    Piece::Once(" module M start m { mode m period 10 program Q { } } } program Q { "),
    Piece::Numbered(0, "module L", " start l { mode l period 10 { } } "),
    Piece::Once(" }"),
];

const CROWDING: &[Piece] = &[
    Piece::Once("program P { "),
    Piece::Numbered(0, "module K", " start k { mode k period 10 { } } "),
    Piece::Once(" module M start m { mode m period 10 program Q { } } } program Q { "),
    Piece::Numbered(24, "module L", " start l { mode l period 10 { } } "),
    Piece::Once(" }"),
];

// The mode isn't in the host.
const OF_X: &[Row] = &[(
    Content::Object(Text::Whole(SOMETIMES)),
    Content::Object(Text::Whole(SOMETIMES)),
    "",
    14,
    EMPTY,
    "htl: patch mode\n",
)];

const OF_K: &[Row] = &[(
    Content::Object(Text::Whole(SOMETIMES)),
    Content::Object(Text::Whole(OTHER)),
    "",
    14,
    EMPTY,
    "htl: patch mode\n",
)];

const OF_M: &[Row] = &[
    (
        Content::Object(Text::Whole(SOMETIMES)),
        Content::Object(Text::Whole(OTHER)),
        "",
        14,
        EMPTY,
        "htl: patch mode\n",
    ),
    (
        Content::Object(Text::Whole(SOMETIMES)),
        Content::Object(Text::Whole(STRAY)),
        "",
        14,
        EMPTY,
        "htl: patch parent 1\n",
    ),
    (
        Content::Object(Text::Whole(SOMETIMES)),
        Content::Object(Text::Whole(BARE)),
        "",
        14,
        EMPTY,
        "htl: patch ill-formed 13 at M.m.plan have 0 need 1\n",
    ),
    // other communicators
    (
        Content::Object(Text::Whole(SOMETIMES)),
        Content::Object(Text::Edited(SOMETIMES, &[("init 3", "init 4")])),
        "",
        14,
        EMPTY,
        "htl: patch comms 0\n",
    ),
    (
        Content::Object(Text::Whole(SOMETIMES)),
        Content::Object(Text::Edited(
            SOMETIMES,
            &[(
                "init false;\n",
                "init false;\n  communicator int x period 10 init 0;\n",
            )],
        )),
        "",
        14,
        EMPTY,
        "htl: patch comms 3\n",
    ),
    // the donor allows its refinement more than the host does
    (
        Content::Object(Text::Whole(SOMETIMES)),
        Content::Object(Text::Edited(SOMETIMES, &[("worst 4", "worst 6"), ("worst 3", "worst 5")])),
        "",
        14,
        EMPTY,
        "htl: patch ill-formed 16 at N.on.fast have 5 need 4\n",
    ),
    // the module L stays in the host, and refines the mode in the donor
    (
        Content::Object(Text::Edited(
            SOMETIMES,
            &[(
                "module M",
                "module L start l { mode l period 10 { } } module M",
            )],
        )),
        Content::Object(Text::Edited(
            SOMETIMES,
            &[(
                "module N",
                "module L start l { mode l period 10 { } } module N",
            )],
        )),
        "",
        14,
        EMPTY,
        "htl: patch twice 1\n",
    ),
    // the modules are too many
    (
        Content::Object(Text::Pieces(CROWDED)),
        Content::Object(Text::Pieces(CROWDING)),
        "",
        14,
        EMPTY,
        "htl: patch limit 2 count 65\n",
    ),
    // another byte in the object itself
    (
        Content::Changed(&REFINED_BYTES, 0, &[], true),
        Content::Changed(&REFINED_BYTES, 0, &[73], true),
        "",
        14,
        EMPTY,
        "htl: patch malformed magic 0\n",
    ),
    (
        Content::Changed(&REFINED_BYTES, 0, &[], true),
        Content::Changed(&REFINED_BYTES, 257, &[5], true),
        "",
        14,
        EMPTY,
        "htl: patch function 0\n",
    ),
    // the object is judged first
    (
        Content::Changed(&NO_MODULE, 41, &[], false),
        Content::Changed(&NO_MODULE, 41, &[], false),
        "",
        6,
        EMPTY,
        "htl: object malformed short 41\n",
    ),
    (
        Content::Changed(&NO_MODULE, 0, &[], true),
        Content::Changed(&NO_MODULE, 41, &[], false),
        "",
        14,
        EMPTY,
        "htl: patch malformed short 41\n",
    ),
];

const MISSING: &[Row] = &[(
    Content::Changed(&NO_MODULE, 41, &[], false),
    EMPTY,
    "",
    8,
    EMPTY,
    "htl: shelf failed\n",
)];

const GROUPS: &[Group] = &[
    Group {
        name: "the host has no such mode",
        words: &["patch", "A", "M.x", "B"],
        place: Place::Files,
        streams: Streams::Usual,
        rows: OF_X,
    },
    Group {
        name: "only the donor has the mode",
        words: &["patch", "A", "M.k", "B"],
        place: Place::Files,
        streams: Streams::Usual,
        rows: OF_K,
    },
    Group {
        name: "donors are refused",
        words: &["patch", "A", "M.m", "B"],
        place: Place::Files,
        streams: Streams::Usual,
        rows: OF_M,
    },
    Group {
        name: "the object is missing",
        words: &["patch", "X", "M.m", "A"],
        place: Place::Files,
        streams: Streams::Usual,
        rows: MISSING,
    },
    Group {
        name: "the donor is missing",
        words: &["patch", "A", "M.m", "X"],
        place: Place::Files,
        streams: Streams::Usual,
        rows: MISSING,
    },
];

// The fetches that fail: those of the object, and those of the donor behind an object that is none. Each look at an answer makes two
// calls, of two fetches each where the first is done.
const UNFETCHED: &[(Streams, u8, Content, &str)] = &[
    (Streams::Fetches(&[1, 2]), 8, EMPTY, "htl: shelf failed\n"),
    (Streams::Fetches(&[2, 4]), 8, EMPTY, "htl: shelf failed\n"),
];

const CUT: &[(Streams, u8, Content, &str)] = &[(
    Streams::Room(100),
    10,
    Content::Front(&REFINED_BYTES, 100),
    "htl: write\n",
)];

const TRIED: &[Tried] = &[
    Tried {
        name: "a fetch fails",
        words: &["patch", "A", "M.m", "B"],
        place: Place::Files,
        contents: (
            Content::Changed(&NO_MODULE, 41, &[], false),
            Content::Changed(&NO_MODULE, 41, &[], false),
        ),
        script: "",
        rows: UNFETCHED,
    },
    Tried {
        name: "the output fails",
        words: &["patch", "A", "M.m", "B"],
        place: Place::Files,
        contents: (
            Content::Changed(&REFINED_BYTES, 0, &[], true),
            Content::Changed(&REFINED_BYTES, 0, &[], true),
        ),
        script: "",
        rows: CUT,
    },
];

#[test]
fn calls_are_answered(rt: HostRuntime) {
    same(&rt, first_wrong(rt.alloc(), GROUPS), None);
    same(&rt, first_other(rt.alloc(), TRIED), None);
}
