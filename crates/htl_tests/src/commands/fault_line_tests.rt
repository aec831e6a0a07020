// The lines that tell of answers that no call of the tests has.
use crate::asserts::same;
use htl_edge::Page;
use htl_script::{ScriptFault, ScriptKind};
use htl_top::{Outcome, report};

const TOLD: &[(Outcome, &str)] = &[
    (
        Outcome::Script(ScriptFault {
            line: 12,
            kind: ScriptKind::Long,
        }),
        "htl: script 12 long\n",
    ),
    (
        Outcome::Script(ScriptFault {
            line: 1,
            kind: ScriptKind::Size,
        }),
        "htl: script 1 size\n",
    ),
    (Outcome::Memory, "htl: memory\n"),
];

#[test]
fn lines_are_told(rt: HostRuntime) {
    for (outcome, line) in TOLD {
        let mut page = Page::new(rt.alloc(), 100, &[]).expect(&rt, "memory");
        report(&mut page, None, outcome);
        same(&rt, page.bytes(), line.as_bytes());
    }
}
