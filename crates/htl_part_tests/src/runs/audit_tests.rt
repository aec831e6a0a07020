// Job logs, read and judged by the calls of an auditor.
ghost use Rattle.std.specs.Prelude.{◌<◌, [], List, length, All};
ghost use Rattle.htl_audit.specs.Auditing.{AuditFollows, IsAudited};
ghost use Rattle.htl_model.specs.declared.event.Event.{Event as Told};

use crate::asserts::same_in;
use htl_audit::{Auditor, LogFault, LogKind, LogStop, Slice, read_log};
use htl_edge::Page;
use htl_load::{Loaded, load};
use htl_samples::object_bytes::TWO_JOBS;
use std::alloc::Global;

// The jobs and slices of a legal log, or the first fault of another.
type Verdict = Result<(u64, u64), LogFault>;

// The verdict on a log whose run has ended.
fn verdict(auditor: &Auditor<'_>) -> Verdict
    requires { (es : List Told) × IsAudited auditor.now es auditor.now.machine.run_state.reading }
{
    match auditor.verdict() {
        Ok(totals) => Ok((totals.jobs, totals.slices)),
        Err(fault) => Err(fault),
    }
}

// The same for a run without events that ends at 10; None where the page is full.
fn verdict_at_end(auditor: &mut Auditor<'_>, page: &mut Page) -> Option<Verdict>
    requires { AuditFollows auditor.old [] }
{
    match auditor.finish(10, page) {
        Ok(()) => Some(verdict(auditor)),
        Err(_) => None,
    }
}

fn judged(alloc: Global, loaded: &Loaded, log: &[Slice]) -> Option<Verdict>
    requires { All (λ x. x.inv < length loaded.now.tables.invs) log.now }
{
    let mut page = Page::new(alloc, 128, &[]).ok()?;
    match Auditor::new(alloc, loaded, log) {
        Ok(mut auditor) => verdict_at_end(&mut auditor, &mut page),
        Err(_) => None,
    }
}

// What is told of a log; None without memory.
fn told(alloc: Global, log: &[u8]) -> Option<Verdict> {
    let loaded = load(alloc, &TWO_JOBS).ok()?;
    match read_log(alloc, log, loaded.tables()) {
        Ok(slices) => judged(alloc, &loaded, &slices),
        Err(LogStop::Refused(fault)) => Some(Err(fault)),
        Err(LogStop::Memory) => None,
    }
}

const LOGS: [(&[u8], Verdict); 4] = [
    (b"j 0 3 M.m.a\nj 3 6 M.m.b\nj 6 10 M.m.a\n", Ok((2, 3))),
    (
        b"j 0 3 M.m.a\nj 3 6 M.m.b\nj 6 9 M.m.a\n",
        Err(LogFault {
            line: 4,
            kind: LogKind::Short,
        }),
    ),
    (
        b"j 0 3 M.m.a\n\n",
        Err(LogFault {
            line: 2,
            kind: LogKind::Form,
        }),
    ),
    (
        b"j 0 3 M.m.c\n",
        Err(LogFault {
            line: 1,
            kind: LogKind::Unknown,
        }),
    ),
];

#[test]
fn logs_are_read_and_judged(rt: HostRuntime) {
    for (log, wanted) in LOGS {
        same_in(&rt, log, told(rt.alloc(), log), Some(wanted));
    }
}
