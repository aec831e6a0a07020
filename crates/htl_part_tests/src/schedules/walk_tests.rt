// Schedules that are accepted, with the finish offsets, and schedules with each kind of first miss.
ghost use Rattle.std.specs.Prelude.{◌≡◌, ◌≤◌, ℕ, length, true, All};
ghost use Rattle.htl_walk.specs.Refinement.{HasWork};

use crate::asserts::holds_in;
use crate::schedules::edf_rows::JobRow;
use crate::schedules::edf_tests::jobs_in;
use htl_base::Seq;
use htl_walk::{Job, Miss, SInstr, Schedule, worst};
use std::alloc::{AllocError, Global};

/// Whether each job is present, with some work.
pub fn have_work(jobs: &[Job]) -> bool
    ensures { result ≡ true → All HasWork jobs.now }
{
    for k in 0..jobs.len() {
        if !jobs[k].present || jobs[k].worst == 0 {
            return false;
        }
    }
    true
}

// The finish offsets of a list, or its first miss; None for jobs without work.
fn walk(
    alloc: Global,
    jobs: &[Job],
    instrs: &[SInstr],
    period: u64,
) -> Result<Option<Result<Vec<u64>, Miss>>, AllocError> {
    if !have_work(jobs) || jobs.len() > 128 || instrs.len() > 1000 {
        return Ok(None);
    }
    let s = Schedule {
        instrs: Seq::new(instrs.to_vec(alloc)?),
    };
    let mut finish = vec![in alloc; 0u64; jobs.len()]?;
    match worst(jobs, &s, period, &mut finish) {
        Ok(()) => Ok(Some(Ok(finish))),
        Err(miss) => Ok(Some(Err(miss))),
    }
}

// An instruction of a schedule.
#[derive(Clone, Copy)]
enum Step {
    Run(u16, u32),
    Idle(u32),
    End,
}

const TWO_WINDOWS: &[JobRow] = &[(0, 10, 7, 0), (2, 6, 3, 0)];

const ONE_PORT: &[JobRow] = &[(0, 10, 4, 2), (0, 10, 3, 0)];

// Position 2 waits for the other two.
const THREE: &[JobRow] = &[(0, 10, 3, 0), (2, 6, 2, 0), (0, 9, 4, 3)];

// Jobs, a schedule, the period, and the finish offsets or the first miss.
const WALKS: &[(&[JobRow], &[Step], u64, Result<&[u64], Miss>)] = &[
    // two windows
    (
        TWO_WINDOWS,
        &[
            Step::Run(0, 2),
            Step::Run(1, 5),
            Step::Run(0, 10),
            Step::End,
        ],
        10,
        Ok(&[10, 5]),
    ),
    (
        TWO_WINDOWS,
        &[Step::Run(0, 2), Step::Run(1, 5), Step::Run(0, 9), Step::End],
        10,
        Err(Miss::Unfinished {
            position: 0,
            left: 1,
        }),
    ),
    (
        TWO_WINDOWS,
        &[Step::Run(0, 10), Step::Run(1, 10), Step::End],
        10,
        Err(Miss::Late {
            position: 1,
            finish: 10,
            window_end: 6,
        }),
    ),
    (
        TWO_WINDOWS,
        &[Step::Run(0, 11), Step::Run(1, 10), Step::End],
        10,
        Err(Miss::Order { instr: 0 }),
    ),
    // one port
    (
        ONE_PORT,
        &[Step::Run(0, 10), Step::Run(1, 10), Step::End],
        10,
        Err(Miss::Before {
            position: 0,
            predecessor: 1,
            at: 0,
        }),
    ),
    (
        ONE_PORT,
        &[Step::Run(1, 3), Step::Run(0, 7), Step::End],
        10,
        Ok(&[7, 3]),
    ),
    // first misses
    (
        THREE,
        &[
            Step::Run(0, 2),
            Step::Run(1, 4),
            Step::Run(0, 5),
            Step::Run(2, 9),
            Step::End,
        ],
        12,
        Ok(&[5, 4, 9]),
    ),
    // the form, also where the walk goes wrong earlier
    (THREE, &[], 12, Err(Miss::Order { instr: 0 })),
    (
        THREE,
        &[Step::Run(0, 2), Step::Run(1, 4)],
        12,
        Err(Miss::Order { instr: 2 }),
    ),
    (
        THREE,
        &[Step::Run(0, 13)],
        12,
        Err(Miss::Order { instr: 0 }),
    ),
    (
        THREE,
        &[Step::Run(0, 2), Step::End, Step::Run(1, 4), Step::End],
        12,
        Err(Miss::Order { instr: 1 }),
    ),
    (
        THREE,
        &[Step::Run(0, 2), Step::Idle(13), Step::End],
        12,
        Err(Miss::Order { instr: 1 }),
    ),
    (
        THREE,
        &[Step::Run(0, 2), Step::Run(3, 4), Step::End],
        12,
        Err(Miss::Order { instr: 1 }),
    ),
    (
        THREE,
        &[Step::Run(2, 4), Step::Run(0, 13), Step::End],
        12,
        Err(Miss::Order { instr: 1 }),
    ),
    // a predecessor, the lowest, also where the dispatch doesn't run
    (
        THREE,
        &[
            Step::Run(2, 0),
            Step::Run(0, 2),
            Step::Run(1, 4),
            Step::Run(0, 5),
            Step::Run(2, 9),
            Step::End,
        ],
        12,
        Err(Miss::Before {
            position: 2,
            predecessor: 0,
            at: 0,
        }),
    ),
    (
        THREE,
        &[Step::Run(0, 3), Step::Run(2, 7), Step::End],
        12,
        Err(Miss::Before {
            position: 2,
            predecessor: 1,
            at: 1,
        }),
    ),
    (
        THREE,
        &[Step::Idle(6), Step::Run(2, 12), Step::End],
        12,
        Err(Miss::Before {
            position: 2,
            predecessor: 0,
            at: 1,
        }),
    ),
    (
        THREE,
        &[Step::Run(0, 3), Step::Idle(7), Step::Run(2, 12), Step::End],
        12,
        Err(Miss::Before {
            position: 2,
            predecessor: 1,
            at: 2,
        }),
    ),
    // a finish after the window
    (
        THREE,
        &[
            Step::Run(0, 3),
            Step::Run(1, 5),
            Step::Idle(8),
            Step::Run(2, 12),
            Step::End,
        ],
        12,
        Err(Miss::Late {
            position: 2,
            finish: 12,
            window_end: 9,
        }),
    ),
    (
        THREE,
        &[Step::Idle(6), Step::Run(0, 9), Step::Run(1, 12), Step::End],
        12,
        Err(Miss::Late {
            position: 1,
            finish: 11,
            window_end: 6,
        }),
    ),
    // two in either order
    (
        THREE,
        &[Step::Idle(5), Step::Run(1, 9), Step::Run(2, 12), Step::End],
        12,
        Err(Miss::Late {
            position: 1,
            finish: 7,
            window_end: 6,
        }),
    ),
    (
        THREE,
        &[Step::Run(2, 1), Step::Idle(5), Step::Run(1, 9), Step::End],
        12,
        Err(Miss::Before {
            position: 2,
            predecessor: 0,
            at: 0,
        }),
    ),
    // work that is left, at the lowest position
    (
        THREE,
        &[
            Step::Run(0, 2),
            Step::Run(1, 4),
            Step::Run(0, 5),
            Step::Run(2, 8),
            Step::End,
        ],
        12,
        Err(Miss::Unfinished {
            position: 2,
            left: 1,
        }),
    ),
    (
        THREE,
        &[Step::Run(0, 2), Step::End],
        12,
        Err(Miss::Unfinished {
            position: 0,
            left: 1,
        }),
    ),
    (
        THREE,
        &[Step::End],
        12,
        Err(Miss::Unfinished {
            position: 0,
            left: 3,
        }),
    ),
];

fn instrs_of(alloc: Global, steps: &[Step]) -> Result<Vec<SInstr>, AllocError> {
    let mut instrs = Vec::new(alloc);
    for step in steps {
        instrs.push(match *step {
            Step::Run(position, until) => SInstr::Dispatch { position, until },
            Step::Idle(until) => SInstr::Idle { until },
            Step::End => SInstr::End,
        })?;
    }
    Ok(instrs)
}

// What the walk of a schedule comes to; None for jobs without work.
fn walked(
    alloc: Global,
    rows: &[JobRow],
    steps: &[Step],
    period: u64,
) -> Result<Option<Result<Vec<u64>, Miss>>, AllocError> {
    let jobs = jobs_in(alloc, rows)?;
    let instrs = instrs_of(alloc, steps)?;
    walk(alloc, jobs.as_slice(), instrs.as_slice(), period)
}

// Whether these are the finish offsets, or this the first miss.
fn is_wanted(answer: &Option<Result<Vec<u64>, Miss>>, want: &Result<&[u64], Miss>) -> bool {
    match (answer, want) {
        (Some(Ok(finishes)), Ok(wanted)) => finishes.as_slice() == *wanted,
        (Some(Err(miss)), Err(wanted)) => miss == wanted,
        _ => false,
    }
}

#[test]
fn schedules_are_walked(rt: HostRuntime) {
    for (k, (jobs, steps, period, want)) in WALKS.iter().enumerate() {
        let answer = walked(rt.alloc(), jobs, steps, *period).expect(&rt, "memory");
        holds_in(&rt, k, is_wanted(&answer, want));
    }
}
