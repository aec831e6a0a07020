// Jobs with the schedules and the overloaded intervals that were worked out tick by tick, outside this program.

/// Release, end of the window, worst case and predecessors.
pub type JobRow = (u64, u64, u64, u128);

/// Jobs, their places in an order, the period, and the dispatches of the schedule, by position and end.
pub const SCHEDULES: &[(&[JobRow], &[usize], u64, &[(u16, u32)])] = &[
    // tightening moves the chain forward
    (
        &[(0, 10, 3, 0), (0, 6, 3, 1), (0, 9, 3, 0)],
        &[0, 1, 2],
        10,
        &[(0, 3), (1, 6), (2, 9)],
    ),
    // the same, one tick less
    (
        &[(0, 10, 7, 0), (2, 6, 3, 0)],
        &[0, 1],
        10,
        &[(0, 2), (1, 5), (0, 10)],
    ),
    // no jobs
    (&[], &[], 5, &[]),
    // one job, with idle ticks before and after
    (&[(3, 8, 2, 0)], &[0], 10, &[(0, 5)]),
    // ties go to the lower position
    (
        &[(0, 9, 2, 0), (0, 9, 3, 0), (0, 9, 1, 0)],
        &[0, 1, 2],
        9,
        &[(0, 2), (1, 5), (2, 6)],
    ),
    // equal windows, full load
    (
        &[(0, 6, 2, 0), (0, 6, 2, 0), (0, 6, 2, 0)],
        &[0, 1, 2],
        6,
        &[(0, 2), (1, 4), (2, 6)],
    ),
    // a chain against the order of positions
    (
        &[(0, 12, 2, 2), (0, 12, 3, 4), (0, 12, 4, 0)],
        &[2, 1, 0],
        12,
        &[(2, 4), (1, 7), (0, 9)],
    ),
    // the same chain, full load
    (
        &[(0, 9, 2, 2), (0, 9, 3, 4), (0, 9, 4, 0)],
        &[2, 1, 0],
        9,
        &[(2, 4), (1, 7), (0, 9)],
    ),
    // a release preempts, and an equal end doesn't
    (
        &[(0, 10, 5, 0), (2, 5, 2, 0), (3, 10, 2, 0)],
        &[0, 1, 2],
        10,
        &[(0, 2), (1, 4), (0, 7), (2, 9)],
    ),
    // a gap, then a chain
    (
        &[(4, 12, 2, 0), (0, 12, 3, 1), (6, 9, 1, 0)],
        &[0, 1, 2],
        12,
        &[(0, 6), (2, 7), (1, 10)],
    ),
    // two predecessors
    (
        &[(0, 20, 3, 0), (2, 20, 4, 0), (1, 20, 2, 3), (0, 7, 1, 0)],
        &[0, 1, 2, 3],
        20,
        &[(3, 1), (0, 4), (1, 8), (2, 10)],
    ),
    // preempted twice
    (
        &[(0, 20, 6, 0), (1, 4, 2, 0), (5, 8, 2, 0), (15, 20, 3, 0)],
        &[0, 1, 2, 3],
        20,
        &[(0, 1), (1, 3), (0, 5), (2, 7), (0, 10), (3, 18)],
    ),
    // a mixed set
    (
        &[(1, 6, 2, 0), (3, 7, 1, 0), (6, 10, 2, 0), (3, 9, 4, 1)],
        &[0, 1, 2, 3],
        14,
        &[(0, 3), (1, 4), (3, 8), (2, 10)],
    ),
    // a mixed set
    (
        &[(0, 7, 4, 0), (5, 9, 4, 4), (3, 5, 1, 0), (5, 14, 1, 0)],
        &[0, 2, 1, 3],
        14,
        &[(0, 3), (2, 4), (0, 5), (1, 9), (3, 10)],
    ),
    // a mixed set
    (
        &[(0, 9, 3, 8), (2, 13, 2, 0), (3, 12, 2, 2), (5, 10, 1, 2)],
        &[3, 0, 1, 2],
        14,
        &[(1, 4), (2, 5), (3, 6), (0, 9), (2, 10)],
    ),
];

/// Jobs, their places in an order, the period, and the overloaded interval with what has to be done in it.
pub const OVERLOADS: &[(&[JobRow], &[usize], u64, (u64, u64, u64))] = &[
    // a window that ends before its predecessor is released
    (&[(5, 10, 3, 0), (0, 4, 1, 1)], &[0, 1], 10, (5, 4, 4)),
    // a short window inside a long one
    (&[(0, 10, 8, 0), (2, 6, 3, 0)], &[0, 1], 10, (0, 10, 11)),
    // equal windows, one tick over
    (
        &[(0, 6, 2, 0), (0, 6, 3, 0), (0, 6, 2, 0)],
        &[0, 1, 2],
        6,
        (0, 6, 7),
    ),
    // the same chain, one tick over
    (
        &[(0, 9, 2, 2), (0, 9, 3, 4), (0, 9, 5, 0)],
        &[2, 1, 0],
        9,
        (0, 9, 10),
    ),
    // windows that tighten past each other
    (
        &[(0, 5, 2, 0), (0, 12, 4, 1), (0, 12, 4, 2), (0, 12, 3, 4)],
        &[0, 1, 2, 3],
        12,
        (0, 12, 13),
    ),
    // two overloaded ends, the later is named
    (
        &[(0, 2, 3, 0), (0, 9, 1, 0), (5, 8, 4, 0)],
        &[0, 1, 2],
        10,
        (5, 8, 4),
    ),
    // one end, two overloaded starts, the earlier is named
    (
        &[(0, 8, 3, 0), (2, 8, 3, 0), (4, 8, 3, 0), (5, 8, 4, 0)],
        &[0, 1, 2, 3],
        10,
        (0, 8, 13),
    ),
    // a successor pulls an end forward
    (
        &[(0, 10, 2, 0), (0, 10, 4, 1), (3, 7, 3, 0), (8, 10, 2, 2)],
        &[0, 1, 2, 3],
        10,
        (0, 10, 11),
    ),
    // a mixed set
    (
        &[(0, 6, 4, 8), (2, 11, 3, 0), (0, 2, 2, 10), (0, 13, 2, 0)],
        &[2, 0, 3, 1],
        14,
        (0, 6, 11),
    ),
    // a mixed set
    (
        &[(5, 9, 2, 0), (3, 5, 4, 8), (0, 10, 2, 0), (0, 10, 2, 0)],
        &[0, 3, 1, 2],
        14,
        (0, 5, 6),
    ),
    // a mixed set
    (
        &[(2, 6, 2, 0), (2, 7, 1, 8), (1, 9, 4, 0), (5, 6, 2, 4)],
        &[0, 3, 1, 2],
        14,
        (1, 7, 9),
    ),
];
