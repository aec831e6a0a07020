// Schedules and overloaded intervals that were worked out tick by tick, outside this program.
ghost use Rattle.std.specs.Prelude.{◌≡◌, ◌≤◌, ◌<◌, ℕ, length, get_or, true};
ghost use Rattle.htl_edf.specs.Tight.{NoCycle};
ghost use Rattle.htl_edf.specs.Lists.{jobs_of};
ghost use Rattle.htl_walk.specs.WellFormed.{IsWellFormed, AreWellFormed, EndWithin};

use crate::asserts::{holds, holds_in, same};
use crate::schedules::edf_rows::{JobRow, OVERLOADS, SCHEDULES};
use htl_edf::{EdfFault, Tight, edf, tighten};
use htl_model::bits::has_bit;
use htl_walk::{Job, SInstr};
use std::alloc::{AllocError, Global};

fn job(release: u64, end: u64, worst: u64, preds: u128) -> Job {
    Job {
        present: true,
        inv: 0,
        release,
        end,
        worst,
        preds,
    }
}

// ---- the conditions

fn is_well_formed(job: &Job) -> bool
    ensures { result ≡ true → IsWellFormed job.now }
{
    job.present
        && job.release < job.end
        && job.end <= 1_000_000
        && job.worst >= 1
        && job.worst <= 1_000_000
}

pub fn are_well_formed(jobs: &[Job]) -> bool
    ensures { result ≡ true → AreWellFormed jobs.now }
{
    if jobs.len() > 128 {
        return false;
    }
    for k in 0..jobs.len() {
        if !is_well_formed(&jobs[k]) {
            return false;
        }
    }
    true
}

pub fn end_within(jobs: &[Job], period: u64) -> bool
    ensures { result ≡ true → EndWithin jobs.now period }
{
    for k in 0..jobs.len() {
        if jobs[k].end > period {
            return false;
        }
    }
    true
}

// Whether position q waits for position p.
fn waits(jobs: &[Job], p: usize, q: usize) -> bool
    requires q_in { q < length jobs.now }
    requires p_in { p < 128 }
    ensures { result ≡ (jobs_of jobs.now).before p q }
{
    has_bit(jobs[q].preds, p as u32)
}

// Whether q has a place, and each of its predecessors a lower one.
fn is_in_order(jobs: &[Job], places: &[usize], q: usize) -> bool
    requires few { length jobs.now ≤ 128 }
    requires same { length places.now ≡ length jobs.now }
    requires within { q < length jobs.now }
    ensures place { result ≡ true → get_or places.now q 0 < length jobs.now }
    ensures preds { result ≡ true → (p : ℕ) → p < length jobs.now → (jobs_of jobs.now).before p q ≡ true → get_or places.now p 0 < get_or places.now q 0 }
{
    for p in 0..jobs.len() {
        if waits(jobs, p, q) && places[p] >= places[q] {
            return false;
        }
    }
    places[q] < jobs.len()
}

pub fn are_in_order(jobs: &[Job], places: &[usize]) -> bool
    ensures { result ≡ true → NoCycle (jobs_of jobs.now) }
{
    if jobs.len() > 128 || places.len() != jobs.len() {
        return false;
    }
    for q in 0..jobs.len() {
        if !is_in_order(jobs, places, q) {
            return false;
        }
    }
    true
}

// ---- answers

// The schedule of jobs whose positions have these places in an order, or the fault; None for jobs that break a condition.
fn plan(
    alloc: Global,
    jobs: &[Job],
    places: &[usize],
    period: u64,
) -> Option<Result<Vec<SInstr>, EdfFault>> {
    if !are_well_formed(jobs)
        || !are_in_order(jobs, places)
        || !end_within(jobs, period)
        || period > 1_000_000
    {
        return None;
    }
    match edf(alloc, jobs, period) {
        Ok(schedule) => Some(Ok(schedule.instrs.into_vec())),
        Err(fault) => Some(Err(fault)),
    }
}

/// The jobs of rows.
pub fn jobs_in(alloc: Global, rows: &[JobRow]) -> Result<Vec<Job>, AllocError> {
    let mut jobs = Vec::new(alloc);
    for (release, end, worst, preds) in rows {
        jobs.push(job(*release, *end, *worst, *preds))?;
    }
    Ok(jobs)
}

// The instructions of a schedule with these dispatches.
fn instrs_of(alloc: Global, dispatches: &[(u16, u32)]) -> Result<Vec<SInstr>, AllocError> {
    let mut instrs = Vec::new(alloc);
    for (position, until) in dispatches {
        instrs.push(SInstr::Dispatch {
            position: *position,
            until: *until,
        })?;
    }
    instrs.push(SInstr::End)?;
    Ok(instrs)
}

// The schedule or the fault of jobs.
fn planned(
    alloc: Global,
    rows: &[JobRow],
    places: &[usize],
    period: u64,
) -> Option<Result<Vec<SInstr>, EdfFault>> {
    let jobs = jobs_in(alloc, rows).ok()?;
    plan(alloc, jobs.as_slice(), places, period)
}

#[test]
fn schedules(rt: HostRuntime) {
    for (k, (jobs, places, period, dispatches)) in SCHEDULES.iter().enumerate() {
        let wanted = instrs_of(rt.alloc(), dispatches).expect(&rt, "memory");
        let answer = planned(rt.alloc(), jobs, places, *period);
        holds_in(&rt, k, answer == Some(Ok(wanted)));
    }
}

#[test]
fn overloads(rt: HostRuntime) {
    for (k, (jobs, places, period, (from, to, demand))) in OVERLOADS.iter().enumerate() {
        let fault = EdfFault::Overload {
            from: *from,
            to: *to,
            demand: *demand,
        };
        let answer = planned(rt.alloc(), jobs, places, *period);
        holds_in(&rt, k, answer == Some(Err(fault)));
    }
}

#[test]
fn tightened_windows(rt: HostRuntime) {
    let jobs = [job(5, 10, 3, 0), job(0, 4, 1, 1)];
    let mut out = [Tight { release: 0, end: 0 }; 2];
    if are_well_formed(&jobs) {
        tighten(&jobs, &mut out);
    }
    let wanted = [Tight { release: 5, end: 3 }, Tight { release: 8, end: 4 }];
    same(&rt, out, wanted);
    let chain = [
        job(0, 12, 2, 2),
        job(0, 12, 3, 4),
        job(0, 5, 4, 0),
        job(0, 3, 6, 7),
    ];
    let mut out = [Tight { release: 0, end: 0 }; 4];
    if are_well_formed(&chain) {
        tighten(&chain, &mut out);
    }
    let wanted = [
        Tight {
            release: 7,
            end: -3,
        },
        Tight {
            release: 4,
            end: -5,
        },
        Tight {
            release: 0,
            end: -8,
        },
        Tight { release: 9, end: 3 },
    ];
    same(&rt, out, wanted);
}

#[test]
fn a_full_processor(rt: HostRuntime) {
    // position q is released at q, and waits for the one before it where q is odd
    let mut jobs = [job(0, 1_000_000, 7_812, 0); 128];
    let mut places = [0; 128];
    for q in 0..128usize {
        jobs[q].release = q as u64;
        if q % 2 == 1 {
            jobs[q].preds = 1 << (q - 1);
        }
        places[q] = q;
    }
    let answer = plan(rt.alloc(), &jobs, &places, 1_000_000);
    let count = match answer {
        Some(Ok(instrs)) => instrs.len(),
        _ => 0,
    };
    holds(&rt, count >= 129);
    jobs[0].worst = 7_877;
    let fault = EdfFault::Overload {
        from: 0,
        to: 1_000_000,
        demand: 1_000_001,
    };
    let answer = plan(rt.alloc(), &jobs, &places, 1_000_000);
    holds(&rt, answer == Some(Err(fault)));
}
