// The S machine asked in cuts of time, with its states.
ghost use Rattle.std.specs.Prelude.{◌≡◌, ◌≤◌, ◌<◌, ◌+◌, ◌++◌, ℕ, List, length, leb, true, false, All, OnOk, IfOk, IfSome};
ghost use Rattle.std.specs.List.{list_all};
ghost use Rattle.htl_walk.specs.declared.job.Job.{Job as Work};
ghost use Rattle.htl_walk.specs.Walk.{job_at};
ghost use Rattle.htl_walk.specs.Refinement.{HasWork, HaveLengths, AreWithinWorst};
ghost use Rattle.htl_smach.specs.Rounds.{Round, Stands, IsInForm, IsTold, state_of};
ghost use Rattle.htl_smach.specs.declared.state.PosState.TheVariants as states;
ghost use Rattle.htl_walk.specs.declared.schedule.SInstr.{SInstr as Instr};

use crate::asserts::{same, same_in};
use crate::schedules::walk_tests::have_work;
use htl_base::{Seq, Time};
use htl_smach::{Left, PosState, SMach};
use htl_walk::listing::{Span, worst_list};
use htl_walk::{Job, SInstr, Schedule, worst};
use std::alloc::{AllocError, Global};

fn job(present: bool, release: u64, end: u64, worst: u64) -> Job {
    Job {
        present,
        inv: 0,
        release,
        end,
        worst,
        preds: 0,
    }
}

fn run(position: u16, until: u32) -> SInstr {
    SInstr::Dispatch { position, until }
}

fn idle(until: u32) -> SInstr {
    SInstr::Idle { until }
}

// Whether each length is from 1 to the worst case.
fn in_range(jobs: &[Job], lengths: &[Time]) -> bool
    requires { length lengths.now ≡ length jobs.now }
    ensures some { result ≡ true → HaveLengths jobs.now lengths.now }
    ensures worst { result ≡ true → AreWithinWorst jobs.now lengths.now }
{
    for p in 0..jobs.len() {
        if lengths[p] == 0 || lengths[p] > jobs[p].worst {
            return false;
        }
    }
    true
}

// A schedule of so many positions, which jobs accept that are all present; None where they don't.
fn schedule(
    alloc: Global,
    jobs: &[Job],
    instrs: &[SInstr],
    period: u64,
) -> Result<Option<Schedule>, AllocError>
    ensures form { IfOk result (λ o. IfSome o (λ s. (r : Round) → length r.jobs ≡ length jobs.now → IsInForm r s.instrs)) }
    ensures instrs { IfOk result (λ o. IfSome o (λ s. length s.instrs ≤ 4294967295)) }
{
    if !have_work(jobs) || jobs.len() > 128 || instrs.len() > 1000 {
        return Ok(None);
    }
    let s = Schedule {
        instrs: Seq::new(instrs.to_vec(alloc)?),
    };
    let mut finish = vec![in alloc; 0u64; jobs.len()]?;
    match worst(jobs, &s, period, &mut finish) {
        Ok(()) => Ok(Some(s)),
        Err(_) => Ok(None),
    }
}

// A round that begins at 100; None where a length isn't from 1 to its worst case.
fn begin(jobs: &[Job], lengths: &[Time], s: &Schedule) -> Option<SMach>
    ensures { IfSome result (λ m. (m.jobs ≡ jobs.now) × (m.start ≡ 100) × Stands m s.now.instrs) }
{
    if jobs.len() > 128 || lengths.len() != jobs.len() || !in_range(jobs, lengths) {
        return None;
    }
    let mut m = SMach::new();
    m.start(100, jobs, lengths);
    Some(m)
}

// Tells the release of a position where it falls before `until`.
fn tell_one(m: &mut SMach, jobs: &[Job], s: &Schedule, p: usize, until: Time)
    requires jobs { m.old.jobs ≡ jobs.now }
    requires start { m.old.start ≡ 100 }
    requires known { p < length jobs.now }
    requires stands { Stands m.old s.now.instrs }
    ensures jobs { m.new.jobs ≡ m.old.jobs }
    ensures start { m.new.start ≡ m.old.start }
    ensures running { m.new.running ≡ m.old.running }
    ensures stands { Stands m.new s.now.instrs }
    ensures told { state_of m.new p ≡ states.Pending → until ≤ 100 + (job_at jobs.now p).release }
    ensures others { (q : ℕ) → state_of m.new q ≡ states.Pending → state_of m.old q ≡ states.Pending }
{
    if jobs[p].release < until.saturating_sub(100) {
        match m.state(p) {
            PosState::Pending => m.release(p),
            _ => {}
        }
    }
}

// Tells the releases that fall before `until`.
fn tell(m: &mut SMach, jobs: &[Job], s: &Schedule, until: Time)
    requires jobs { m.old.jobs ≡ jobs.now }
    requires start { m.old.start ≡ 100 }
    requires stands { Stands m.old s.now.instrs }
    ensures jobs { m.new.jobs ≡ m.old.jobs }
    ensures start { m.new.start ≡ m.old.start }
    ensures running { m.new.running ≡ m.old.running }
    ensures stands { Stands m.new s.now.instrs }
    ensures told { IsTold m.new until }
{
    for p in 0..jobs.len() {
        tell_one(m, jobs, s, p, until);
    }
}

// Tells the releases that fall before `until`, and goes on to the next instruction.
fn ask(m: &mut SMach, jobs: &[Job], s: &Schedule, until: Time) -> Option<Left>
    requires jobs { m.old.jobs ≡ jobs.now }
    requires start { m.old.start ≡ 100 }
    requires stands { Stands m.old s.now.instrs }
    requires form { (r : Round) → length r.jobs ≡ length jobs.now → IsInForm r s.now.instrs }
    requires instrs { length s.now.instrs ≤ 4294967295 }
    ensures jobs { m.new.jobs ≡ m.old.jobs }
    ensures start { m.new.start ≡ m.old.start }
    ensures stands { Stands m.new s.now.instrs }
    ensures over { IfSome result (λ l. l.instr + 1 ≡ length s.now.instrs → m.new.running ≡ false) }
{
    tell(m, jobs, s, until);
    m.run_to(s, until)
}

// The answers to calls of `run_to` until these instants.
fn answers(
    alloc: Global,
    m: &mut SMach,
    jobs: &[Job],
    s: &Schedule,
    untils: &[Time],
) -> Result<Vec<Left>, AllocError>
    requires jobs { m.old.jobs ≡ jobs.now }
    requires start { m.old.start ≡ 100 }
    requires stands { Stands m.old s.now.instrs }
    requires form { (r : Round) → length r.jobs ≡ length jobs.now → IsInForm r s.now.instrs }
    requires instrs { length s.now.instrs ≤ 4294967295 }
{
    let mut all = Vec::new(alloc);
    for k in 0..untils.len() {
        if let Some(left) = ask(m, jobs, s, untils[k]) {
            all.push(left)?;
        }
    }
    Ok(all)
}

// Each tick of the round, four times.
fn ticks(alloc: Global) -> Result<Vec<Time>, AllocError> {
    let mut all = Vec::new(alloc);
    for k in 0..44u64 {
        all.push(100 + k / 4)?;
    }
    Ok(all)
}

// The answers in one cut, where they are those tick by tick; None for a schedule that isn't accepted for `whole`.
fn round(
    alloc: Global,
    whole: &[Job],
    jobs: &[Job],
    lengths: &[Time],
    instrs: &[SInstr],
) -> Result<Option<Vec<Left>>, AllocError> {
    if whole.len() != jobs.len() {
        return Ok(None);
    }
    let Some(s) = schedule(alloc, whole, instrs, 10)? else {
        return Ok(None);
    };
    let Some(mut m) = begin(jobs, lengths, &s) else {
        return Ok(None);
    };
    let all = answers(alloc, &mut m, jobs, &s, &[110; 7])?;
    let Some(mut m) = begin(jobs, lengths, &s) else {
        return Ok(None);
    };
    let slow = answers(alloc, &mut m, jobs, &s, &ticks(alloc)?)?;
    if all == slow { Ok(Some(all)) } else { Ok(None) }
}

// When an instruction was left, its number, its position, the slice that was run, and whether the job finished.
type LeftRow = (Time, u32, Option<u16>, Option<(Time, Time)>, bool);

fn is_left(left: &Left, row: &LeftRow) -> bool {
    let (at, instr, position, slice, finished) = *row;
    left.at == at
        && left.instr == instr
        && left.position == position
        && left.slice == slice
        && left.finished == finished
}

fn are_left(all: &[Left], rows: &[LeftRow]) -> bool {
    for k in 0..all.len() {
        if k >= rows.len() || !is_left(&all[k], &rows[k]) {
            return false;
        }
    }
    all.len() == rows.len()
}

// Whether a position is present, its release, the end of its window, and its worst case.
type JobRow = (bool, u64, u64, u64);

fn job_of(row: JobRow) -> Job {
    let (present, release, end, worst) = row;
    job(present, release, end, worst)
}

// Two jobs that are accepted and two that run, their lengths, the list, and what is left.
struct RoundRow {
    whole: [JobRow; 2],
    jobs: [JobRow; 2],
    lengths: [Time; 2],
    list: &'static [SInstr],
    wanted: &'static [LeftRow],
}

const INTERRUPTED: &[SInstr] = &[
    SInstr::Dispatch {
        position: 0,
        until: 2,
    },
    SInstr::Dispatch {
        position: 1,
        until: 5,
    },
    SInstr::Dispatch {
        position: 0,
        until: 10,
    },
    SInstr::End,
];

const LONG_AND_SHORT: [JobRow; 2] = [(true, 0, 10, 7), (true, 2, 6, 3)];

const LATE: [JobRow; 2] = [(true, 0, 10, 3), (true, 4, 9, 3)];

const ROUNDS: &[RoundRow] = &[
    RoundRow {
        whole: LONG_AND_SHORT,
        jobs: LONG_AND_SHORT,
        lengths: [1, 3],
        list: INTERRUPTED,
        wanted: &[
            (101, 0, Some(0), Some((100, 101)), true),
            (105, 1, Some(1), Some((102, 105)), true),
            (105, 2, Some(0), None, false),
            (105, 3, None, None, false),
        ],
    },
    // work done in an earlier slice
    RoundRow {
        whole: LONG_AND_SHORT,
        jobs: LONG_AND_SHORT,
        lengths: [7, 2],
        list: INTERRUPTED,
        wanted: &[
            (102, 0, Some(0), Some((100, 102)), false),
            (104, 1, Some(1), Some((102, 104)), true),
            (109, 2, Some(0), Some((104, 109)), true),
            (109, 3, None, None, false),
        ],
    },
    // a position that is absent
    RoundRow {
        whole: LONG_AND_SHORT,
        jobs: [(true, 0, 10, 7), (false, 0, 0, 3)],
        lengths: [7, 2],
        list: INTERRUPTED,
        wanted: &[
            (102, 0, Some(0), Some((100, 102)), false),
            (102, 1, Some(1), None, false),
            (107, 2, Some(0), Some((102, 107)), true),
            (107, 3, None, None, false),
        ],
    },
    // an idle, and a dispatch that ends before its position is released
    RoundRow {
        whole: LATE,
        jobs: LATE,
        lengths: [3, 1],
        list: &[
            SInstr::Dispatch {
                position: 0,
                until: 2,
            },
            SInstr::Dispatch {
                position: 1,
                until: 3,
            },
            SInstr::Idle { until: 5 },
            SInstr::Dispatch {
                position: 1,
                until: 8,
            },
            SInstr::Dispatch {
                position: 0,
                until: 10,
            },
            SInstr::End,
        ],
        wanted: &[
            (102, 0, Some(0), Some((100, 102)), false),
            (103, 1, Some(1), None, false),
            (105, 2, None, None, false),
            (106, 3, Some(1), Some((105, 106)), true),
            (107, 4, Some(0), Some((106, 107)), true),
            (107, 5, None, None, false),
        ],
    },
];

// Whether the round goes as wanted.
fn goes(alloc: Global, row: &RoundRow) -> Result<bool, AllocError> {
    let whole = [job_of(row.whole[0]), job_of(row.whole[1])];
    let jobs = [job_of(row.jobs[0]), job_of(row.jobs[1])];
    match round(alloc, &whole, &jobs, &row.lengths, row.list)? {
        Some(all) => Ok(are_left(all.as_slice(), row.wanted)),
        None => Ok(false),
    }
}

#[test]
fn rounds(rt: HostRuntime) {
    for row in ROUNDS {
        same_in(&rt, row.lengths, goes(rt.alloc(), row), Ok(true));
    }
}

// Sets the length of a position that is Pending; whether it did.
fn set(m: &mut SMach, jobs: &[Job], s: &Schedule, p: usize, length: Time) -> bool
    requires jobs { m.old.jobs ≡ jobs.now }
    requires start { m.old.start ≡ 100 }
    requires stands { Stands m.old s.now.instrs }
    ensures jobs { m.new.jobs ≡ m.old.jobs }
    ensures start { m.new.start ≡ m.old.start }
    ensures stands { Stands m.new s.now.instrs }
{
    if p >= jobs.len() || length == 0 || length > jobs[p].worst {
        return false;
    }
    match m.state(p) {
        PosState::Pending => {
            m.set_length(p, length);
            true
        }
        _ => false,
    }
}

// The states of two positions, after the answer.
type Seen = (Option<Left>, PosState, PosState);

// What is seen after each of these instants.
fn seen(
    alloc: Global,
    m: &mut SMach,
    jobs: &[Job; 2],
    s: &Schedule,
    untils: &[Time],
) -> Result<Vec<Seen>, AllocError>
    requires jobs { m.old.jobs ≡ jobs.now }
    requires two { length jobs.now ≡ 2 }
    requires start { m.old.start ≡ 100 }
    requires stands { Stands m.old s.now.instrs }
    requires form { (r : Round) → length r.jobs ≡ length jobs.now → IsInForm r s.now.instrs }
    requires instrs { length s.now.instrs ≤ 4294967295 }
{
    let mut all = Vec::new(alloc);
    for k in 0..untils.len() {
        let left = ask(m, jobs, s, untils[k]);
        all.push((left, m.state(0), m.state(1)))?;
    }
    Ok(all)
}

// What is seen of a round in which the second position's length is set at its beginning, and that of the first isn't.
fn seen_with(
    alloc: Global,
    whole: &[Job; 2],
    jobs: &[Job; 2],
    ticks: Time,
    untils: &[Time],
) -> Result<Option<Vec<Seen>>, AllocError>
    requires whole { length whole.now ≡ 2 }
    requires jobs { length jobs.now ≡ 2 }
{
    let list = [run(0, 2), run(1, 5), run(0, 10), SInstr::End];
    let Some(s) = schedule(alloc, whole, &list, 10)? else {
        return Ok(None);
    };
    let Some(mut m) = begin(jobs, &[1, 3], &s) else {
        return Ok(None);
    };
    if !set(&mut m, jobs, &s, 1, ticks) {
        return Ok(None);
    }
    Ok(Some(seen(alloc, &mut m, jobs, &s, untils)?))
}

// What is left, and the states of the two positions then.
type SeenRow = (Option<LeftRow>, PosState, PosState);

fn is_seen(seen: &Seen, row: &SeenRow) -> bool {
    let left = match (&seen.0, &row.0) {
        (Some(left), Some(row)) => is_left(left, row),
        (None, None) => true,
        _ => false,
    };
    left && seen.1 == row.1 && seen.2 == row.2
}

fn are_seen(all: &[Seen], rows: &[SeenRow]) -> bool {
    for k in 0..all.len() {
        if k >= rows.len() || !is_seen(&all[k], &rows[k]) {
            return false;
        }
    }
    all.len() == rows.len()
}

// Whether this is seen of two jobs.
fn shows(
    alloc: Global,
    rows: [JobRow; 2],
    ticks: Time,
    untils: &[Time],
    wanted: &[SeenRow],
) -> Result<bool, AllocError> {
    let whole = [job_of(LONG_AND_SHORT[0]), job_of(LONG_AND_SHORT[1])];
    let jobs = [job_of(rows[0]), job_of(rows[1])];
    match seen_with(alloc, &whole, &jobs, ticks, untils)? {
        Some(all) => Ok(are_seen(all.as_slice(), wanted)),
        None => Ok(false),
    }
}

const SEEN: [SeenRow; 8] = [
    (None, PosState::Pending, PosState::Pending),
    (
        Some((101, 0, Some(0), Some((100, 101)), true)),
        PosState::Done,
        PosState::Pending,
    ),
    (None, PosState::Done, PosState::Pending),
    (None, PosState::Done, PosState::Ready),
    (
        Some((104, 1, Some(1), Some((102, 104)), true)),
        PosState::Done,
        PosState::Done,
    ),
    (
        Some((104, 2, Some(0), None, false)),
        PosState::Done,
        PosState::Done,
    ),
    (
        Some((104, 3, None, None, false)),
        PosState::Done,
        PosState::Done,
    ),
    (None, PosState::Done, PosState::Done),
];

const PASSED: [SeenRow; 2] = [
    (
        Some((100, 0, Some(0), None, false)),
        PosState::Absent,
        PosState::Pending,
    ),
    (None, PosState::Absent, PosState::Pending),
];

#[test]
fn states(rt: HostRuntime) {
    let untils = [100, 101, 101, 103, 104, 104, 110, 110];
    let present = shows(rt.alloc(), LONG_AND_SHORT, 2, &untils, &SEEN);
    same(&rt, present, Ok(true));
    let rows = [(false, 0, 0, 7), (true, 2, 6, 3)];
    let absent = shows(rt.alloc(), rows, 1, &[100, 102], &PASSED);
    same(&rt, absent, Ok(true));
}

// A list of so many positions that ends by an offset; None where it isn't in form.
fn list(
    alloc: Global,
    known: usize,
    instrs: &[SInstr],
    until: Time,
) -> Result<Option<Schedule>, AllocError>
    ensures form { IfOk result (λ o. IfSome o (λ s. (r : Round) → length r.jobs ≡ known → IsInForm r s.instrs)) }
    ensures instrs { IfOk result (λ o. IfSome o (λ s. length s.instrs ≤ 4294967295)) }
{
    if known > 128 || instrs.len() > 1000 {
        return Ok(None);
    }
    let s = Schedule {
        instrs: Seq::new(instrs.to_vec(alloc)?),
    };
    // where no position has work, a list has no miss but in its form
    let jobs = [Job::ABSENT; 128];
    let mut left = [0u64; 128];
    let mut finish = [0u64; 128];
    let span = Span {
        known,
        from: 0,
        until,
    };
    match worst_list(&jobs, span, &s, &mut left, &mut finish) {
        Ok(_) => Ok(Some(s)),
        Err(_) => Ok(None),
    }
}

// Leaves the instructions of a list by an instant; whether the list is over then.
fn leave_all(
    all: &mut Vec<Left>,
    m: &mut SMach,
    jobs: &[Job],
    s: &Schedule,
    until: Time,
) -> Result<bool, AllocError>
    requires jobs { m.old.jobs ≡ jobs.now }
    requires start { m.old.start ≡ 100 }
    requires stands { Stands m.old s.now.instrs }
    requires form { (r : Round) → length r.jobs ≡ length jobs.now → IsInForm r s.now.instrs }
    requires instrs { length s.now.instrs ≤ 4294967295 }
    ensures jobs { m.new.jobs ≡ m.old.jobs }
    ensures start { m.new.start ≡ m.old.start }
    ensures stands { Stands m.new s.now.instrs }
    ensures over { IfOk result (λ over. over ≡ true → m.new.running ≡ false) }
{
    let len = s.instrs.as_slice().len();
    'answers: for _ in 0..len {
        let Some(left) = ask(m, jobs, s, until) else {
            return Ok(false);
        };
        all.push(left)?;
        if left.instr as usize + 1 == len {
            return Ok(true);
        }
    }
    Ok(false)
}

// Whether no job is released before an offset.
fn none_before(jobs: &[Job], offset: Time) -> bool
    ensures { result ≡ list_all (λ (j : Work). leb offset j.release) jobs.now }
{
    jobs.iter().all(|j| offset <= j.release)
}

// Goes on to the next list with further positions at an instant, the releases before it told; whether it may.
fn go_on(
    m: &mut SMach,
    jobs: &[Job],
    s: &Schedule,
    at: Time,
    more: &[Job],
    lengths: &[Time],
) -> bool
    requires jobs { m.old.jobs ≡ jobs.now }
    requires start { m.old.start ≡ 100 }
    requires over { m.old.running ≡ false }
    requires stands { Stands m.old s.now.instrs }
    ensures jobs { result ≡ true → m.new.jobs ≡ jobs.now ++ more.now }
    ensures start { m.new.start ≡ 100 }
    ensures stands { result ≡ true → (t : List Instr) → Stands m.new t }
{
    if at < 100 || at > 1000000000 || jobs.len() > 128 || more.len() > 128 - jobs.len() {
        return false;
    }
    if lengths.len() != more.len() {
        return false;
    }
    if !in_range(more, lengths) {
        return false;
    }
    if !none_before(more, at - 100) {
        return false;
    }
    tell(m, jobs, s, at);
    m.add(at, more, lengths);
    true
}

// What is seen of two lists: their answers, and the states of the positions where the second begins.
type InLists = (Vec<Left>, Vec<PosState>);

// What is seen of two lists, from 100 of two positions and from 110 of a third too.
fn in_lists(
    alloc: Global,
    jobs: &[Job; 3],
    lengths: &[Time; 3],
) -> Result<Option<InLists>, AllocError>
    requires jobs { length jobs.now ≡ 3 }
    requires lengths { length lengths.now ≡ 3 }
{
    let (begun, more) = jobs.split_at(2);
    let (ticks, further) = lengths.split_at(2);
    let Some(s) = list(alloc, 2, &[run(0, 3), run(1, 10), SInstr::End], 10)? else {
        return Ok(None);
    };
    let Some(t) = list(alloc, 3, &[run(1, 12), run(2, 15), SInstr::End], 20)? else {
        return Ok(None);
    };
    let Some(mut m) = begin(begun, ticks, &s) else {
        return Ok(None);
    };
    let mut all = Vec::new(alloc);
    if !leave_all(&mut all, &mut m, begun, &s, 110)?
        || !go_on(&mut m, begun, &s, 110, more, further)
    {
        return Ok(None);
    }
    let states = vec![in alloc; m.state(0), m.state(1), m.state(2)]?;
    if !leave_all(&mut all, &mut m, jobs, &t, 120)? {
        return Ok(None);
    }
    Ok(Some((all, states)))
}

// The third job, the lengths, what is left, and the states where the second list begins.
type ListsRow = (JobRow, [Time; 3], &'static [LeftRow], [PosState; 3]);

const LISTS: [ListsRow; 3] = [
    // a position that goes on in the next list
    (
        (true, 10, 20, 3),
        [3, 9, 3],
        &[
            (103, 0, Some(0), Some((100, 103)), true),
            (110, 1, Some(1), Some((103, 110)), false),
            (110, 2, None, None, false),
            (112, 0, Some(1), Some((110, 112)), true),
            (115, 1, Some(2), Some((112, 115)), true),
            (115, 2, None, None, false),
        ],
        [PosState::Done, PosState::Ready, PosState::Pending],
    ),
    // one that the list before finished
    (
        (true, 10, 20, 3),
        [2, 5, 1],
        &[
            (102, 0, Some(0), Some((100, 102)), true),
            (107, 1, Some(1), Some((102, 107)), true),
            (107, 2, None, None, false),
            (110, 0, Some(1), None, false),
            (111, 1, Some(2), Some((110, 111)), true),
            (111, 2, None, None, false),
        ],
        [PosState::Done, PosState::Done, PosState::Pending],
    ),
    // a further position that is absent
    (
        (false, 10, 20, 3),
        [3, 9, 3],
        &[
            (103, 0, Some(0), Some((100, 103)), true),
            (110, 1, Some(1), Some((103, 110)), false),
            (110, 2, None, None, false),
            (112, 0, Some(1), Some((110, 112)), true),
            (112, 1, Some(2), None, false),
            (112, 2, None, None, false),
        ],
        [PosState::Done, PosState::Ready, PosState::Absent],
    ),
];

// Whether two lists go as wanted.
fn go(alloc: Global, row: &ListsRow) -> Result<bool, AllocError> {
    let (third, lengths, wanted, states) = *row;
    let jobs = [job(true, 0, 10, 3), job(true, 0, 20, 9), job_of(third)];
    match in_lists(alloc, &jobs, &lengths)? {
        Some((all, seen)) => {
            Ok(are_left(all.as_slice(), wanted) && seen.as_slice() == states.as_slice())
        }
        None => Ok(false),
    }
}

#[test]
fn lists(rt: HostRuntime) {
    for row in LISTS {
        same_in(&rt, row.1, go(rt.alloc(), &row), Ok(true));
    }
}
