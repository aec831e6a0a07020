// The jobs of a path.
ghost use Rattle.std.specs.Prelude.{◌≡◌, ◌≤◌, ◌<◌, ◌+◌, ◌^◌, ℕ, true, None, All, length, take, drop};
ghost use Rattle.htl_model.specs.Bits.{has_bit};
ghost use Rattle.htl_model.specs.Frames.{frame_limit, paths as paths_of};
ghost use Rattle.htl_model.specs.FrameRules.{KeptApart};
ghost use Rattle.htl_model.specs.FrameTables.{IsFrame};
ghost use Rattle.htl_walk.specs.PathJobs.{placed_jobs as placed_jobs_of, path_jobs as path_jobs_of};
ghost use Rattle.htl_walk.specs.Placing.{standing_of, begins_with, moved as moved_of, HasTimes};
ghost use Rattle.htl_walk.specs.WellFormed.{AreWellFormed};

use crate::{Job, fill_jobs};
use htl_base::Time;
use htl_base::limits::MAX_POSITIONS;
use htl_model::Tables;
use htl_model::bits::with_bit;
use htl_model::frame::{Frame, Place};
use htl_model::places::fill_places;

// A bit for each position whose round begins at an instant.
fn mates(places: &[Place], at: Time) -> u128
    requires { length places.now ≤ 128 }
    ensures { (q : ℕ) → has_bit result q ≡ begins_with at places.now q }
{
    let mut row = 0u128;
    for q in 0..places.len() {
        if places[q].at == at {
            row = with_bit(row, q as u32);
        }
    }
    row
}

// The round that begins at an instant: a bit for each of its positions.
#[derive(Clone, Copy)]
struct RoundRow {
    at: Time,
    row: u128,
}

// The positions of the round that begins at an instant, which may be at hand.
fn mates_at(places: &[Place], at_hand: RoundRow, at: Time) -> RoundRow
    requires few { length places.now ≤ 128 }
    requires known { (q : ℕ) → has_bit at_hand.row q ≡ begins_with at_hand.at places.now q }
    ensures at { result.at ≡ at }
    ensures row { (q : ℕ) → has_bit result.row q ≡ begins_with at places.now q }
{
    if at_hand.at == at {
        at_hand
    } else {
        RoundRow {
            at,
            row: mates(places, at),
        }
    }
}

// What stands at the positions.
fn fill_standing(places: &[Place], out: &mut [Option<u16>; 128])
    requires { length places.now ≤ 128 }
    ensures { take (length places.now) out.new ≡ standing_of places.now }
{
    for q in 0..places.len() {
        out[q] = places[q].inv;
    }
}

// The job in a round that begins at an instant.
fn moved(job: Job, at: Time, row: u128) -> Job
    requires release { job.present ≡ true → at + job.release < 2 ^ 64 }
    requires end { job.present ≡ true → at + job.end < 2 ^ 64 }
    ensures { result ≡ moved_of at row job }
{
    Job {
        present: job.present,
        inv: job.inv,
        release: if job.present { at + job.release } else { 0 },
        end: if job.present { at + job.end } else { 0 },
        worst: job.worst,
        preds: job.preds & row,
    }
}

/// Fills the front of `out` with the jobs of positions in rounds that begin at different instants; the rest of `out`
/// stays. Beside the cost of `fill_jobs` it is one pass over the positions for each instant at which rounds begin, where
/// the positions of an instant stand together.
pub fn placed_jobs(t: &Tables, places: &[Place], out: &mut [Job; 128])
    requires few { length places.now ≤ 128 }
    requires times { All HasTimes (placed_jobs_of t.now places.now) }
    ensures jobs { take (length places.now) out.new ≡ placed_jobs_of t.now places.now }
    ensures rest { drop (length places.now) out.new ≡ drop (length places.now) out.old }
{
    let mut standing = [None; MAX_POSITIONS];
    let count = places.len();
    fill_standing(places, &mut standing);
    let mut jobs = [Job::ABSENT; MAX_POSITIONS];
    fill_jobs(t, &standing[..count], &mut jobs);
    let mut round = RoundRow {
        at: 0,
        row: mates(places, 0),
    };
    for p in 0..places.len() {
        round = mates_at(places, round, places[p].at);
        out[p] = moved(jobs[p], places[p].at, round.row);
    }
}

/// Fills the front of `out` with the jobs of a path through the frame, abstract invocations included, and answers their
/// number; the rest of `out` stays.
pub fn frame_jobs(t: &Tables, f: &Frame, path: u32, out: &mut [Job; 128]) -> usize
    requires frame { IsFrame t.now f.now }
    requires path { path < paths_of t.now }
    requires jobs { AreWellFormed (path_jobs_of t.now path) }
    ensures count { result ≡ length (path_jobs_of t.now path) }
    ensures few { result ≤ 128 }
    ensures jobs { take result out.new ≡ path_jobs_of t.now path }
    ensures rest { drop result out.new ≡ drop result out.old }
{
    t.keeps_ranges();
    let mut places = [Place { inv: None, at: 0 }; MAX_POSITIONS];
    let count = fill_places(t, &f.rounds[..f.round_count], f.paths, path, &mut places);
    placed_jobs(t, &places[..count], out);
    count
}

/// Fills the front of `out` with the jobs of a path, abstract invocations included, and answers their number; the rest of
/// `out` stays. The positions are those of the path's rounds, by the round's start, then module, then source. A job's
/// window and predecessors are those of its invocation, shifted by its round's start; predecessors are of the same round.
pub fn path_jobs(t: &Tables, path: u32, out: &mut [Job; 128]) -> usize
    requires limits { frame_limit t.now ≡ None }
    requires path { path < paths_of t.now }
    requires formed { KeptApart t.now 12 }
    ensures count { result ≡ length (path_jobs_of t.now path) }
    ensures few { result ≤ 128 }
    ensures jobs { take result out.new ≡ path_jobs_of t.now path }
    ensures rest { drop result out.new ≡ drop result out.old }
{
    t.keeps_ranges();
    frame_jobs(t, &Frame::survey(t), path, out)
}
