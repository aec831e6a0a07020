//! The parts of earliest deadline first between two starts.
ghost use Rattle.std.specs.Prelude.{◌≡◌, ◌≤◌, ◌<◌, ℕ, true, List, length, get_or, IfOk, OnOk};
ghost use Rattle.htl_edf.specs.Edf.{Slice, run_for};
ghost use Rattle.htl_edf.specs.Code.{closed_of, open_of};
ghost use Rattle.htl_edf.specs.Lists.{LeftAt, HoldsAfter, AreInTime};
ghost use Rattle.htl_edf.specs.Parts.{part};
ghost use Rattle.htl_edf.specs.Ranks.{AreRanked};

use crate::events::{Ahead, advance, horizon};
use crate::ranks::Ranks;
use htl_base::Time;
use htl_walk::SInstr;
use std::alloc::{AllocError, Global};

// Adds that p runs from t to an event. The last slice stays open, since p may go on.
fn record_run(
    instrs: &mut Vec<SInstr>,
    last: Option<(u16, u32)>,
    p: u16,
    t: u32,
    event: u32,
) -> Result<Option<(u16, u32)>, AllocError>
    ensures { (ss : List Slice) → instrs.old.items ≡ closed_of ss → last ≡ open_of ss → IfOk result (λ o. (o ≡ open_of (run_for p t event ss)) × (instrs.new.items ≡ closed_of (run_for p t event ss))) }
{
    if let Some((position, until)) = last {
        if p != position || until != t {
            instrs.push(SInstr::Dispatch { position, until })?;
        }
    }
    Ok(Some((p, event)))
}

/// What runs between two instants.
#[derive(Drop)]
pub struct Part {
    /// A dispatch for each maximal slice, and `End`.
    pub instrs: Vec<SInstr>,
    /// Whether all ran in time before, and each slice lies in the tightened window of its position.
    pub is_in_time: bool,
}

/// The part from one instant to another, after a run that was in time or wasn't; what the positions have left goes on.
pub fn run_part(
    alloc: Global,
    ranks: Ranks<'_>,
    left: &mut [Time],
    from: Time,
    to: Time,
    was_in_time: bool,
) -> Result<Part, AllocError>
    requires ranked { AreRanked ranks.jobs.now ranks.by_end.now ranks.by_release.now }
    requires windows { HoldsAfter ranks.jobs.now ranks.windows.now (length ranks.jobs.now) }
    requires windows_same { length ranks.windows.now ≡ length ranks.jobs.now }
    requires left_same { length left.old ≡ length ranks.jobs.now }
    requires lefts { LeftAt ranks.jobs.now left.old from }
    requires order { from ≤ to }
    requires to { to ≤ 1000000 }
    ensures part { IfOk result (λ r. r.instrs.items ≡ part ranks.entry.jobs.now from to) }
    ensures in_time { IfOk result (λ r. r.is_in_time ≡ true → (was_in_time ≡ true) × AreInTime ranks.entry.jobs.now from to) }
    ensures left_same { length left.new ≡ length ranks.entry.jobs.now }
    ensures lefts { OnOk result (LeftAt ranks.entry.jobs.now left.new to) }
{
    let mut instrs = Vec::new(alloc);
    let mut last = None;
    let mut is_in_time = was_in_time;
    let mut t = from;
    let mut ahead = Ahead::START;
    while t < to {
        ahead = horizon(ranks, left, t, ahead, to);
        let (runs, event) = advance(ranks, left, &mut ahead, t);
        is_in_time = ranks.stays_in_time(is_in_time, runs, event);
        if let Some(p) = runs {
            last = record_run(&mut instrs, last, p as u16, t as u32, event as u32)?;
        }
        t = event;
    }
    if let Some((position, until)) = last {
        instrs.push(SInstr::Dispatch { position, until })?;
    }
    instrs.push(SInstr::End)?;
    Ok(Part { instrs, is_in_time })
}

/// Runs from one instant to another, as `run_part` does, and makes no list: whether each slice lies in the tightened window of
/// its position.
pub fn run_until(ranks: Ranks<'_>, left: &mut [Time], from: Time, to: Time) -> bool
    requires ranked { AreRanked ranks.jobs.now ranks.by_end.now ranks.by_release.now }
    requires windows { HoldsAfter ranks.jobs.now ranks.windows.now (length ranks.jobs.now) }
    requires windows_same { length ranks.windows.now ≡ length ranks.jobs.now }
    requires left_same { length left.old ≡ length ranks.jobs.now }
    requires lefts { LeftAt ranks.jobs.now left.old from }
    requires order { from ≤ to }
    requires to { to ≤ 1000000 }
    ensures in_time { result ≡ true → AreInTime ranks.entry.jobs.now from to }
    ensures left_same { length left.new ≡ length ranks.entry.jobs.now }
    ensures lefts { LeftAt ranks.entry.jobs.now left.new to }
{
    let mut is_in_time = true;
    let mut t = from;
    let mut ahead = Ahead::START;
    while t < to {
        ahead = horizon(ranks, left, t, ahead, to);
        let (runs, event) = advance(ranks, left, &mut ahead, t);
        is_in_time = ranks.stays_in_time(is_in_time, runs, event);
        t = event;
    }
    is_in_time
}

/// Whether no position has work left.
pub fn are_done(left: &[Time]) -> bool
    ensures { result ≡ true → (q : ℕ) → q < length left.now → get_or left.now q 0 ≡ 0 }
{
    left.iter().all(|work| *work == 0)
}
