//! What a dispatch does: the step that the worst-case walk and the S machine share.
ghost use Rattle.std.specs.Prelude.{◌≡◌, ◌≤◌, IfSome};
ghost use Rattle.htl_walk.specs.Walk.{dispatch_begins, time_after, work_after, slice_between, finishes_by};

use htl_base::Time;

/// What a dispatch of a position does; the times are ticks from the start of the round or the frame.
#[derive(Clone, Copy)]
pub struct Dispatched {
    /// When it is left.
    pub time: Time,
    /// From when to when the position runs, at least one tick.
    pub slice: Option<(Time, Time)>,
    /// Whether the position's last work is done.
    pub finished: bool,
    /// The work then left of the position.
    pub rest: Time,
}

/// Dispatches a position with this release and this work left, at an instant.
pub fn dispatch(until: u32, release: Time, work: Time, time: Time) -> Dispatched
    ensures time { result.time ≡ time_after time work release until }
    ensures slice { result.slice ≡ slice_between (dispatch_begins time release until) until work (time_after time work release until) }
    ensures finished { result.finished ≡ finishes_by work (work_after time work release until) }
    ensures rest { result.rest ≡ work_after time work release until }
    ensures bound { time ≤ 4294967295 → result.time ≤ 4294967295 }
    ensures slice_bound { IfSome result.slice (λ s. (s.0 ≤ 4294967295) × (s.1 ≤ 4294967295)) }
{
    let until = until as u64;
    let begin = time.max(release.min(until));
    let run = work.min(until.saturating_sub(begin));
    let end = begin + run;
    Dispatched {
        time: if work == 0 { time } else { end },
        slice: if run == 0 { None } else { Some((begin, end)) },
        finished: run > 0 && run == work,
        rest: work - run,
    }
}
