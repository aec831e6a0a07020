// What is told of a task.
use htl_base::{Seq, Time};
use htl_walk::Schedule;

/// The first path that a worst case of one tick more overloads.
#[derive(Clone, Copy, PartialEq, Eq, Debug)]
pub struct Above {
    /// The path's number. Where all root periods are equal it is that of a root selection.
    pub selection: u32,
    /// Where the overloaded interval begins, in ticks from the frame's start. Of the path's overloaded intervals it is the
    /// one with the greatest end, and then the least release.
    pub from: Time,
    /// Where it ends, in ticks from the frame's start.
    pub to: Time,
    /// The sum of the worst cases in the interval, in ticks: more than there are from `from` to `to`.
    pub demand: u64,
}

/// How far the worst case of a task can be raised.
pub struct SlackReport {
    /// The greatest worst case, in ticks, up to the period of the task's module, for which no path is overloaded.
    pub greatest: u32,
    /// The schedules of earliest deadline first with this worst case, one for each node.
    pub lists: Seq<Schedule>,
    /// What stands in the way of one tick more; None where the greatest is the period of the task's module.
    pub above: Option<Above>,
}

impl Drop for SlackReport {
    fn drop(self) {
        let Self {
            greatest: _,
            lists: _,
            above: _,
        } = self;
    }
}
