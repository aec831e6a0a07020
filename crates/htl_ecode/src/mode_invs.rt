//! The invocations of one mode, which stand together in the tables.
ghost use Rattle.std.specs.Prelude.{◌≡◌};
ghost use Rattle.htl_model.specs.Starts.{IsStartOf};
ghost use Rattle.htl_ecode.specs.ModeInvs.{AreInvsOf};

use htl_model::Tables;
use htl_model::items::next_start;

/// The invocations of a mode: those with numbers from `start` on, up to but not with `end`.
#[derive(Clone, Copy)]
pub struct ModeInvs {
    /// The number of the mode.
    pub mode: u16,
    /// The number of its first invocation, or of the next mode's where it has none.
    pub start: usize,
    /// The number behind its last invocation.
    pub end: usize,
}

/// The invocations of a mode, whose first has number `start`: as many steps as there are. Those of the next mode start at
/// their end.
pub fn mode_invs(t: &Tables, mode: u16, start: usize) -> ModeInvs
    requires { IsStartOf t.now mode start }
    ensures mode { result.mode ≡ mode }
    ensures all { AreInvsOf t.now result }
{
    let end = next_start(t, mode, start);
    ModeInvs { mode, start, end }
}
