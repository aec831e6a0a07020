// Which positions have work left, as a row of bits that a dispatch keeps.
ghost use Rattle.std.specs.Prelude.{◌≡◌, ◌<◌, ◌&&◌, ℕ, true, false, cond, eqb, ltb, IfSome, IfNone};
ghost use Rattle.htl_model.specs.Bits.{has_bit};
ghost use Rattle.htl_walk.specs.Jobs.{precedes};

use crate::Job;
use htl_base::Time;

/// The lowest predecessor of a job among the pending positions, the lowest bit of both rows.
pub fn pending_predecessor(job: &Job, pending: u128) -> Option<u16>
    ensures none { IfNone result ((q : ℕ) → precedes q job.now ≡ true → has_bit pending q ≡ false) }
    ensures waits { IfSome result (λ q. precedes q job.now ≡ true) }
    ensures pending { IfSome result (λ q. has_bit pending q ≡ true) }
    ensures lowest { IfSome result (λ q. (r : ℕ) → r < q → precedes r job.now ≡ true → has_bit pending r ≡ false) }
{
    let waiting = job.preds & pending;
    if waiting == 0 {
        None
    } else {
        Some(waiting.trailing_zeros() as u16)
    }
}

/// The positions with work left, after a dispatch that leaves this work at `position`.
pub fn still_pending(pending: u128, position: u16, left: Time) -> u128
    requires { position < 128 }
    ensures { (q : ℕ) → has_bit result q ≡ cond (eqb q position) (has_bit pending position && ltb 0 left) (has_bit pending q) }
{
    if left > 0 {
        pending
    } else {
        pending & !(1 << position)
    }
}
