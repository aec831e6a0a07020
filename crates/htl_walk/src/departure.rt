// The form of a schedule.
ghost use Rattle.std.specs.Prelude.{◌≡◌, ◌≤◌, ◌<◌, ◌-◌, length, slice_get, true, false, Some, MatchOption};
ghost use Rattle.htl_walk.specs.declared.schedule.SInstr.TheVariants as instr;
ghost use Rattle.htl_walk.specs.Misses.{DepartsAt, IsFirstDeparture};
ghost use Rattle.htl_walk.specs.Walk.{InForm};

use crate::SInstr;
use htl_base::Time;

// Whether a list departs from the form of a schedule at one of its instructions.
fn departs(instrs: &[SInstr], k: usize, count: usize, period: Time) -> bool
    requires { k < length instrs.now }
    ensures yes { result ≡ true → DepartsAt count period instrs.now k }
    ensures no { result ≡ false → DepartsAt count period instrs.now k → ⊥ }
{
    match instrs[k] {
        SInstr::Dispatch { position, until } => position as usize >= count || until as u64 > period,
        SInstr::Idle { until } => until as u64 > period,
        SInstr::End => k + 1 < instrs.len(),
    }
}

// Whether the last instruction is `End`.
fn is_ended(instrs: &[SInstr]) -> bool
    ensures yes { result ≡ true → slice_get instrs.now (length instrs.now - 1) ≡ Some instr.End }
    ensures no { result ≡ false → slice_get instrs.now (length instrs.now - 1) ≡ Some instr.End → ⊥ }
{
    match instrs.last() {
        Some(SInstr::End) => true,
        _ => false,
    }
}

/// Where a list of instructions first departs from the form of a schedule for so many positions; None where it is in
/// form.
pub fn first_departure(instrs: &[SInstr], count: usize, period: Time) -> Option<u32>
    requires { length instrs.now ≤ 4294967295 }
    ensures { MatchOption result (InForm count period instrs.now) (λ k. IsFirstDeparture count period instrs.now k) }
{
    for k in 0..instrs.len() {
        if departs(instrs, k, count, period) {
            return Some(k as u32);
        }
    }
    if is_ended(instrs) {
        None
    } else {
        Some(instrs.len() as u32)
    }
}
