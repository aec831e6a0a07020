// The communicators that concrete invocations of earlier modes write.
ghost use Rattle.std.specs.Prelude.{◌≡◌, ◌≤◌, ◌<◌, ◌||◌, ℕ, false, length, get_or};
ghost use Rattle.std.specs.List.{list_any};
ghost use Rattle.htl_form.specs.Apart.{is_comm, is_taken_end as is_taken_end_of, AreTaken};

use crate::paths::stand_together;
use htl_model::items::inv_at;
use htl_model::lookup::is_concrete;
use htl_model::{End, Tables};

// Notes the communicator of an end, if it is an instance.
fn take_end(end: End, taken: &mut [bool])
    ensures { (c : ℕ) → c < length taken.old → get_or taken.new c false ≡ (get_or taken.old c false || is_comm c end) }
{
    if let End::Comm { comm, .. } = end {
        if (comm as usize) < taken.len() {
            taken[comm as usize] = true;
        }
    }
}

// Notes the communicators of the ends.
fn take_ends(ends: &[End], taken: &mut [bool])
    ensures { (c : ℕ) → c < length taken.old → get_or taken.new c false ≡ (get_or taken.old c false || list_any (is_comm c) ends.now) }
{
    for k in 0..ends.len() {
        take_end(ends[k], taken);
    }
}

/// Notes the communicators that concrete invocations below number `base` write whose modes can stand
/// together with a mode. Each of these modes is judged once.
pub fn mark_taken(t: &Tables, mode: u16, base: usize, taken: &mut [bool])
    requires empty { (c : ℕ) → get_or taken.old c false ≡ false }
    requires within { base ≤ length t.now.invs }
    ensures taken { AreTaken t.now mode base taken.new }
    ensures len { length taken.new ≡ length taken.old }
{
    let mut last = mode;
    let mut together = stand_together(t, mode, mode);
    for l in 0..base {
        let x = inv_at(t, l);
        if x.mode != last {
            last = x.mode;
            together = stand_together(t, last, mode);
        }
        if is_concrete(t, x) && together {
            take_ends(x.writes.as_slice(), taken);
        }
    }
}

// Whether an end is an instance of a communicator that is taken.
fn is_taken_end(end: End, taken: &[bool]) -> bool
    ensures { result ≡ is_taken_end_of taken.now end }
{
    match end {
        End::Comm { comm, .. } => (comm as usize) < taken.len() && taken[comm as usize],
        End::Port { .. } => false,
    }
}

/// Whether some end is an instance of a communicator that is taken.
pub fn some_taken(ends: &[End], taken: &[bool]) -> bool
    ensures { result ≡ list_any (is_taken_end_of taken.now) ends.now }
{
    ends.iter().any(|end| is_taken_end(*end, taken))
}
