//! The window of an invocation.
ghost use Rattle.std.specs.Prelude.{◌≡◌, Some};
ghost use Rattle.htl_model.specs.Tables.{release as release_of, window_end as window_end_of};
ghost use Rattle.htl_model.specs.Windows.{min_or};

use crate::lookup::{comm_period, mode_period};
use crate::{End, Inv, Tables};
use htl_base::Time;

/// The half-open window of an invocation, as offsets from the start of its round, in ticks.
#[derive(Clone, Copy)]
pub struct Window {
    /// The latest offset at which it reads a communicator; 0 without one.
    pub release: Time,
    /// The earliest offset at which it writes a communicator; the mode's period without one.
    pub end: Time,
}

/// The latest offset at which an invocation reads a communicator; 0 without one.
pub fn release(t: &Tables, inv: &Inv) -> Time
    ensures { result ≡ release_of t.now inv.now }
{
    let reads = inv.reads.as_slice();
    let mut latest = 0u64;
    for k in 0..reads.len() {
        if let End::Comm { comm, instance } = reads[k] {
            latest = latest.max(instance as u64 * comm_period(t, comm) as u64);
        }
    }
    latest
}

/// The earliest offset at which an invocation writes a communicator; the period of its mode without one.
pub fn window_end(t: &Tables, inv: &Inv) -> Time
    ensures { result ≡ window_end_of t.now inv.now }
{
    let writes = inv.writes.as_slice();
    let mut earliest: Option<Time> = None;
    for k in 0..writes.len() {
        if let End::Comm { comm, instance } = writes[k] {
            let offset = instance as u64 * comm_period(t, comm) as u64;
            earliest = earlier(earliest, offset);
        }
    }
    earliest.unwrap_or(mode_period(t, inv.mode) as u64)
}

fn earlier(first: Option<Time>, offset: Time) -> Option<Time>
    ensures { result ≡ Some (min_or first offset) }
{
    match first {
        Some(x) => Some(x.min(offset)),
        None => Some(offset),
    }
}
