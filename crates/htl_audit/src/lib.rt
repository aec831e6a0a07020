//! Audit: job logs of any scheduler, judged against an object and the events of its run.
#![tactic(auto)]

mod auditor;
mod feeders;
pub mod laws;
mod ledger;
mod log;
mod ports;
mod slice;
mod starts;

pub use auditor::{AuditTotals, Auditor};
pub use log::{LogStop, read_log};
pub use slice::{LogFault, LogKind, Slice};
