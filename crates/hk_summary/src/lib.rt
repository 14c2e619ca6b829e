//! The summary of a monitor's run, and the run's status.
//!
//! [`write_summary`] is told how each station and the operator ended. Callers see that the summary of such a run was written, or
//! a front of it where a write failed, and that the status is the run's. No failed write is tried again.
#![tactic(auto)]

mod ends;
mod lines;
mod status;
mod summary;
#[cfg(test)]
mod tests;

pub use ends::{OperatorEnd, StationEnd};
pub use hk_base::{End, OpEnd, Sink, Status};
pub use status::{ENDED, IN_DISORDER, MISMATCH, WRITE_FAULT};
pub use summary::write_summary;
