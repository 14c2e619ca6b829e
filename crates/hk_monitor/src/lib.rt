//! The monitor: workers that serve the stations, each in a thread of its own, and the operator's clerk beside them.
//!
//! [`run_monitor`] runs a crew over one shared catalogue until all streams are over. Callers see what each station and the
//! operator did, and that all looks and publishes are one legal history (`HasRun`). It opens and closes nothing.
#![tactic(auto)]

mod closing;
mod crew;
mod manning;
mod over;
mod running;
#[cfg(test)]
mod tests;

pub use crew::{Clerk, Crewman, Kept, Mismatch, Worker};
pub use running::run_monitor;
