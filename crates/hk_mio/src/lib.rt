//! The real outside of the monitor: connections by `mio`, logs in files, standard input and output.
//!
//! It meets the traits of `hk_outside` and `hk_base`, tells no bytes of its objects, and counts their faults. That a socket or a
//! file gives and keeps bytes isn't proved: the system is trusted there.
#![tactic(auto)]

mod door;
mod gate;
mod interrupted;
mod link;
mod standard;
#[cfg(test)]
mod tests;

pub use door::NetDoor;
pub use gate::NetGate;
pub use link::NetLink;
pub use standard::{StdSink, StdSource};
