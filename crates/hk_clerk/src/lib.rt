//! Who serves the operator of the monitor.
//!
//! An [`Office`] reads the operator's calls, does their commands at the desk of a shared catalogue, publishes there, and writes
//! the reply to each command before it takes the next byte. Callers see it by what the definitions of a run say of its operator:
//! the bytes taken, the replies to their commands, the journal that these publish, and why it ended (`HasAttended`). It never
//! touches a station, and keeps no more of the calls than one piece.
#![tactic(auto)]

mod laws;
mod office;
mod piece;
mod step;
#[cfg(test)]
mod tests;

pub use laws::new_desks_fit;
pub use office::Office;
