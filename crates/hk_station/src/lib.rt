//! A station: its stream, one byte after another, and a report line for each block that a byte completes.
//!
//! [`Station`] puts a receiver and a looker together. Callers see it as the listener of the definitions (`IsHearing`):
//! each byte does to it what `next` says, and writes the lines of the blocks that it completes. A fence that asks for
//! more than the version found ends it, as a fault of its stream does, or a failed write of its log.
//! After `new` nothing here takes memory, and a block or a fence is never looked up twice.
#![tactic(auto)]

mod laws;
mod prefix;
mod station;
#[cfg(test)]
mod tests;

pub use hk_base::{End, NoMemory, Sink, Steps};
pub use hk_block::{Looker, Scratch};
pub use laws::{log_since_start, pieces_join};
pub use prefix::blocks_of_prefix;
pub use station::{Progress, Station};
