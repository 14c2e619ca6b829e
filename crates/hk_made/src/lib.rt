//! The input that `make` replays.
//!
//! [`made_input`] draws eight songs from a seed and lets so many stations play them in four rounds, while the operator adds,
//! withdraws and publishes them. All of it is made in memory at once, as the bytes of a replay's input; callers see the bytes
//! of the definition and nothing of how they were made. It reads nothing, and fails only for want of memory.
#![tactic(auto)]

mod commands;
mod draws;
mod edits;
mod fields;
mod input;
mod packets;
mod prints;
mod programme;
mod records;
mod songs;
#[cfg(test)]
mod tests;

pub use input::made_input;
