//! Prints sound as sub-fingerprints: one line for each print, at the byte that completes it.
//!
//! A [`Printer`] is a player of inputs that are sound: its task prints a line for each print of the bytes as one segment,
//! and an input longer than its limit is a fault. It keeps no sound beyond what its front keeps, and takes all its memory in
//! `new`.
#![tactic(auto)]

mod printer;

pub use printer::Printer;
