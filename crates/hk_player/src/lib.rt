//! Reads an input to its end or its first fault, and writes what a player makes of it.
//!
//! A [`Player`] takes bytes one after another and writes a text; its `task` says which, over the whole input. [`play`]
//! reads the input in pieces of at most 4096 bytes, lends the player what is left of a piece, for it to take a front that
//! completes nothing, hands it the byte behind that, and so on. It answers how the input ended: whole, stopped by a fault, or
//! with a failed read or write. Callers see what the task makes of the bytes that were read.
//! It never holds the input.
#![tactic(auto)]

mod ending;
mod input;
mod piece;
mod player;

pub use ending::{Ending, play};
pub use player::{Finished, Player, Taken};
