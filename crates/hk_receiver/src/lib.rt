//! A station's stream, as the blocks and fences that it brings.
//!
//! [`Receiver`] takes a stream byte after byte, through a wire and the segment that it is in. Callers see what
//! each byte completes, by the whole text: a block, a fence, or the text's fault. It never holds the text, and it looks
//! nothing up: that is the station's part.
//! It takes no memory: its front and its ring are given to it.
#![tactic(auto)]

mod receiver;
mod segment;

pub use receiver::{Received, Receiver};
