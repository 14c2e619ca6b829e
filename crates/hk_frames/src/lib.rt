//! The frames of a segment's samples, one after the other.
//!
//! A [`Frames`] keeps the last 2048 samples of a segment and tells when a sample completes a frame, which is at the
//! 2048th and then at each 64th. Callers see it as those samples and how many more complete the next frame.
//! [`Frames::windowed`] leaves them weighted by a window. After `new` nothing here takes memory, and no frame spans
//! two segments: `reset` forgets all samples. It never counts how many came.
#![tactic(auto)]

mod ring;
#[cfg(test)]
mod tests;
mod weight;

pub use hk_base::NoMemory;
pub use ring::Frames;
