//! From bytes of sound to mono samples.
//!
//! A [`Pcm`] takes signed 16-bit little-endian bytes of one or two channels, one after the other, and gives the mean
//! of each group exactly where its last byte comes. Callers see the form and the bytes of the group that has begun;
//! over any list of pushes the samples given are those of all bytes.
//! It keeps no sound, takes no memory, and never drops a byte but at a reset.
#![tactic(auto)]

mod mono;
mod pcm;
#[cfg(test)]
mod tests;

pub use pcm::Pcm;
