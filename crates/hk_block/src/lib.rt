//! The last prints of a station, room for the matches of a look, and the trait of what looks a block up.
//!
//! A [`BlockRing`] keeps the last 256 prints of a segment and tells when a print completes a block. Callers see it as those
//! prints, their number and the hop. A [`Scratch`] is room for matches that was taken once, and callers see it as a list
//! and its room. A [`Looker`] finds the matches of a block in the songs of a version, and callers see which version that is.
//! [`NoSongs`] is a looker for tests.
//! After `new` nothing here takes memory, and a ring never spans two segments: `reset` forgets all prints.
#![tactic(auto)]

mod looker;
mod no_songs;
mod ring;
mod scratch;
#[cfg(test)]
mod tests;

pub use hk_base::{Match, NoMemory, Print, Steps};
pub use looker::Looker;
pub use no_songs::NoSongs;
pub use ring::BlockRing;
pub use scratch::Scratch;
