//! The words of all songs in one store, and a table of where each word stands. Both are taken at opening.
//!
//! A [`SongBlock`] is a song on its way into a catalogue. A [`SongStore`] has slots, and callers see their list: each is
//! empty or has a song's id and words. A [`Song`] borrows a store and copies windows of a song's words, at a tick for each
//! word; nothing else hands a song's words out. A [`Table`] has the same slots, and callers see each one's words. A [`Walk`] gives
//! each [`Place`] of a word once, and ticks once for each word of the same bucket. After `new` nothing here takes memory, and
//! an edit of one slot keeps every other. Neither a store nor a table knows versions or ids of its own.
#![tactic(auto)]

mod bucket;
mod extent;
mod place;
mod song;
mod song_block;
mod song_store;
mod table;
#[cfg(test)]
mod table_tests;
#[cfg(test)]
mod tests;
mod walk;

pub use hk_base::{NoMemory, Steps};
pub use place::Place;
pub use song::Song;
pub use song_block::SongBlock;
pub use song_store::SongStore;
pub use table::Table;
pub use walk::Walk;
