//! Looks in a catalogue: where in its songs the last block of a ring is found.
//!
//! [`look`] goes through the places of the block's words in the catalogue's table, and leaves the matches in a
//! [`hk_block::Scratch`]. Its steps are bounded by what the block's words meet, and not by what the catalogue holds. [`scan`]
//! goes through every start of every song and leaves the same: it is what the look is compared with. [`Alone`] is a catalogue
//! for one thread: a [`hk_catalogue::Shelf`] whose staged edits are seen from the next publish on, and a [`hk_block::Looker`]
//! that answers the published version and never another. A look takes no memory.
#![tactic(auto)]

mod alone;
mod comparison;
mod full_scan;
mod table_search;
#[cfg(test)]
mod tests;

pub use alone::Alone;
pub use full_scan::scan;
pub use table_search::look;
