//! The catalogue of songs, its edits, and what is known of them before they are done.
//!
//! A [`Catalogue`] keeps the songs of a version in a [`hk_table::SongStore`], and callers see the map from ids to words and the
//! version. Absorbing an edit never fails: what can't be done changes nothing. A [`Roll`] keeps ids and lengths alone and tells
//! which edit may be done, each refusal with its numbers. A [`Shelf`] is where edits are checked and staged. After `new`
//! neither a catalogue nor a roll takes memory. A catalogue has a [`hk_table::Table`] beside its store, by which the places of a
//! word are found.
#![tactic(auto)]

mod catalogue;
#[cfg(test)]
mod catalogue_tests;
mod edit;
mod entry;
mod fault;
mod refused;
mod roll;
#[cfg(test)]
mod roll_tests;
mod shelf;

pub use catalogue::Catalogue;
pub use edit::Edit;
pub use fault::StageFault;
pub use hk_base::NoMemory;
pub use refused::Refused;
pub use roll::Roll;
pub use shelf::Shelf;
