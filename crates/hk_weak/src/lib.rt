//! The weak bits of a sub-fingerprint, and every choice among them.
//!
//! [`weakest`] takes how much the energy falls more between two frames, for each of the 32 bits, and gives the mask of
//! the bits that noise would flip first: those of least magnitude. [`Submasks`] goes through the subsets of a mask in
//! rising order; callers see it as the list of the subsets that are left.
//! Neither takes memory, and no number of either overflows.
#![tactic(auto)]

mod ranks;
mod submasks;
#[cfg(test)]
mod tests;

pub use ranks::weakest;
pub use submasks::Submasks;
