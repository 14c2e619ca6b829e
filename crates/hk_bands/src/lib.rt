//! The energies of a frame's 33 bands.
//!
//! [`band_energies`] takes the real and the imaginary parts of a spectrum of 2048 bins, and gives for each band the
//! sum of `re * re + im * im` over its bins, exactly, in whole numbers. Callers see the sums as a list.
//! It takes no memory, never rounds and never overflows.
#![tactic(auto)]

mod energies;
#[cfg(test)]
mod tests;

pub use energies::{Energies, band_energies};
