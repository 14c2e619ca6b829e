//! From samples to fewer samples, by weighted means.
//!
//! A [`Decimator`] takes mono samples one after the other, and gives one for each `factor` of them: the mean of the
//! last `2 * factor - 1`, weighted 1, 2, .., factor, .., 2, 1 and rounded to the nearest number. Callers see the
//! factor and the samples of the mean that has begun; over any list of pushes the samples given are those of all.
//! It keeps at most 15 samples, takes no memory and never overflows.
#![tactic(auto)]

mod decimator;
mod mean;
#[cfg(test)]
mod tests;

pub use decimator::Decimator;
