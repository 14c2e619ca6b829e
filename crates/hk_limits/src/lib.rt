//! The numbers that may be set, each with the values that it may have.
//!
//! Whoever reads a number, and whoever takes one, asks here. Callers see the ranges and lists of the definitions.
#![tactic(auto)]

mod form;
mod range;

pub use form::{allows_channels, allows_factor};
pub use range::Range;
