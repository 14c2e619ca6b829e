//! The circle in 2048 parts, and the window that a frame is weighted by.
//!
//! [`Circle::new`] builds a quarter of the circle by halving its angle nine times in whole numbers, fills tables of all
//! parts from it, and takes all the memory there is to take. [`Circle::cos`], [`Circle::sin`] and [`Circle::hann`] then
//! read from them, in units of 2^15; [`Circle::stage_cosines`] and [`Circle::stage_sines`] lend what one stage of a
//! transform turns by, one behind the other. Callers see the numbers of the definition.
//! Nothing here uses floating point, and no answer depends on the machine.
#![tactic(auto)]

mod circle;
mod direction;
mod point;
mod quarter;
mod tables;
#[cfg(test)]
mod tests;

pub use circle::Circle;
