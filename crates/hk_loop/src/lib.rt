//! The loop of a worker over its seats: each seat has a link, a station that hears it, the station's log, and its view of the
//! catalogue.
//!
//! [`serve`] waits at the worker's gate, reads a piece from each link that is ready, and lets the seat's station hear it, until
//! all stations are over. Callers see of each seat that its station heard the bytes of its own link in order, and ended by a
//! cause of its own (`HasServed`), whatever the other seats do. No other thread is made here.
#![tactic(auto)]

mod seat;
mod serving;
#[cfg(test)]
mod tests;
mod turning;

pub use seat::Seat;
pub use serving::serve;
