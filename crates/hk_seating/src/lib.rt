//! Gives stations their seats in the crew of a monitor before a run, and takes them out after it.
//!
//! Station n sits at worker n mod so many workers. [`seat_all`] makes a crew of gates and benches and seats the stations,
//! [`unseat_all`] takes both apart again in the order of their numbers, and [`what_stations_did`] says by number what a run says
//! of each worker's seats. It takes no memory and reads and writes nothing.
#![tactic(auto)]

mod bench;
mod laws;
mod seating;
#[cfg(test)]
mod tests;
mod unseating;

pub use bench::Bench;
pub use laws::what_stations_did;
pub use seating::seat_all;
pub use unseating::unseat_all;
