//! A catalogue that many threads look in while one thread publishes.
//!
//! `start` makes a desk, which is a shelf, and readings, which are lookers. A look makes one enter and sees one published
//! version whole. What a reading sees never goes back, and begins with each note that it learned. Nothing that is staged is
//! seen before its publish.
#![tactic(auto)]

mod desk;
mod edition;
mod laws;
mod note;
mod reading;
mod sharing;
mod starting;
#[cfg(test)]
mod tests;
mod visitor;

pub use desk::Desk;
pub use note::Note;
pub use reading::Reading;
pub use starting::start;
