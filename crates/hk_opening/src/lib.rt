//! The opening of a door in order, and the handing back.
//!
//! [`open`] starts a door and asks for all that a run needs, in order, up to the first call that is refused. Callers see which
//! calls were made, and what is out, as it was inside; where a call was refused, all is back, as it was inside.
//! [`return_stations`] and [`return_gates`] hand back what a run has used, as it is now. No byte is read or written here.
#![tactic(auto)]

mod asking;
mod opening;
mod returning;
#[cfg(test)]
mod tests;

pub use hk_outside::{Door, DoorFault};
pub use opening::open;
pub use returning::{return_gates, return_stations};
