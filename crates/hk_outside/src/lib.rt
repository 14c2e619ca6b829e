//! The outside of the monitor as traits: links that may have nothing yet, gates that tell which are ready, and the door that
//! hands all of them out.
//!
//! A [`Link`] is a [`Source`](hk_base::Source) that may answer `NotYet`. A [`Gate`] watches links and waits for them.
//! [`MemoryLink`] and [`MemoryGate`] are these in memory, and fail where they are told to.
#![tactic(auto)]

mod calls;
mod door;
mod failing;
mod gate;
mod link;
mod memory_door;
mod memory_gate;
mod memory_link;
mod place;
#[cfg(test)]
mod tests;

pub use calls::Calls;
pub use door::{Ask, Call, Door, DoorFault, Held, Plan, Start};
pub use failing::Failing;
pub use gate::Gate;
pub use link::{Link, LinkGot};
pub use memory_door::MemoryDoor;
pub use memory_gate::MemoryGate;
pub use memory_link::MemoryLink;
