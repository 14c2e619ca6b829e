//! What both wires are made of.
//!
//! [`Passage`] counts a stream's bytes up to its limit and keeps the fault that ends it, [`LastPacket`] has the first
//! bytes of the packet that the last byte belongs to, and [`Gathered`] has a few bytes that make something whole. Callers
//! see each as the bytes that it has taken. Nothing here knows a kind of packet, takes memory, or looks at a byte after a
//! fault.
#![tactic(auto)]

mod gathered;
mod packet;
mod passage;

pub use gathered::Gathered;
pub use hk_base::WireFault;
pub use packet::{LastPacket, LengthSize};
pub use passage::Passage;

#[cfg(test)]
mod tests;
