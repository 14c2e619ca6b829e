//! An operator's stream, one byte after another.
//!
//! [`OpWire`] takes the bytes of a stream and answers each with one [`OpItem`]: a command's kind, its id, a word, a form,
//! a byte of sound, a fault, or nothing yet. `Both` says that the byte also ends its command. Callers see a wire as the
//! text that it has taken (`HasTaken`): each item is what the whole text says of its last byte. Nothing here takes
//! memory, keeps a payload, or looks at a byte after a fault.
#![tactic(auto)]

mod head;
mod item;
mod kind;
mod reader;
mod recent;
#[cfg(test)]
mod tests;
mod wire;

pub use hk_base::{Form, WireFault};
pub use item::{OpItem, OpLast, Part};
pub use kind::Kind;
pub use wire::OpWire;
