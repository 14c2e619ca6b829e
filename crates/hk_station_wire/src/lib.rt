//! A station's stream, one byte after another.
//!
//! [`Wire`] takes the bytes of a stream and answers each with one [`Item`]: the form, a byte of sound, a print, a
//! fence, a gap, a fault, or nothing yet. Callers see it as the text that it has taken (`HasTaken`): each item is what
//! the whole text says of its last byte. Nothing here takes memory, and no byte is looked at after a fault.
#![tactic(auto)]

mod item;
mod reader;
mod wire;

pub use hk_base::{Form, Print, WireFault};
pub use item::Item;
pub use wire::Wire;

#[cfg(test)]
mod tests;
