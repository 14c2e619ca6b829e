//! Bit errors between the words of a block and as many words of a song.
//!
//! [`errors`] counts the bits that differ. [`within`] gives the count where it is within a limit. Masks play no part here: a
//! weak bit that differs is an error as any other. Neither takes memory, and no count overflows.
#![tactic(auto)]

mod bits;
#[cfg(test)]
mod tests;

pub use bits::{errors, within};
