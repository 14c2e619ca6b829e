//! One sub-fingerprint from two spectra.
//!
//! [`differences`] takes the energies of 33 bands now and one step before, and gives for each of the 32 bits how much
//! more the energy falls now from its band to the next. [`print_of`] makes the print of these: the word has the signs,
//! the mask has the weak bits. Callers see lists of whole numbers.
//! It takes no memory, and no number overflows or loses bits.
#![tactic(auto)]

mod change;
mod print;
#[cfg(test)]
mod tests;

pub use change::differences;
pub use print::print_of;
