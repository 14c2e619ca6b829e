//! The words of the command line as an order: which command is asked for, and with which options.
//!
//! [`read_words`] takes the words behind the program's name. Callers see exactly what the definitions read in them, with the
//! default of each option that isn't given; and None exactly where they are no command. An option is two words, its name
//! and its number. Nothing here takes memory, reads an environment, or prints a usage.
#![tactic(auto)]

mod choice;
mod number;
mod options;
mod order;
mod rules;
#[cfg(test)]
mod tests;

pub use order::{Order, read_words};
pub use rules::{PrintRules, RunRules};
