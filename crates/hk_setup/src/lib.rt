//! The words of `hkmon`, read by `clap` into the plan of a run.
//!
//! [`read_plan`] takes the words behind the program's name. Callers see the plan that the definitions read in them, with the
//! default of each option that isn't given, and exactly where they are no command, or memory is short, no plan. Nothing
//! here reads an environment or prints a usage.
#![tactic(auto)]

mod numeral;
mod reading;
#[cfg(test)]
mod tests;

pub use hk_base::NoMemory;
pub use hk_outside::Plan;
pub use reading::{WordsFault, read_plan};
