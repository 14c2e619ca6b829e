//! The run of a replay: stations, operator and catalogue between the bytes of an input and the text that is made of them.
//!
//! [`Run`] is a player of inputs of records. Each byte goes to the station or the operator whose it is, and what it
//! completes is written at once: report lines of the station's blocks, replies to the operator's commands. The end writes
//! the summary. Callers see it by its course: what the definitions print for the bytes that were taken.
//! It takes all memory in `new`, but for the words of recordings that are staged, and keeps no input.
#![tactic(auto)]

mod opening;
mod run;
mod summary;

pub use run::Run;
