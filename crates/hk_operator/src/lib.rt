//! An operator's commands, obeyed byte by byte over a shelf.
//!
//! [`Operator`] takes the bytes of an operator's stream. A byte that ends a command is answered with the command's reply,
//! and a publish is handed to the caller, who publishes on the shelf. Recordings come as words, or as sound that the
//! operator's own front turns into words. Callers see the operator, with its shelf, as the stream and the state of a run
//! (`IsObeying`). It never publishes, and keeps no more of a stream than the open command and the words of the open song.
#![tactic(auto)]

mod done;
mod draft;
mod laws;
mod operator;
mod recorder;
mod staging;
#[cfg(test)]
mod tests;
mod word_buffer;

pub use done::Done;
pub use hk_base::{NoMemory, OpEnd, Reply};
pub use laws::{publishes_are_replied_to, replies_go_on, uses_what_is_seen};
pub use operator::Operator;
