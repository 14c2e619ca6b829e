//! The replay of an input on one thread, the printing of sound, and the replay of an input that is made.
//!
//! [`replay_top`] does what the words of the command line ask for: it replays an input of records, for up to 64 stations and
//! an operator, prints sound as sub-fingerprints, or makes an input from a seed and tells in one line what its replay found.
//! Callers see, for each status, what was read and what was written, by the definitions over the whole input. It reads pieces
//! of at most 4096 bytes and keeps no input, but for the one that it makes.
#![tactic(auto)]

mod counts;
mod making;
mod order;
mod printing;
mod replaying;
mod statuses;
mod text;
mod top;

pub use hk_base::{Sink, Source, Status};
pub use statuses::{NO_MEMORY, USAGE};
pub use top::replay_top;
