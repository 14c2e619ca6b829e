//! The outside as traits, and the plain types that all layers name.
//!
//! A [`Source`] gives bytes and a [`Sink`] takes them. Each counts its faults, and answers `Failed` only where that
//! count rose, by one. What they hold is told by objects in memory and not by real ones, so that one contract serves both.
//! [`MemorySource`] and [`MemorySink`] give and take bytes in memory, and fail where they are told to. A [`Flag`] is shared
//! by threads, and a sink in memory can raise one.
//! [`Steps`] counts steps at no cost: contracts see how many a call made.
//! Nothing here opens, waits or prints.
#![tactic(auto)]

mod flag;
mod memory;
mod plain;
mod sink;
mod source;
mod steps;

pub use flag::Flag;
pub use memory::{MemorySink, MemorySource};
pub use plain::{
    End, Failed, Form, Got, Head, Match, NoMemory, OpEnd, Print, Reason, Reply, Status, Trouble,
    What, WireFault,
};
pub use sink::Sink;
pub use source::Source;
pub use steps::Steps;
