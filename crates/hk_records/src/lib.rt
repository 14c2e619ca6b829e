//! The input of a replay, record by record: which stream each of its bytes belongs to.
//!
//! Callers see a [`RecordReader`] as the text that it has read: each byte answers what that byte is in the whole text,
//! and a fault comes exactly where the whole text meets it first. It keeps a few numbers and takes no memory.
//! It never looks at what the streams' bytes mean.
#![tactic(auto)]

mod part;
mod reader;

pub use hk_base::Trouble;
pub use reader::{Came, RecordReader, Stretch};

#[cfg(test)]
mod tests;
