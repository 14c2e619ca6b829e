//! Nodes in a fixed store, linked by their indexes.
//!
//! A live node stands in the chain of one bucket, linked both ways, and in one song, linked one way. All other nodes are
//! free. Callers see the list of each bucket's nodes, and of each node its bucket, its word, slot and position, and the
//! next node of its song. After `new` nothing here takes memory.
#![tactic(auto)]

mod chain;
mod nodes;
#[cfg(test)]
mod tests;
mod visit;

pub use chain::END;
pub use hk_base::{NoMemory, Steps};
pub use nodes::Nodes;
pub use visit::Visit;
