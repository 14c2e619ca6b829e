//! One run of the monitor over real sockets on loopback, as a test.
//!
//! It stands apart, so that no crate below is proved again with it.
#![tactic(auto)]

#[cfg(test)]
mod tests;
