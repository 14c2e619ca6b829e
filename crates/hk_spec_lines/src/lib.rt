//! The printed lines, byte by byte.
//!
//! Definitions alone: each line of a report, a summary or a print as a list of bytes.
#![tactic(auto)]

mod laws;
