//! What a run of the monitor with threads is: what each station and the operator did, what stands in the logs and the summary,
//! why each ended, and what was read and written at the door.
//!
//! Definitions alone, over whole texts and lists of looks. Laws beside them say that the lines of such a run make one legal
//! history, and that a log is a function of its blocks, its versions and the songs.
#![tactic(auto)]

mod examples;
mod facts;
mod laws;
