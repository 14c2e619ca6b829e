//! The input that `make` replays.
//!
//! Definitions alone: from a seed come eight songs and what the stations play of them, and these stand as records of the
//! operator and of the stations. Worked examples stand beside them.
#![tactic(auto)]

mod laws;
