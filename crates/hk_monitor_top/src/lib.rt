//! The monitor of live stations: the call that the program `hkmon` makes.
//!
//! [`monitor_top`] reads the words, takes all memory, opens the door, runs the crew and the clerk, hands all back and writes the
//! summary. Callers see the status with its cause, and of a run what its logs, replies, looks, ends and summary are. It reads and
//! writes nothing but what the door hands out and the output.
#![tactic(auto)]

mod ends;
mod opened;
mod planned;
mod ready;
mod returned;
mod running;
mod statuses;
mod top;

pub use hk_monitor::Kept;
pub use statuses::Refusal;
pub use top::monitor_top;
