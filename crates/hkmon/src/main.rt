//! `hkmon`: the monitor of live stations over sockets, with the summary on standard output.
//!
//! It makes the real door, the output and the words, calls the top call, closes the desk that this kept, and ends with its
//! status. All that is said of what is read and written stands on that call; of the devices it is proved that their counts tell
//! each call that failed.
#![tactic(auto)]

mod exits;
mod monitoring;
mod words;

use hk_mio::{NetDoor, StdSink};
use std::process::ExitCode;

fn main(rt: HostRuntime) -> ExitCode {
    let mut door = NetDoor::new(&rt);
    let mut out = StdSink::new(rt.stdout());
    let status = match words::words_of(&rt) {
        Ok(words) => monitoring::monitor(&&rt, rt.alloc(), &words, &mut door, &mut out),
        Err(status) => status,
    };
    if let Some(message) = exits::message_of(status) {
        let _ = eprintln!(rt; "{}", message);
    }
    exits::exit_of(status)
}
