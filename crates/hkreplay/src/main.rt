//! `hkreplay`: the replay over standard input and standard output.
//!
//! It makes the real devices and the words, calls the top call, and ends with its status. All that is said of what is written
//! for what is read stands on that call; of the devices it is proved what the runtime's reader has left, and what its writer
//! was given.
#![tactic(auto)]

mod exits;
mod words;

use hk_base::Status;
use hk_mio::{StdSink, StdSource};
use hk_replay::replay_top;
use std::process::ExitCode;

fn main(rt: HostRuntime) -> ExitCode {
    let status = run(&rt);
    if let Some(message) = exits::message_of(status) {
        let _ = eprintln!(rt; "{}", message);
    }
    exits::exit_of(status)
}

fn run(rt: &HostRuntime) -> Status {
    let mut input = StdSource::new(rt.reader());
    let mut out = StdSink::new(rt.stdout());
    match words::words_of(rt) {
        Ok(words) => replay_top(rt.alloc(), &words, &mut input, &mut out),
        Err(status) => status,
    }
}
