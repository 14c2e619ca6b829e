// A worker's readiness of connections as a gate.
ghost use Rattle.std.specs.Prelude.{◌≡◌, IfOk, OnOk, OnErr};
ghost use Rattle.hk_base.specs.Devices.{Rose};
ghost use Rattle.hk_outside.specs.Gates.{KeepsSet};

use crate::NetLink;
use hk_base::Failed;
use hk_outside::Gate;
use mio::{Events, Interest, Poll, Token};
use std::alloc::Global;
use std::io;
use std::net::Net;
use std::sync::Wait;

// How many events a wait takes at most: one for each seat.
const MOST_EVENTS: usize = 64;

/// Watches the connections of one worker's seats, with a count of the calls that failed.
#[derive(Drop)]
pub struct NetGate {
    poll: Poll,
    events: Events<Global>,
    faults: u64,
}

impl NetGate {
    /// No call has failed yet.
    pub fn new<R: Net + AllocGlobal>(rt: &R) -> io::Result<NetGate>
        ensures { IfOk result (λ gate. gate.faults ≡ 0) }
    {
        let poll = Poll::new(rt)?;
        let events = Events::with_capacity(rt.alloc(), MOST_EVENTS)?;
        Ok(NetGate {
            poll,
            events,
            faults: 0,
        })
    }

    /// How many calls have failed.
    pub fn faults(&self) -> u64
        ensures { result ≡ self.now.faults }
    {
        self.faults
    }

    // Counts a failure.
    fn count(&mut self, done: io::Result<()>) -> Result<(), Failed>
        ensures cause { OnErr result (Rose self.old.faults self.new.faults) }
        ensures counts_failures { OnOk result (self.new.faults ≡ self.old.faults) }
    {
        match done {
            Ok(()) => Ok(()),
            Err(_) => {
                self.faults = self.faults.saturating_add(1);
                Err(Failed)
            }
        }
    }
}

impl Gate for NetGate {
    type Link = NetLink;

    ghost faults = { λ g. g.faults };

    fn watch(&mut self, seat: u8, link: &mut NetLink) -> Result<(), Failed> {
        let watched = self
            .poll
            .registry()
            .register(&mut link.stream, Token(seat as usize), Interest::READABLE);
        self.count(watched)
    }

    fn wait<R: Wait>(&mut self, _rt: &R, ready: &mut [bool; 64]) -> Result<(), Failed> {
        let waited = self.poll.poll(&mut self.events, None);
        for event in &self.events {
            let seat = event.token().0;
            if seat < ready.len() {
                ready[seat] = true;
            }
        }
        self.count(waited)
    }
}
