// A door in memory whose gates may wait for one another.
ghost use Rattle.std.specs.Prelude.{◌≡◌, IfOk};
ghost use Rattle.hk_outside.specs.MemoryDoors.{doorway_of};

use hk_base::{Failed, Flag, MemorySink, MemorySource};
use hk_outside::{Door, DoorFault, Gate, MemoryDoor, MemoryGate, MemoryLink, Plan};
use std::sync::Wait;
use std::thread;

// How often a gate looks for the other one before it gives up.
const MOST_TURNS: u32 = 10_000_000;

/// A gate's part in a meeting: it raises one flag, waits for the other's, and raises `missed` where that never comes.
#[derive(Drop)]
pub struct Meeting {
    pub mine: Flag,
    pub other: Flag,
    pub missed: Flag,
}

impl Meeting {
    // Raises the flag, and waits until the other one is raised.
    fn hold(self) {
        self.mine.raise();
        for _ in 0..MOST_TURNS {
            if self.other.is_raised() {
                return;
            }
            thread::yield_now();
        }
        self.missed.raise();
    }
}

/// A gate in memory whose first wait begins with a meeting, where there is one.
#[derive(Drop)]
pub struct MeetingGate {
    gate: MemoryGate,
    meeting: Option<Meeting>,
}

impl Gate for MeetingGate {
    type Link = MemoryLink;

    ghost faults = { λ g. g.gate.faults };

    fn watch(&mut self, seat: u8, link: &mut MemoryLink) -> Result<(), Failed> {
        self.gate.watch(seat, link)
    }

    fn wait<R: Wait>(&mut self, rt: &R, ready: &mut [bool; 64]) -> Result<(), Failed> {
        if let Some(meeting) = self.meeting.take() {
            meeting.hold();
        }
        self.gate.wait(rt, ready)
    }
}

/// A door in memory. Its gates have these meetings, the last one first, as long as there are some.
#[derive(Drop)]
pub struct MeetingDoor {
    pub door: MemoryDoor,
    pub meetings: Vec<Meeting>,
}

impl Door for MeetingDoor {
    type Link = MemoryLink;

    type Log = MemorySink;

    type Gate = MeetingGate;

    type Calls = MemorySource;

    type Replies = MemorySink;

    ghost doorway = { λ d. doorway_of d.door };

    fn start(&mut self, plan: &Plan) -> Result<(), DoorFault> {
        self.door.start(plan)
    }

    fn station(&mut self, number: u8) -> Result<(MemoryLink, MemorySink), DoorFault> {
        self.door.station(number)
    }

    fn operator(&mut self) -> Result<(MemorySource, MemorySink), DoorFault> {
        self.door.operator()
    }

    fn gate(&mut self) -> Result<MeetingGate, DoorFault> {
        match self.door.gate() {
            Ok(gate) => Ok(MeetingGate {
                gate,
                meeting: self.meetings.pop(),
            }),
            Err(fault) => Err(fault),
        }
    }

    fn return_station(&mut self, number: u8, link: MemoryLink, log: MemorySink) {
        self.door.return_station(number, link, log);
    }

    fn return_operator(&mut self, calls: MemorySource, replies: MemorySink) {
        self.door.return_operator(calls, replies);
    }

    fn return_gate(&mut self, worker: u8, gate: MeetingGate) {
        self.door.return_gate(worker, gate.gate);
    }
}
