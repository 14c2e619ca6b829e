// What hands out all that a monitor reads and writes.
ghost use Rattle.std.specs.Prelude.{◌≡◌, ◌<◌, Some, None, IfSome, IfOk, OnOk, OnErr};
ghost use Rattle.hk_base.specs.Devices.{Rose, IsNothing};
ghost use Rattle.hk_outside.specs.Doors.{Doorway, plan_of, held_at, IsUnasked, gates_asked, gates_given, HasStarted, IsHandedOut, IsRefused, IsHandedBack, IfDoorFailed, UnlessDoorFailed, IfNoMemory};
ghost use Rattle.hk_outside.specs.declared.door.Ask.TheVariants as asks;
ghost use Rattle.hk_outside.specs.declared.door.Held.TheVariants as held;
ghost use Rattle.hk_outside.specs.declared.door.Start.TheVariants as starts;

use crate::{Gate, Link};
use hk_base::{NoMemory, Sink, Source};

/// What a monitor is to listen to.
#[derive(Drop)]
pub struct Plan {
    pub stations: u8,
    pub workers: u8,
    pub flips: u32,
    pub hop: u32,
    pub songs: u32,
    pub positions: u32,
    pub versions: u32,
    pub bytes: u64,
    pub address: String,
    pub station_port: u16,
    pub operator_port: u16,
    pub logs: String,
}

impl Plan {
    /// Another plan of the same values.
    pub fn copied(&self) -> Result<Plan, NoMemory>
        ensures { IfOk result (λ plan. plan_of plan ≡ plan_of self.now) }
    {
        let address = match self.address.clone() {
            Ok(address) => address,
            Err(_) => return Err(NoMemory),
        };
        let logs = match self.logs.clone() {
            Ok(logs) => logs,
            Err(_) => return Err(NoMemory),
        };
        Ok(Plan {
            stations: self.stations,
            workers: self.workers,
            flips: self.flips,
            hop: self.hop,
            songs: self.songs,
            positions: self.positions,
            versions: self.versions,
            bytes: self.bytes,
            address,
            station_port: self.station_port,
            operator_port: self.operator_port,
            logs,
        })
    }
}

/// Why a door refuses.
#[derive(Clone, Copy, Debug, PartialEq, Eq)]
pub enum DoorFault {
    Failed,
    NoMemory,
}

/// Whether a door was started, and what it answered.
#[derive(Clone, Copy, Debug, PartialEq, Eq)]
pub enum Start {
    Unstarted,
    Started,
    Refused,
}

/// Where an object is: not handed out yet, handed out, or handed back.
#[derive(Clone, Copy, Debug, PartialEq, Eq)]
pub enum Held {
    Inside,
    Outside,
    Back,
}

/// What is asked of a door: the link and the log of a station, the operator's calls and replies, or a gate. Gates are numbered
/// from 0, in the order in which they are asked for.
#[derive(Clone, Copy, Debug, PartialEq, Eq)]
pub enum Ask {
    Station(u8),
    Operator,
    Gate(u8),
}

/// A call that asked for an object, and whether it was handed out.
#[derive(Clone, Copy, Debug, PartialEq, Eq)]
pub struct Call {
    pub ask: Ask,
    pub ok: bool,
}

/// The way in and out: it is started with a plan, hands out the objects of a run, and takes them back. It counts its faults.
pub trait Door {
    type Link: Link + Send + Drop;

    type Log: Sink + Send + Drop;

    type Gate: Gate<Link = Self::Link> + Send + Drop;

    type Calls: Source + Send + Drop;

    type Replies: Sink + Send + Drop;

    /// What was asked of it, and what it tells of each object.
    ghost doorway: { Self → Doorway };

    /// Opens the door for a plan. It is called at most once.
    fn start(&mut self, plan: &Plan) -> Result<(), DoorFault>
        requires { (doorway self.old).start ≡ starts.Unstarted }
        ensures ok { OnOk result (HasStarted starts.Started (Some (plan_of plan.now)) (doorway self.old) (doorway self.new)) }
        ensures failed { IfDoorFailed result (HasStarted starts.Refused (Some (plan_of plan.now)) (doorway self.old) (doorway self.new)) }
        ensures no_memory { IfNoMemory result (HasStarted starts.Refused None (doorway self.old) (doorway self.new)) }
        ensures cause { IfDoorFailed result (Rose (doorway self.old).faults (doorway self.new).faults) }
        ensures counts_failures { UnlessDoorFailed result ((doorway self.new).faults ≡ (doorway self.old).faults) };

    /// Hands out the link and the log of a station of the plan, which wasn't asked for before. The log is empty.
    fn station(&mut self, number: u8) -> Result<(Self::Link, Self::Log), DoorFault>
        requires started { (doorway self.old).start ≡ starts.Started }
        requires planned { IfSome (doorway self.old).plan (λ plan. number < plan.stations) }
        requires once { IsUnasked (asks.Station number) (doorway self.old).calls }
        ensures ok { OnOk result (IsHandedOut (asks.Station number) (asks.Station number) (doorway self.old) (doorway self.new)) }
        ensures link { IfOk result (λ r. record { bytes = Self.Link.left r.0; faults = Self.Link.faults r.0 } ≡ ((doorway self.old).stations number).gives) }
        ensures log { IfOk result (λ r. record { bytes = Self.Log.written r.1; faults = Self.Log.faults r.1 } ≡ ((doorway self.old).stations number).takes) }
        ensures log_empty { IfOk result (λ r. IsNothing (Self.Log.written r.1)) }
        ensures refused { OnErr result (IsRefused (asks.Station number) (doorway self.old) (doorway self.new)) }
        ensures cause { IfDoorFailed result (Rose (doorway self.old).faults (doorway self.new).faults) }
        ensures counts_failures { UnlessDoorFailed result ((doorway self.new).faults ≡ (doorway self.old).faults) };

    /// Hands out the operator's calls and replies, which weren't asked for before. The replies are empty.
    fn operator(&mut self) -> Result<(Self::Calls, Self::Replies), DoorFault>
        requires started { (doorway self.old).start ≡ starts.Started }
        requires once { IsUnasked asks.Operator (doorway self.old).calls }
        ensures ok { OnOk result (IsHandedOut asks.Operator asks.Operator (doorway self.old) (doorway self.new)) }
        ensures calls { IfOk result (λ r. record { bytes = Self.Calls.left r.0; faults = Self.Calls.faults r.0 } ≡ (doorway self.old).operator.gives) }
        ensures replies { IfOk result (λ r. record { bytes = Self.Replies.written r.1; faults = Self.Replies.faults r.1 } ≡ (doorway self.old).operator.takes) }
        ensures replies_empty { IfOk result (λ r. IsNothing (Self.Replies.written r.1)) }
        ensures refused { OnErr result (IsRefused asks.Operator (doorway self.old) (doorway self.new)) }
        ensures cause { IfDoorFailed result (Rose (doorway self.old).faults (doorway self.new).faults) }
        ensures counts_failures { UnlessDoorFailed result ((doorway self.new).faults ≡ (doorway self.old).faults) };

    /// Hands out the next worker's gate. It is asked for at most as often as the plan has workers.
    fn gate(&mut self) -> Result<Self::Gate, DoorFault>
        requires started { (doorway self.old).start ≡ starts.Started }
        requires planned { IfSome (doorway self.old).plan (λ plan. gates_asked (doorway self.old).calls < plan.workers) }
        ensures ok { OnOk result (IsHandedOut (asks.Gate (gates_asked (doorway self.old).calls)) (asks.Gate (gates_given (doorway self.old).calls)) (doorway self.old) (doorway self.new)) }
        ensures gate { IfOk result (λ gate. Self.Gate.faults gate ≡ ((doorway self.old).gates (gates_given (doorway self.old).calls)).faults) }
        ensures refused { OnErr result (IsRefused (asks.Gate (gates_asked (doorway self.old).calls)) (doorway self.old) (doorway self.new)) }
        ensures cause { IfDoorFailed result (Rose (doorway self.old).faults (doorway self.new).faults) }
        ensures counts_failures { UnlessDoorFailed result ((doorway self.new).faults ≡ (doorway self.old).faults) };

    /// Takes back the link and the log of a station, as they are now.
    fn return_station(&mut self, number: u8, link: Self::Link, log: Self::Log)
        requires { held_at (asks.Station number) (doorway self.old) ≡ held.Outside }
        ensures back { IsHandedBack (asks.Station number) (doorway self.old) (doorway self.new) }
        ensures link { ((doorway self.new).stations number).gives ≡ record { bytes = Self.Link.left link; faults = Self.Link.faults link } }
        ensures log { ((doorway self.new).stations number).takes ≡ record { bytes = Self.Log.written log; faults = Self.Log.faults log } };

    /// Takes back the operator's calls and replies, as they are now.
    fn return_operator(&mut self, calls: Self::Calls, replies: Self::Replies)
        requires { held_at asks.Operator (doorway self.old) ≡ held.Outside }
        ensures back { IsHandedBack asks.Operator (doorway self.old) (doorway self.new) }
        ensures calls { (doorway self.new).operator.gives ≡ record { bytes = Self.Calls.left calls; faults = Self.Calls.faults calls } }
        ensures replies { (doorway self.new).operator.takes ≡ record { bytes = Self.Replies.written replies; faults = Self.Replies.faults replies } };

    /// Takes back a worker's gate, as it is now.
    fn return_gate(&mut self, worker: u8, gate: Self::Gate)
        requires { held_at (asks.Gate worker) (doorway self.old) ≡ held.Outside }
        ensures back { IsHandedBack (asks.Gate worker) (doorway self.old) (doorway self.new) }
        ensures gate { ((doorway self.new).gates worker).faults ≡ Self.Gate.faults gate };
}
