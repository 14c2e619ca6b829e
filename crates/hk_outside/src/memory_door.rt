// A door in memory.
ghost use Rattle.std.specs.Prelude.{◌≡◌, ◌↔◌, ◌<◌, ⊤, [], Some, None, IfSome, OnSome, IfNone, IsTrue, IsErr, IfOk, IfErr, OnOk, OnErr, option_map, option_copied, false, if◌then◌else◌, slice_get, slice_set, map};
ghost use Rattle.std.specs.Option.{IsSome, option_map_or};
ghost use Rattle.std.specs.List.{All};
ghost use Rattle.hk_base.specs.Memory.{bytes_left, bytes_written};
ghost use Rattle.hk_base.specs.Devices.{Rose, IsNothing};
ghost use Rattle.hk_outside.specs.Doors.{plan_of, held_at, IsUnasked, gates_asked, gates_given, HasStarted, IsHandedOut, IsRefused, IsHandedBack, IfDoorFailed, UnlessDoorFailed, IfNoMemory};
ghost use Rattle.hk_outside.specs.Memory.{call_fails, IsNextCall};
ghost use Rattle.hk_outside.specs.Places.{IfInside, HasEmpty, inside_of, back_of};
ghost use Rattle.hk_outside.specs.declared.door.Ask.TheVariants as asks;
ghost use Rattle.hk_outside.specs.declared.door.DoorFault.TheVariants as faults;
ghost use Rattle.hk_outside.specs.declared.door.Held.TheVariants as held;
ghost use Rattle.hk_outside.specs.declared.door.Start.TheVariants as starts;
ghost use Rattle.hk_outside.specs.declared.place.Place.TheVariants as places;

use crate::calls::Calls;
use crate::place::Place;
use crate::{Door, DoorFault, Failing, MemoryGate, MemoryLink, Plan, Start};
use hk_base::{MemorySink, MemorySource, NoMemory};
use std::alloc::Global;

/// Objects in memory behind a door, which hands out those that it was given. It tells all of them.
#[derive(Drop)]
pub struct MemoryDoor {
    stations: Vec<Place<(MemoryLink, MemorySink)>>,
    operator: Place<(MemorySource, MemorySink)>,
    gates: Vec<Place<MemoryGate>>,
    start: Start,
    plan: Option<Plan>,
    asked: Calls,
    counted: Failing,
    faults: u64,
    ghost logs: { All (IfInside HasEmpty) stations.items },
    ghost replies: { IfInside HasEmpty operator },
    ghost planned: { start ≡ starts.Started → IsSome plan },
    ghost unasked: { start ≡ starts.Unstarted → asked.made.items ≡ [] },
}

impl MemoryDoor {
    ghost use Rattle.hk_outside.specs.MemoryDoors.{IsNewDoor};

    /// A door with these objects: the links and the empty logs of the stations, the operator's calls and empty replies, and the
    /// gates of the workers. Its calls `start`, `station`, `operator` and `gate` are counted together from 0, and one whose
    /// number stands in `failing`, or that asks for what isn't there, fails. It takes the room for what is handed back.
    pub fn new(
        alloc: Global,
        stations: Vec<(MemoryLink, MemorySink)>,
        calls: MemorySource,
        replies: MemorySink,
        gates: Vec<MemoryGate>,
        failing: Vec<u64>,
    ) -> Result<MemoryDoor, NoMemory>
        requires logs { All HasEmpty stations.items }
        requires replies { bytes_written replies ≡ [] }
        ensures { IfOk result (IsNewDoor stations.items (calls, replies) gates.items failing.items) }
    {
        Ok(MemoryDoor {
            stations: inside(alloc, stations)?,
            operator: Place::Inside((calls, replies)),
            gates: inside(alloc, gates)?,
            start: Start::Unstarted,
            plan: None,
            asked: Calls::new(alloc)?,
            counted: Failing::new(failing),
            faults: 0,
        })
    }

    /// The log of a station as it was handed back, and None where it wasn't.
    pub fn log(&self, number: u8) -> Option<&MemorySink>
        ensures { option_copied result ≡ option_map (λ pair. pair.1) (option_map_or back_of (slice_get self.now.stations.items number) None) }
    {
        match self.stations.as_slice().get(number as usize) {
            Some(Place::Back(pair)) => Some(&pair.1),
            _ => None,
        }
    }

    /// The replies as they were handed back, and None where they weren't.
    pub fn replies(&self) -> Option<&MemorySink>
        ensures { option_copied result ≡ option_map (λ pair. pair.1) (back_of self.now.operator) }
    {
        match &self.operator {
            Place::Back(pair) => Some(&pair.1),
            _ => None,
        }
    }

    // Counts a fault.
    fn fail(&mut self) -> DoorFault
        ensures fault { result ≡ faults.Failed }
        ensures rose { Rose self.old.faults self.new.faults }
        ensures stays { self.new ≡ record self.old { faults = self.new.faults } }
    {
        self.faults = self.faults.saturating_add(1);
        DoorFault::Failed
    }
}

// All of these objects, not yet handed out.
fn inside<T: Drop>(alloc: Global, objects: Vec<T>) -> Result<Vec<Place<T>>, NoMemory>
    ensures { IfOk result (λ all. all.items ≡ map places.Inside objects.items) }
{
    let mut all = match Vec::with_capacity(alloc, objects.len()) {
        Ok(all) => all,
        Err(_) => return Err(NoMemory),
    };
    for object in objects {
        match all.push(Place::Inside(object)) {
            Ok(()) => {}
            Err(_) => return Err(NoMemory),
        }
    }
    Ok(all)
}

// Counts a call, and takes the object from its place unless the call is to fail.
fn take_one<T: Drop>(counted: &mut Failing, place: &mut Place<T>) -> Option<T>
    ensures object { result ≡ (if call_fails counted.old then None else inside_of place.old) }
    ensures out { OnSome result (place.new ≡ places.Outside) }
    ensures stays { IfNone result (place.new ≡ place.old) }
    ensures counted { IsNextCall counted.old counted.new }
{
    if counted.fails() {
        return None;
    }
    place.take()
}

// The same with one of many objects, where there is one of this number.
fn take_nth<T: Drop>(counted: &mut Failing, all: &mut Vec<Place<T>>, n: usize) -> Option<T>
    ensures object { result ≡ (if call_fails counted.old then None else option_map_or inside_of (slice_get all.old.items n) None) }
    ensures out { OnSome result (all.new.items ≡ slice_set all.old.items n places.Outside) }
    ensures stays { IfNone result (all.new.items ≡ all.old.items) }
    ensures counted { IsNextCall counted.old counted.new }
{
    if n < all.len() {
        return take_one(counted, &mut all[n]);
    }
    counted.fails();
    None
}

impl Door for MemoryDoor {
    ghost use Rattle.hk_outside.specs.MemoryDoors.{doorway_of, ask_fails, told_link, told_sink, told_source};

    type Link = MemoryLink;

    type Log = MemorySink;

    type Gate = MemoryGate;

    type Calls = MemorySource;

    type Replies = MemorySink;

    ghost doorway = { doorway_of };

    fn start(&mut self, plan: &Plan) -> Result<(), DoorFault>
        requires { self.old.start ≡ starts.Unstarted }
        ensures ok { OnOk result (HasStarted starts.Started (Some (plan_of plan.now)) (doorway_of self.old) (doorway_of self.new)) }
        ensures failed { IfDoorFailed result (HasStarted starts.Refused (Some (plan_of plan.now)) (doorway_of self.old) (doorway_of self.new)) }
        ensures no_memory { IfNoMemory result (HasStarted starts.Refused None (doorway_of self.old) (doorway_of self.new)) }
        ensures cause { IfDoorFailed result (Rose self.old.faults self.new.faults) }
        ensures counts_failures { UnlessDoorFailed result (self.new.faults ≡ self.old.faults) }

        // Whether it fails.
        ensures fails { IfDoorFailed result (IsTrue (call_fails self.old.counted)) }
        ensures gives { OnOk result (call_fails self.old.counted ≡ false) }
        ensures counted { IsNextCall self.old.counted self.new.counted }
    {
        let fails = self.counted.fails();
        self.start = Start::Refused;
        self.plan = None;
        match plan.copied() {
            Ok(plan) => self.plan = Some(plan),
            Err(_) => return Err(DoorFault::NoMemory),
        }
        if fails {
            return Err(self.fail());
        }
        self.start = Start::Started;
        Ok(())
    }

    fn station(&mut self, number: u8) -> Result<(MemoryLink, MemorySink), DoorFault>
        requires started { self.old.start ≡ starts.Started }
        requires planned { IfSome (option_map plan_of self.old.plan) (λ plan. number < plan.stations) }
        requires once { IsUnasked (asks.Station number) self.old.asked.made.items }
        ensures ok { OnOk result (IsHandedOut (asks.Station number) (asks.Station number) (doorway_of self.old) (doorway_of self.new)) }
        ensures link { IfOk result (λ r. told_link r.0 ≡ ((doorway_of self.old).stations number).gives) }
        ensures log { IfOk result (λ r. told_sink r.1 ≡ ((doorway_of self.old).stations number).takes) }
        ensures log_empty { IfOk result (λ r. IsNothing (Some (bytes_written r.1))) }
        ensures refused { OnErr result (IsRefused (asks.Station number) (doorway_of self.old) (doorway_of self.new)) }
        ensures cause { IfDoorFailed result (Rose self.old.faults self.new.faults) }
        ensures counts_failures { UnlessDoorFailed result (self.new.faults ≡ self.old.faults) }

        // Whether it fails, always in the same way, and what it gives.
        ensures fails { IsErr result ↔ IsTrue (ask_fails self.old (slice_get self.old.stations.items number)) }
        ensures fault { IfErr result (λ fault. fault ≡ faults.Failed) }
        ensures taken { IfOk result (λ pair. slice_get self.old.stations.items number ≡ Some (places.Inside pair)) }
        ensures counted { IsNextCall self.old.counted self.new.counted }
    {
        match take_nth(&mut self.counted, &mut self.stations, number as usize) {
            Some(pair) => {
                self.asked.add_station(number, true);
                Ok(pair)
            }
            None => {
                self.asked.add_station(number, false);
                Err(self.fail())
            }
        }
    }

    fn operator(&mut self) -> Result<(MemorySource, MemorySink), DoorFault>
        requires started { self.old.start ≡ starts.Started }
        requires once { IsUnasked asks.Operator self.old.asked.made.items }
        ensures ok { OnOk result (IsHandedOut asks.Operator asks.Operator (doorway_of self.old) (doorway_of self.new)) }
        ensures calls { IfOk result (λ r. told_source r.0 ≡ (doorway_of self.old).operator.gives) }
        ensures replies { IfOk result (λ r. told_sink r.1 ≡ (doorway_of self.old).operator.takes) }
        ensures replies_empty { IfOk result (λ r. IsNothing (Some (bytes_written r.1))) }
        ensures refused { OnErr result (IsRefused asks.Operator (doorway_of self.old) (doorway_of self.new)) }
        ensures cause { IfDoorFailed result (Rose self.old.faults self.new.faults) }
        ensures counts_failures { UnlessDoorFailed result (self.new.faults ≡ self.old.faults) }

        // Whether it fails, always in the same way, and what it gives.
        ensures fails { IsErr result ↔ IsTrue (ask_fails self.old (Some self.old.operator)) }
        ensures fault { IfErr result (λ fault. fault ≡ faults.Failed) }
        ensures taken { IfOk result (λ pair. self.old.operator ≡ places.Inside pair) }
        ensures counted { IsNextCall self.old.counted self.new.counted }
    {
        match take_one(&mut self.counted, &mut self.operator) {
            Some(pair) => {
                self.asked.add_operator(true);
                Ok(pair)
            }
            None => {
                self.asked.add_operator(false);
                Err(self.fail())
            }
        }
    }

    fn gate(&mut self) -> Result<MemoryGate, DoorFault>
        requires started { self.old.start ≡ starts.Started }
        requires planned { IfSome (option_map plan_of self.old.plan) (λ plan. gates_asked self.old.asked.made.items < plan.workers) }
        ensures ok { OnOk result (IsHandedOut (asks.Gate (gates_asked self.old.asked.made.items)) (asks.Gate (gates_given self.old.asked.made.items)) (doorway_of self.old) (doorway_of self.new)) }
        ensures gate { IfOk result (λ gate. gate.faults ≡ ((doorway_of self.old).gates (gates_given self.old.asked.made.items)).faults) }
        ensures refused { OnErr result (IsRefused (asks.Gate (gates_asked self.old.asked.made.items)) (doorway_of self.old) (doorway_of self.new)) }
        ensures cause { IfDoorFailed result (Rose self.old.faults self.new.faults) }
        ensures counts_failures { UnlessDoorFailed result (self.new.faults ≡ self.old.faults) }

        // Whether it fails, always in the same way, and what it gives.
        ensures fails { IsErr result ↔ IsTrue (ask_fails self.old (slice_get self.old.gates.items (gates_given self.old.asked.made.items))) }
        ensures fault { IfErr result (λ fault. fault ≡ faults.Failed) }
        ensures taken { IfOk result (λ gate. slice_get self.old.gates.items (gates_given self.old.asked.made.items) ≡ Some (places.Inside gate)) }
        ensures counted { IsNextCall self.old.counted self.new.counted }
    {
        let most = match &self.plan {
            Some(plan) => plan.workers,
            None => unreachable!(),
        };
        let next = self.asked.gates_given() as usize;
        match take_nth(&mut self.counted, &mut self.gates, next) {
            Some(gate) => {
                self.asked.add_gate(most, true);
                Ok(gate)
            }
            None => {
                self.asked.add_gate(most, false);
                Err(self.fail())
            }
        }
    }

    fn return_station(&mut self, number: u8, link: MemoryLink, log: MemorySink)
        requires { held_at (asks.Station number) (doorway_of self.old) ≡ held.Outside }
        ensures back { IsHandedBack (asks.Station number) (doorway_of self.old) (doorway_of self.new) }
        ensures link { ((doorway_of self.new).stations number).gives ≡ told_link link }
        ensures log { ((doorway_of self.new).stations number).takes ≡ told_sink log }
        ensures same { self.new.counted ≡ self.old.counted }
    {
        self.stations[number as usize] = Place::Back((link, log));
    }

    fn return_operator(&mut self, calls: MemorySource, replies: MemorySink)
        requires { held_at asks.Operator (doorway_of self.old) ≡ held.Outside }
        ensures back { IsHandedBack asks.Operator (doorway_of self.old) (doorway_of self.new) }
        ensures calls { (doorway_of self.new).operator.gives ≡ told_source calls }
        ensures replies { (doorway_of self.new).operator.takes ≡ told_sink replies }
        ensures same { self.new.counted ≡ self.old.counted }
    {
        self.operator = Place::Back((calls, replies));
    }

    fn return_gate(&mut self, worker: u8, gate: MemoryGate)
        requires { held_at (asks.Gate worker) (doorway_of self.old) ≡ held.Outside }
        ensures back { IsHandedBack (asks.Gate worker) (doorway_of self.old) (doorway_of self.new) }
        ensures gate { ((doorway_of self.new).gates worker).faults ≡ gate.faults }
        ensures same { self.new.counted ≡ self.old.counted }
    {
        self.gates[worker as usize] = Place::Back(gate);
    }
}
