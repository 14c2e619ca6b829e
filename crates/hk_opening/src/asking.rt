// The calls that open a door, in order.
ghost use Rattle.std.specs.Prelude.{◌≡◌, ◌≤◌, ℕ, [], ◌∷◌, ◌++◌, map, Some, None, IfSome, vec_capacity, length, IfOk, OnOk, OnErr};
ghost use Rattle.std.specs.List.{range_with_len};
ghost use Rattle.hk_base.specs.Devices.{Rose};
ghost use Rattle.hk_outside.specs.Doors.{IfDoorFailed, UnlessDoorFailed, gates_asked, gates_given};
ghost use Rattle.hk_outside.specs.declared.door.Ask.TheVariants as asks;
ghost use Rattle.hk_outside.specs.declared.door.Start.TheVariants as starts;
ghost use Rattle.hk_spec_monitor.specs.Devices.{granted};
ghost use Rattle.hk_opening.specs.Handing.{AskedFor, StationsAreOut, GatesAreOut, OperatorIsOut, OperatorIsUnused, OnlyTheseAreOut, SameStart, until_refused};

use hk_outside::{Door, DoorFault};

/// Asks for the stations from 0 on, up to the first that is refused.
pub fn open_stations<D: Door>(
    door: &mut D,
    count: u8,
    stations: &mut Vec<(D::Link, D::Log)>,
) -> Result<(), DoorFault>
    requires started { (D.doorway door.old).start ≡ starts.Started }
    requires planned { IfSome (D.doorway door.old).plan (λ plan. plan.stations ≡ count) }
    requires first { (D.doorway door.old).calls ≡ [] }
    requires none { stations.old.items ≡ [] }
    requires room { count ≤ vec_capacity stations.old }
    ensures asked { AskedFor (map asks.Station (range_with_len 0 count)) result (D.doorway door.old).calls (D.doorway door.new).calls }
    ensures last { OnErr result ((D.doorway door.new).calls ≡ (D.doorway door.old).calls ++ until_refused asks.Station (length stations.new.items)) }
    ensures start { SameStart (D.doorway door.old) (D.doorway door.new) }
    ensures out { StationsAreOut D.Link.Link D.Log.Sink stations.new.items (D.doorway door.old) (D.doorway door.new) }
    ensures few { length stations.new.items ≤ count }
    ensures all { OnOk result (length stations.new.items ≡ count) }
    ensures operator { (D.doorway door.new).operator ≡ (D.doorway door.old).operator }
    ensures gates { GatesAreOut D.Gate.faults [] (D.doorway door.old) (D.doorway door.new) }
    ensures cause { IfDoorFailed result (Rose (D.doorway door.old).faults (D.doorway door.new).faults) }
    ensures counts_failures { UnlessDoorFailed result ((D.doorway door.new).faults ≡ (D.doorway door.old).faults) }
{
    for number in 0..count {
        match door.station(number) {
            Ok(pair) => stations.push_reserved(pair),
            Err(fault) => return Err(fault),
        }
    }
    Ok(())
}

// Asks for so many gates, up to the first that is refused.
fn open_gates<D: Door>(door: &mut D, count: u8, gates: &mut Vec<D::Gate>) -> Result<(), DoorFault>
    requires started { (D.doorway door.old).start ≡ starts.Started }
    requires planned { IfSome (D.doorway door.old).plan (λ plan. plan.workers ≡ count) }
    requires none_asked { gates_asked (D.doorway door.old).calls ≡ 0 }
    requires none_given { gates_given (D.doorway door.old).calls ≡ 0 }
    requires none { gates.old.items ≡ [] }
    requires room { count ≤ vec_capacity gates.old }
    ensures asked { AskedFor (map asks.Gate (range_with_len 0 count)) result (D.doorway door.old).calls (D.doorway door.new).calls }
    ensures last { OnErr result ((D.doorway door.new).calls ≡ (D.doorway door.old).calls ++ until_refused asks.Gate (length gates.new.items)) }
    ensures start { SameStart (D.doorway door.old) (D.doorway door.new) }
    ensures out { GatesAreOut D.Gate.faults gates.new.items (D.doorway door.old) (D.doorway door.new) }
    ensures few { length gates.new.items ≤ count }
    ensures all { OnOk result (length gates.new.items ≡ count) }
    ensures operator { (D.doorway door.new).operator ≡ (D.doorway door.old).operator }
    ensures stations { (n : ℕ) → (D.doorway door.new).stations n ≡ (D.doorway door.old).stations n }
    ensures cause { IfDoorFailed result (Rose (D.doorway door.old).faults (D.doorway door.new).faults) }
    ensures counts_failures { UnlessDoorFailed result ((D.doorway door.new).faults ≡ (D.doorway door.old).faults) }
{
    for number in 0..count {
        let _ = number;
        match door.gate() {
            Ok(gate) => gates.push_reserved(gate),
            Err(fault) => return Err(fault),
        }
    }
    Ok(())
}

/// Asks for the operator and so many gates, up to the first call that is refused. Where a gate is refused the operator's calls
/// and replies are handed back.
#[tactic(auto, using(crate::proofs::Order::operator_first))]
pub fn open_rest<D: Door>(
    door: &mut D,
    count: u8,
    gates: &mut Vec<D::Gate>,
) -> Result<(D::Calls, D::Replies), DoorFault>
    requires started { (D.doorway door.old).start ≡ starts.Started }
    requires planned { IfSome (D.doorway door.old).plan (λ plan. plan.workers ≡ count) }
    requires stations { (n : ℕ) × ((D.doorway door.old).calls ≡ granted (map asks.Station (range_with_len 0 n))) }
    requires none { gates.old.items ≡ [] }
    requires room { count ≤ vec_capacity gates.old }
    ensures asked { AskedFor (asks.Operator ∷ map asks.Gate (range_with_len 0 count)) result (D.doorway door.old).calls (D.doorway door.new).calls }
    ensures start { SameStart (D.doorway door.old) (D.doorway door.new) }
    ensures out { GatesAreOut D.Gate.faults gates.new.items (D.doorway door.old) (D.doorway door.new) }
    ensures few { length gates.new.items ≤ count }
    ensures all { OnOk result (length gates.new.items ≡ count) }
    ensures operator { IfOk result (λ pair. OperatorIsOut D.Calls.Source D.Replies.Sink pair (D.doorway door.old) (D.doorway door.new)) }
    ensures unused { OnErr result (OperatorIsUnused (D.doorway door.old) (D.doorway door.new)) }
    ensures only { OnErr result ((n : ℕ) → (D.doorway door.old).calls ≡ granted (map asks.Station (range_with_len 0 n)) → OnlyTheseAreOut n (length gates.new.items) (D.doorway door.new)) }
    ensures stations { (n : ℕ) → (D.doorway door.new).stations n ≡ (D.doorway door.old).stations n }
    ensures cause { IfDoorFailed result (Rose (D.doorway door.old).faults (D.doorway door.new).faults) }
    ensures counts_failures { UnlessDoorFailed result ((D.doorway door.new).faults ≡ (D.doorway door.old).faults) }
{
    match door.operator() {
        Ok((calls, replies)) => match open_gates(door, count, gates) {
            Ok(()) => Ok((calls, replies)),
            Err(fault) => {
                door.return_operator(calls, replies);
                Err(fault)
            }
        },
        Err(fault) => Err(fault),
    }
}
