// The opening of a door: its start, and all calls that ask for its objects.
ghost use Rattle.std.specs.Prelude.{◌≡◌, ◌≤◌, ℕ, [], Some, vec_capacity, length, IfOk, IfSome, OnOk, OnErr};
ghost use Rattle.hk_base.specs.Devices.{Rose};
ghost use Rattle.hk_outside.specs.Doors.{plan_of, IfDoorFailed, UnlessDoorFailed};
ghost use Rattle.hk_outside.specs.declared.door.Start.TheVariants as starts;
ghost use Rattle.hk_spec_monitor.specs.Devices.{granted, IsUnused, AllAreBack, HasAll, WasRefused};
ghost use Rattle.hk_opening.specs.Handing.{AskedFor, StationsAreOut, GatesAreOut, OperatorIsOut, OperatorIsUnused, OnlyTheseAreOut, SameStart, opening_of};

use crate::asking::{open_rest, open_stations};
use crate::returning::{return_gates, return_stations};
use hk_outside::{Door, DoorFault, Plan};

// Asks a door that was started with this plan for all that it has, in order, up to the first call that is refused.
fn open_all<D: Door>(
    door: &mut D,
    plan: &Plan,
    stations: &mut Vec<(D::Link, D::Log)>,
    gates: &mut Vec<D::Gate>,
) -> Result<(D::Calls, D::Replies), DoorFault>
    requires started { (D.doorway door.old).start ≡ starts.Started }
    requires planned { (D.doorway door.old).plan ≡ Some (plan_of plan.now) }
    requires first { (D.doorway door.old).calls ≡ [] }
    requires no_station { stations.old.items ≡ [] }
    requires no_gate { gates.old.items ≡ [] }
    requires stations_room { plan.now.stations ≤ vec_capacity stations.old }
    requires gates_room { plan.now.workers ≤ vec_capacity gates.old }
    ensures asked { AskedFor (opening_of (plan_of plan.now)) result (D.doorway door.old).calls (D.doorway door.new).calls }
    ensures start { SameStart (D.doorway door.old) (D.doorway door.new) }
    ensures stations { StationsAreOut D.Link.Link D.Log.Sink stations.new.items (D.doorway door.old) (D.doorway door.new) }
    ensures gates { GatesAreOut D.Gate.faults gates.new.items (D.doorway door.old) (D.doorway door.new) }
    ensures few_stations { length stations.new.items ≤ 256 }
    ensures few_gates { length gates.new.items ≤ 256 }
    ensures all_stations { OnOk result (length stations.new.items ≡ plan.now.stations) }
    ensures all_gates { OnOk result (length gates.new.items ≡ plan.now.workers) }
    ensures operator { IfOk result (λ pair. OperatorIsOut D.Calls.Source D.Replies.Sink pair (D.doorway door.old) (D.doorway door.new)) }
    ensures unused { OnErr result (OperatorIsUnused (D.doorway door.old) (D.doorway door.new)) }
    ensures only { OnErr result (OnlyTheseAreOut (length stations.new.items) (length gates.new.items) (D.doorway door.new)) }
    ensures cause { IfDoorFailed result (Rose (D.doorway door.old).faults (D.doorway door.new).faults) }
    ensures counts_failures { UnlessDoorFailed result ((D.doorway door.new).faults ≡ (D.doorway door.old).faults) }
{
    match open_stations(door, plan.stations, stations) {
        Ok(()) => open_rest(door, plan.workers, gates),
        Err(fault) => Err(fault),
    }
}

/// Starts a door with this plan and asks it in order for all that a run needs: the link and the log of each station, put at its
/// number in `stations`, the operator's calls and replies, which are the answer, and a gate for each worker, put at its number
/// in `gates`. The first call that is refused decides, by its fault: then all that was handed out is back as it was, and no
/// byte was read or written.
pub fn open<D: Door>(
    door: &mut D,
    plan: &Plan,
    stations: &mut Vec<(D::Link, D::Log)>,
    gates: &mut Vec<D::Gate>,
) -> Result<(D::Calls, D::Replies), DoorFault>
    requires unstarted { (D.doorway door.old).start ≡ starts.Unstarted }
    requires no_station { stations.old.items ≡ [] }
    requires no_gate { gates.old.items ≡ [] }
    requires stations_room { plan.now.stations ≤ vec_capacity stations.old }
    requires gates_room { plan.now.workers ≤ vec_capacity gates.old }

    // Where all was handed out, it was asked for in order, and is as it was inside.
    ensures start { OnOk result ((D.doorway door.new).start ≡ starts.Started) }
    ensures plan { OnOk result ((D.doorway door.new).plan ≡ Some (plan_of plan.now)) }
    ensures calls { OnOk result ((D.doorway door.new).calls ≡ granted (opening_of (plan_of plan.now))) }
    ensures stations { OnOk result (StationsAreOut D.Link.Link D.Log.Sink stations.new.items (D.doorway door.old) (D.doorway door.new)) }
    ensures gates { OnOk result (GatesAreOut D.Gate.faults gates.new.items (D.doorway door.old) (D.doorway door.new)) }
    ensures all_stations { OnOk result (length stations.new.items ≡ plan.now.stations) }
    ensures all_gates { OnOk result (length gates.new.items ≡ plan.now.workers) }
    ensures operator { IfOk result (λ pair. OperatorIsOut D.Calls.Source D.Replies.Sink pair (D.doorway door.old) (D.doorway door.new)) }

    // Where the door refused, it was asked in order up to there, and all is back.
    ensures refused { OnErr result (WasRefused (opening_of (plan_of plan.now)) (D.doorway door.new)) }
    ensures unused { OnErr result (IsUnused (D.doorway door.old) (D.doorway door.new)) }
    ensures all_back { OnErr result (AllAreBack (D.doorway door.new)) }
    ensures back { OnErr result (HasAll (D.doorway door.old) → HasAll (D.doorway door.new)) }
    ensures no_station { OnErr result (stations.new.items ≡ []) }
    ensures no_gate { OnErr result (gates.new.items ≡ []) }

    // In both cases.
    ensures plan_told { IfSome (D.doorway door.new).plan (λ told. told ≡ plan_of plan.now) }
    ensures cause { IfDoorFailed result (Rose (D.doorway door.old).faults (D.doorway door.new).faults) }
    ensures counts_failures { UnlessDoorFailed result ((D.doorway door.new).faults ≡ (D.doorway door.old).faults) }
{
    door.start(plan)?;
    match open_all(door, plan, stations, gates) {
        Ok(handed) => Ok(handed),
        Err(fault) => {
            return_gates(door, gates);
            return_stations(door, stations);
            Err(fault)
        }
    }
}
