// A plan that is carried out.
ghost use Rattle.std.specs.Prelude.{◌≡◌, ◌≢◌, ◌⊎◌, None, Some};
ghost use Rattle.hk_base.specs.Devices.{Rose};
ghost use Rattle.hk_outside.specs.declared.door.Start.TheVariants as starts;
ghost use Rattle.hk_spec_monitor.specs.Run.{Run};
ghost use Rattle.hk_spec_monitor.specs.Devices.{asks_in_order, IsUnused, WasRefused, AllAreBack, HasAll};
ghost use Rattle.hk_spec_monitor.specs.Summary.{Concludes};
ghost use Rattle.hk_setup.specs.Plans.{PlanFits};
ghost use Rattle.hk_monitor.specs.declared.crew.Kept.{Kept};
ghost use Rattle.hk_monitor_top.specs.Statuses.{NO_MEMORY, DOOR_FAULT, IsRefusal, IsOfRun};
ghost use Rattle.hk_monitor_top.specs.Ready.{setup_by, IsReady};
ghost use Rattle.hk_monitor_top.specs.Monitored.{WasAskedFor, HasMonitored};

use crate::opened::{RunReady, monitor_opened};
use crate::ready::{Ready, prepare};
use crate::statuses::{Refusal, refusal_by};
use hk_base::{NoMemory, Sink, Status};
use hk_monitor::Kept;
use hk_opening::open;
use hk_outside::{Door, Plan};
use std::alloc::Global;
use std::sync::Wait;
use std::thread::Threads;

// Opens the door for what is ready, and runs that.
fn monitor_ready<R: Threads + Wait + Clone + Send + Sync + Drop, D: Door, K: Sink>(
    rt: &R,
    plan: &Plan,
    ready: RunReady<D, R>,
    door: &mut D,
    out: &mut K,
    kept: &mut Option<Kept<R>>,
) -> Status
    requires fits { PlanFits plan.now }
    requires ready { IsReady plan.now ready }
    requires nothing_kept { kept.old ≡ None }
    requires unstarted { (D.doorway door.old).start ≡ starts.Unstarted }
    ensures known { (result.code ≡ NO_MEMORY) ⊎ (result.code ≡ DOOR_FAULT) ⊎ IsOfRun result.code }
    ensures refused_unused { IsRefusal result.code → IsUnused (D.doorway door.old) (D.doorway door.new) }
    ensures refused_unwritten { IsRefusal result.code → out.new ≡ out.old }
    ensures refused_unkept { IsRefusal result.code → kept.new ≡ None }
    ensures door_fault { result.code ≡ DOOR_FAULT → Rose (D.doorway door.old).faults (D.doorway door.new).faults }
    ensures no_door_failed { result.code ≢ DOOR_FAULT → (D.doorway door.new).faults ≡ (D.doorway door.old).faults }
    ensures asked { WasAskedFor (setup_by plan.now) (D.doorway door.new) }
    ensures refused_by_door { IsRefusal result.code → WasRefused (asks_in_order (setup_by plan.now)) (D.doorway door.new) }
    ensures all_back { AllAreBack (D.doorway door.new) }
    ensures handed_back { HasAll (D.doorway door.old) → HasAll (D.doorway door.new) }
    ensures ran { IsOfRun result.code → (all : Kept R) × (run : Run) × (kept.new ≡ Some all)
        × HasMonitored (setup_by plan.now) (D.doorway door.old) (D.doorway door.new) all.desk all.readings.items run
        × Concludes result.code (K.written out.old) (K.written out.new) (K.faults out.old) (K.faults out.new) run }
{
    let mut ready = ready;
    match open(door, plan, &mut ready.rows.pairs, &mut ready.rows.gates) {
        Ok(handed) => monitor_opened(rt, plan, ready, handed, door, out, kept),
        Err(fault) => {
            let Ready {
                rows: _rows,
                operator: _operator,
                desk,
            } = ready;
            desk.close(rt);
            refusal_by(fault).status()
        }
    }
}

/// Takes all memory that a run of this plan needs, opens the door, runs, hands all back, and writes the summary.
pub fn monitor_plan<R: Threads + Wait + Clone + Send + Sync + Drop, D: Door, K: Sink>(
    rt: &R,
    alloc: Global,
    plan: &Plan,
    door: &mut D,
    out: &mut K,
    kept: &mut Option<Kept<R>>,
) -> Status
    requires fits { PlanFits plan.now }
    requires nothing_kept { kept.old ≡ None }
    requires unstarted { (D.doorway door.old).start ≡ starts.Unstarted }
    ensures known { (result.code ≡ NO_MEMORY) ⊎ (result.code ≡ DOOR_FAULT) ⊎ IsOfRun result.code }
    ensures refused_unused { IsRefusal result.code → IsUnused (D.doorway door.old) (D.doorway door.new) }
    ensures refused_unwritten { IsRefusal result.code → out.new ≡ out.old }
    ensures refused_unkept { IsRefusal result.code → kept.new ≡ None }
    ensures door_fault { result.code ≡ DOOR_FAULT → Rose (D.doorway door.old).faults (D.doorway door.new).faults }
    ensures no_door_failed { result.code ≢ DOOR_FAULT → (D.doorway door.new).faults ≡ (D.doorway door.old).faults }
    ensures asked { (D.doorway door.new).start ≢ starts.Unstarted → WasAskedFor (setup_by plan.now) (D.doorway door.new) }
    ensures refused_by_door { IsRefusal result.code → (D.doorway door.new).start ≢ starts.Unstarted → WasRefused (asks_in_order (setup_by plan.now)) (D.doorway door.new) }
    ensures all_back { (D.doorway door.new).start ≢ starts.Unstarted → AllAreBack (D.doorway door.new) }
    ensures handed_back { HasAll (D.doorway door.old) → HasAll (D.doorway door.new) }
    ensures ran { IsOfRun result.code → (all : Kept R) × (run : Run) × (kept.new ≡ Some all)
        × HasMonitored (setup_by plan.now) (D.doorway door.old) (D.doorway door.new) all.desk all.readings.items run
        × Concludes result.code (K.written out.old) (K.written out.new) (K.faults out.old) (K.faults out.new) run }
{
    match prepare(rt, alloc, plan) {
        Ok(ready) => monitor_ready(rt, plan, ready, door, out, kept),
        Err(NoMemory) => Refusal::NoMemory.status(),
    }
}
