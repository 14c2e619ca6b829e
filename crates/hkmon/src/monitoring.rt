// A monitoring that keeps nothing.
ghost use Rattle.std.specs.Prelude.{◌≡◌, ◌≢◌, ◌⊎◌, None, Some, List};
ghost use Rattle.hk_outside.specs.declared.door.Start.TheVariants as starts;
ghost use Rattle.hk_base.specs.Devices.{Rose};
ghost use Rattle.hk_spec_monitor.specs.Devices.{asks_in_order, IsUnused, WasRefused, AllAreBack, HasAll};
ghost use Rattle.hk_spec_monitor.specs.Run.{Run};
ghost use Rattle.hk_spec_monitor.specs.Setup.{Setup, setup_asked};
ghost use Rattle.hk_spec_monitor.specs.Summary.{Concludes, ENDED, IN_DISORDER, MISMATCH};
ghost use Rattle.hk_publish.specs.Known.{Known};
ghost use Rattle.hk_publish.specs.Holding.{Holding};
ghost use Rattle.hk_monitor_top.specs.Statuses.{USAGE, NO_MEMORY, DOOR_FAULT, IsRefusal, IsOfRun, IsStatus};
ghost use Rattle.hk_monitor_top.specs.Monitored.{WasAskedFor, HasMonitored};

use hk_base::{Sink, Status};
use hk_monitor_top::{Kept, monitor_top};
use hk_outside::Door;
use std::alloc::Global;
use std::sync::Wait;
use std::thread::Threads;

/// Monitors as the words ask for, and closes the desk that is kept. It waits for the streams. What is said of it is what
/// `monitor_top` says, but of a desk and readings that nobody has any more.
pub fn monitor<R: Threads + Wait + Clone + Send + Sync + Drop, D: Door, K: Sink>(
    rt: &R,
    alloc: Global,
    words: &Vec<String>,
    door: &mut D,
    out: &mut K,
) -> Status
    requires unstarted { (D.doorway door.old).start ≡ starts.Unstarted }
    ensures known { IsStatus result.code }
    ensures usage_only { result.code ≡ USAGE → setup_asked words.now.items ≡ None }
    ensures usage { setup_asked words.now.items ≡ None → (result.code ≡ USAGE) ⊎ (result.code ≡ NO_MEMORY) }
    ensures usage_unasked { result.code ≡ USAGE → door.new ≡ door.old }
    ensures refused_unused { IsRefusal result.code → IsUnused (D.doorway door.old) (D.doorway door.new) }
    ensures refused_unwritten { IsRefusal result.code → out.new ≡ out.old }
    ensures door_fault { result.code ≡ DOOR_FAULT → Rose (D.doorway door.old).faults (D.doorway door.new).faults }
    ensures no_door_failed { result.code ≢ DOOR_FAULT → (D.doorway door.new).faults ≡ (D.doorway door.old).faults }
    ensures asked { (D.doorway door.new).start ≢ starts.Unstarted → (setup : Setup) × (setup_asked words.now.items ≡ Some setup) × WasAskedFor setup (D.doorway door.new) }
    ensures refused_by_door { IsRefusal result.code → (D.doorway door.new).start ≢ starts.Unstarted
        → (setup : Setup) × (setup_asked words.now.items ≡ Some setup) × WasRefused (asks_in_order setup) (D.doorway door.new) }
    ensures all_back { (D.doorway door.new).start ≢ starts.Unstarted → AllAreBack (D.doorway door.new) }
    ensures handed_back { HasAll (D.doorway door.old) → HasAll (D.doorway door.new) }
    ensures ran { IsOfRun result.code → (setup : Setup) × (desk : Holding) × (readings : List Known) × (run : Run) × (setup_asked words.now.items ≡ Some setup)
        × HasMonitored setup (D.doorway door.old) (D.doorway door.new) desk readings run
        × Concludes result.code (K.written out.old) (K.written out.new) (K.faults out.old) (K.faults out.new) run }
    ensures complete { setup_asked words.now.items ≢ None → result.code ≢ NO_MEMORY → (Rose (D.doorway door.old).faults (D.doorway door.new).faults → ⊥)
        → (Rose (K.faults out.old) (K.faults out.new) → ⊥) → (result.code ≡ ENDED) ⊎ (result.code ≡ IN_DISORDER) ⊎ (result.code ≡ MISMATCH) }
{
    let mut kept: Option<Kept<R>> = None;
    let status = monitor_top(rt, alloc, words, door, out, &mut kept);
    if let Some(Kept { desk, readings: _ }) = kept {
        desk.close(rt);
    }
    status
}
