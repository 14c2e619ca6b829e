// The monitor by its words.
ghost use Rattle.std.specs.Prelude.{◌≡◌, ◌≢◌, ◌⊎◌, None, Some};
ghost use Rattle.hk_base.specs.Devices.{Rose};
ghost use Rattle.hk_outside.specs.declared.door.Start.TheVariants as starts;
ghost use Rattle.hk_spec_monitor.specs.Run.{Run};
ghost use Rattle.hk_spec_monitor.specs.Devices.{asks_in_order, IsUnused, WasRefused, AllAreBack, HasAll};
ghost use Rattle.hk_spec_monitor.specs.Setup.{Setup, setup_asked};
ghost use Rattle.hk_spec_monitor.specs.Summary.{Concludes, ENDED, IN_DISORDER, MISMATCH};
ghost use Rattle.hk_monitor.specs.declared.crew.Kept.{Kept};
ghost use Rattle.hk_monitor_top.specs.Statuses.{USAGE, NO_MEMORY, DOOR_FAULT, IsRefusal, IsOfRun, IsStatus};
ghost use Rattle.hk_monitor_top.specs.Monitored.{WasAskedFor, HasMonitored};

use crate::planned::monitor_plan;
use crate::statuses::Refusal;
use hk_base::{Sink, Status};
use hk_monitor::Kept;
use hk_outside::Door;
use hk_setup::{WordsFault, read_plan};
use std::alloc::Global;
use std::sync::Wait;
use std::thread::Threads;

/// Monitors the stations of a door as the words ask for, until all streams are over, and writes the summary. The statuses are 0
/// where every stream ended in order, 3 where some stream didn't, 2 where the words are no command, 4 for want of memory at the
/// opening, 6 where the summary couldn't be written, 8 where the door refused, and 9 where a station saw more than was published.
/// After 0, 3, 6 and 9 the desk and the readings are kept; who holds them closes the desk. It waits for the streams; what is said
/// of it holds if it returns.
pub fn monitor_top<R: Threads + Wait + Clone + Send + Sync + Drop, D: Door, K: Sink>(
    rt: &R,
    alloc: Global,
    words: &Vec<String>,
    door: &mut D,
    out: &mut K,
    kept: &mut Option<Kept<R>>,
) -> Status
    requires nothing_kept { kept.old ≡ None }
    requires unstarted { (D.doorway door.old).start ≡ starts.Unstarted }

    ensures known { IsStatus result.code }

    // The words are no command, and so nothing was asked for or written.
    ensures usage_only { result.code ≡ USAGE → setup_asked words.now.items ≡ None }
    ensures usage { setup_asked words.now.items ≡ None → (result.code ≡ USAGE) ⊎ (result.code ≡ NO_MEMORY) }
    ensures usage_unasked { result.code ≡ USAGE → door.new ≡ door.old }

    // Where nothing was run, nothing was read or written of what the door hands out, and nothing is kept.
    ensures refused_unused { IsRefusal result.code → IsUnused (D.doorway door.old) (D.doorway door.new) }
    ensures refused_unwritten { IsRefusal result.code → out.new ≡ out.old }
    ensures refused_unkept { IsRefusal result.code → kept.new ≡ None }

    // The door itself failed exactly there, by its count.
    ensures door_fault { result.code ≡ DOOR_FAULT → Rose (D.doorway door.old).faults (D.doorway door.new).faults }
    ensures no_door_failed { result.code ≢ DOOR_FAULT → (D.doorway door.new).faults ≡ (D.doorway door.old).faults }

    // The door was asked for what the words ask for, in order, and has all that it handed out again, and every object where none was
    // out before. Once it was started, nothing but its own refusal ends an opening.
    ensures asked { (D.doorway door.new).start ≢ starts.Unstarted → (setup : Setup) × (setup_asked words.now.items ≡ Some setup) × WasAskedFor setup (D.doorway door.new) }
    ensures refused_by_door { IsRefusal result.code → (D.doorway door.new).start ≢ starts.Unstarted
        → (setup : Setup) × (setup_asked words.now.items ≡ Some setup) × WasRefused (asks_in_order setup) (D.doorway door.new) }
    ensures all_back { (D.doorway door.new).start ≢ starts.Unstarted → AllAreBack (D.doorway door.new) }
    ensures handed_back { HasAll (D.doorway door.old) → HasAll (D.doorway door.new) }

    // The run: each log has a line for each block, with exactly the matches of a published version, the replies fit, looks and
    // publishes are one legal history, each end has its cause, the summary and the status are the run's, and the catalogue is kept.
    ensures ran { IsOfRun result.code → (setup : Setup) × (all : Kept R) × (run : Run) × (setup_asked words.now.items ≡ Some setup) × (kept.new ≡ Some all)
        × HasMonitored setup (D.doorway door.old) (D.doorway door.new) all.desk all.readings.items run
        × Concludes result.code (K.written out.old) (K.written out.new) (K.faults out.old) (K.faults out.new) run }

    // Words that are a command are never refused: where memory sufficed and neither the door nor the output failed, the run was made
    // and its summary written whole.
    ensures complete { setup_asked words.now.items ≢ None → result.code ≢ NO_MEMORY → (Rose (D.doorway door.old).faults (D.doorway door.new).faults → ⊥)
        → (Rose (K.faults out.old) (K.faults out.new) → ⊥) → (result.code ≡ ENDED) ⊎ (result.code ≡ IN_DISORDER) ⊎ (result.code ≡ MISMATCH) }
{
    match read_plan(alloc, words) {
        Ok(plan) => monitor_plan(rt, alloc, &plan, door, out, kept),
        Err(WordsFault::Usage) => Refusal::Usage.status(),
        Err(WordsFault::NoMemory) => Refusal::NoMemory.status(),
    }
}
