// The run of a plan over what its door has handed out.
ghost use Rattle.std.specs.Prelude.{◌≡◌, None, Some};
ghost use Rattle.hk_outside.specs.Doors.{Doorway};
ghost use Rattle.hk_spec_monitor.specs.Run.{Run};
ghost use Rattle.hk_spec_monitor.specs.Devices.{HasAll};
ghost use Rattle.hk_spec_monitor.specs.Summary.{Concludes};
ghost use Rattle.hk_setup.specs.Plans.{PlanFits};
ghost use Rattle.hk_opening.specs.Handing.{SameDoor};
ghost use Rattle.hk_monitor.specs.declared.crew.Kept.{Kept};
ghost use Rattle.hk_monitor_top.specs.Ready.{setup_by};
ghost use Rattle.hk_monitor_top.specs.Opened.{IsManned, IsOpened};
ghost use Rattle.hk_monitor_top.specs.Monitored.{HasMonitored};

use crate::ends::{tell_ends, tell_operator};
use crate::ready::{Ready, Rows};
use crate::returned::return_all;
use crate::running::run_rows;
use hk_base::{Sink, Status};
use hk_clerk::Office;
use hk_monitor::Kept;
use hk_outside::{Door, Plan};
use hk_publish::Reading;
use hk_summary::write_summary;
use std::sync::Wait;
use std::thread::Threads;

/// What is ready for a run over what a door hands out.
pub type RunReady<D, R> = Ready<<D as Door>::Link, <D as Door>::Log, <D as Door>::Gate, Reading<R>>;

// Puts what is kept where nothing is.
fn keep<R: Wait + Drop>(kept: &mut Option<Kept<R>>, all: Kept<R>)
    requires { kept.old ≡ None }
    ensures { kept.new ≡ Some all }
{
    match kept.replace(all) {
        None => {}
        Some(_) => unreachable!(),
    }
}

/// Runs what is ready over what the door has handed out, hands all back, writes the summary, and keeps the desk and the readings.
pub fn monitor_opened<R: Threads + Wait + Clone + Send + Sync + Drop, D: Door, K: Sink>(
    rt: &R,
    plan: &Plan,
    ready: RunReady<D, R>,
    handed: (D::Calls, D::Replies),
    door: &mut D,
    out: &mut K,
    kept: &mut Option<Kept<R>>,
) -> Status
    requires fits { PlanFits plan.now }
    requires nothing_kept { kept.old ≡ None }
    requires manned { IsManned plan.now ready }
    requires opened { (before : Doorway) × IsOpened D.Link.Link D.Log.Sink D.Gate.faults D.Calls.Source D.Replies.Sink plan.now ready.rows handed before (D.doorway door.old) }
    ensures ran { (before : Doorway) → IsOpened D.Link.Link D.Log.Sink D.Gate.faults D.Calls.Source D.Replies.Sink plan.now ready.rows handed before (D.doorway door.old)
        → (all : Kept R) × (run : Run) × (kept.new ≡ Some all) × HasMonitored (setup_by plan.now) before (D.doorway door.new) all.desk all.readings.items run
        × Concludes result.code (K.written out.old) (K.written out.new) (K.faults out.old) (K.faults out.new) run }
    ensures back { (before : Doorway) → IsOpened D.Link.Link D.Log.Sink D.Gate.faults D.Calls.Source D.Replies.Sink plan.now ready.rows handed before (D.doorway door.old)
        → HasAll before → HasAll (D.doorway door.new) }
    ensures same { SameDoor (D.doorway door.old) (D.doorway door.new) }
{
    let Ready {
        mut rows,
        operator,
        mut desk,
    } = ready;
    let (calls, replies) = handed;
    let mut clerk = Office {
        operator,
        calls,
        replies,
        end: None,
    };
    run_rows::<D, R>(rt, plan.stations, &mut rows, &mut desk, &mut clerk);
    let Rows {
        mut pairs,
        mut gates,
        stations,
        readings,
        mut ends,
        ..
    } = rows;
    tell_ends(&stations, &mut ends);
    let operator = tell_operator(&clerk, desk.version());
    return_all(door, &mut pairs, &mut gates, clerk);
    keep(kept, Kept { desk, readings });
    write_summary(&ends, &operator, out)
}
