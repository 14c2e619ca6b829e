// What is handed back after a run.
ghost use Rattle.std.specs.Prelude.{◌≡◌, ◌≤◌, ◌<◌, ℕ, length};
ghost use Rattle.hk_outside.specs.declared.door.Held.TheVariants as held;
ghost use Rattle.hk_opening.specs.Handing.{StationsAreBack, GatesAreBack, SameDoor};
ghost use Rattle.hk_monitor_top.specs.Opened.{OperatorIsBack};

use hk_clerk::Office;
use hk_monitor::Clerk;
use hk_opening::{return_gates, return_stations};
use hk_outside::Door;

/// Hands back the links and logs of stations from 0 on, gates from 0 on, and the clerk's calls and replies, as they are.
pub fn return_all<D: Door>(
    door: &mut D,
    pairs: &mut Vec<(D::Link, D::Log)>,
    gates: &mut Vec<D::Gate>,
    clerk: Clerk<D>,
)
    requires stations_out { (n : ℕ) → n < length pairs.old.items → ((D.doorway door.old).stations n).held ≡ held.Outside }
    requires gates_out { (w : ℕ) → w < length gates.old.items → ((D.doorway door.old).gates w).held ≡ held.Outside }
    requires operator_out { (D.doorway door.old).operator.held ≡ held.Outside }
    requires few_stations { length pairs.old.items ≤ 256 }
    requires few_gates { length gates.old.items ≤ 256 }
    ensures stations { StationsAreBack D.Link.Link D.Log.Sink pairs.old.items (D.doorway door.old) (D.doorway door.new) }
    ensures gates { GatesAreBack D.Gate.faults gates.old.items (D.doorway door.old) (D.doorway door.new) }
    ensures operator { OperatorIsBack D.Calls.Source D.Replies.Sink clerk (D.doorway door.new) }
    ensures same { SameDoor (D.doorway door.old) (D.doorway door.new) }
{
    return_stations(door, pairs);
    return_gates(door, gates);
    let Office { calls, replies, .. } = clerk;
    door.return_operator(calls, replies);
}
