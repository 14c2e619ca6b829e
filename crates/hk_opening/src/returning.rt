// What hands objects back to a door.
ghost use Rattle.std.specs.Prelude.{◌≡◌, ◌≤◌, ◌<◌, ℕ, [], length};
ghost use Rattle.hk_outside.specs.declared.door.Held.TheVariants as held;
ghost use Rattle.hk_opening.specs.Handing.{StationsAreBack, GatesAreBack, SameDoor};

use hk_outside::Door;

/// Hands back the links and logs of stations from 0 on, as they are.
pub fn return_stations<D: Door>(door: &mut D, stations: &mut Vec<(D::Link, D::Log)>)
    requires out { (n : ℕ) → n < length stations.old.items → ((D.doorway door.old).stations n).held ≡ held.Outside }
    requires few { length stations.old.items ≤ 256 }
    ensures back { StationsAreBack D.Link.Link D.Log.Sink stations.old.items (D.doorway door.old) (D.doorway door.new) }
    ensures emptied { stations.new.items ≡ [] }
    ensures same { SameDoor (D.doorway door.old) (D.doorway door.new) }
    ensures operator { (D.doorway door.new).operator ≡ (D.doorway door.old).operator }
    ensures gates { (w : ℕ) → (D.doorway door.new).gates w ≡ (D.doorway door.old).gates w }
{
    while let Some((link, log)) = stations.pop() {
        door.return_station(stations.len() as u8, link, log);
    }
}

/// Hands back gates from 0 on, as they are.
pub fn return_gates<D: Door>(door: &mut D, gates: &mut Vec<D::Gate>)
    requires out { (w : ℕ) → w < length gates.old.items → ((D.doorway door.old).gates w).held ≡ held.Outside }
    requires few { length gates.old.items ≤ 256 }
    ensures back { GatesAreBack D.Gate.faults gates.old.items (D.doorway door.old) (D.doorway door.new) }
    ensures emptied { gates.new.items ≡ [] }
    ensures same { SameDoor (D.doorway door.old) (D.doorway door.new) }
    ensures operator { (D.doorway door.new).operator ≡ (D.doorway door.old).operator }
    ensures stations { (n : ℕ) → (D.doorway door.new).stations n ≡ (D.doorway door.old).stations n }
{
    while let Some(gate) = gates.pop() {
        door.return_gate(gates.len() as u8, gate);
    }
}
