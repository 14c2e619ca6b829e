// Stations leave their seats.
ghost use Rattle.std.specs.Prelude.{◌≡◌, ◌<◌, ◌≤◌, [], length, vec_capacity};
ghost use Rattle.hk_seating.specs.Seating.{gates_of, HasSeated, CameOut};

use hk_base::Sink;
use hk_block::Looker;
use hk_loop::Seat;
use hk_monitor::Crewman;
use hk_outside::{Gate, Link};
use hk_station::Station;

// So many stations leave their seats, from number 0 on, each the last that is left at its worker.
fn unseat_stations<K: Link, S: Sink, G: Gate<Link = K>, V: Looker>(
    crew: &mut Vec<Crewman<K, S, G, V>>,
    count: u8,
    pairs: &mut Vec<(K, S)>,
    stations: &mut Vec<Station>,
    views: &mut Vec<V>,
)
    requires manned { 0 < length crew.old.items }
    requires seated { HasSeated count crew.old.items }
    requires no_pair { pairs.old.items ≡ [] }
    requires no_station { stations.old.items ≡ [] }
    requires no_view { views.old.items ≡ [] }
    requires pairs_room { count ≤ vec_capacity pairs.old }
    requires stations_room { count ≤ vec_capacity stations.old }
    requires views_room { count ≤ vec_capacity views.old }
    ensures out { CameOut count crew.old.items pairs.new.items stations.new.items views.new.items }
    ensures gates { gates_of crew.new.items ≡ gates_of crew.old.items }
{
    for number in 0..count {
        let place = number as usize % crew.len();
        let Some(
            Seat {
                link,
                log,
                station,
                view,
            },
        ) = crew[place].seats.pop()
        else {
            unreachable!()
        };
        pairs.push_reserved((link, log));
        stations.push_reserved(station);
        views.push_reserved(view);
    }
}

// Each worker leaves its gate, from number 0 on.
fn free_gates<K: Link + Drop, S: Sink + Drop, G: Gate<Link = K> + Drop, V: Looker + Drop>(
    crew: &mut Vec<Crewman<K, S, G, V>>,
    gates: &mut Vec<G>,
)
    requires no_gate { gates.old.items ≡ [] }
    requires room { length crew.old.items ≤ vec_capacity gates.old }
    ensures gates { gates.new.items ≡ gates_of crew.old.items }
    ensures none { crew.new.items ≡ [] }
{
    while let Some(worker) = crew.pop() {
        gates.push_reserved(worker.gate);
    }
    gates.reverse();
}

/// Takes so many stations out of their seats in the order of their numbers, and the gates from their workers. The lists that it
/// fills are empty and have room. It takes no memory, and no worker is left.
pub fn unseat_all<K: Link + Drop, S: Sink + Drop, G: Gate<Link = K> + Drop, V: Looker + Drop>(
    crew: &mut Vec<Crewman<K, S, G, V>>,
    count: u8,
    pairs: &mut Vec<(K, S)>,
    stations: &mut Vec<Station>,
    views: &mut Vec<V>,
    gates: &mut Vec<G>,
)
    requires manned { 0 < length crew.old.items }
    requires seated { HasSeated count crew.old.items }
    requires no_pair { pairs.old.items ≡ [] }
    requires no_station { stations.old.items ≡ [] }
    requires no_view { views.old.items ≡ [] }
    requires no_gate { gates.old.items ≡ [] }
    requires pairs_room { count ≤ vec_capacity pairs.old }
    requires stations_room { count ≤ vec_capacity stations.old }
    requires views_room { count ≤ vec_capacity views.old }
    requires gates_room { length crew.old.items ≤ vec_capacity gates.old }
    ensures out { CameOut count crew.old.items pairs.new.items stations.new.items views.new.items }
    ensures gates { gates.new.items ≡ gates_of crew.old.items }
    ensures none { crew.new.items ≡ [] }
{
    unseat_stations(crew, count, pairs, stations, views);
    free_gates(crew, gates);
}
