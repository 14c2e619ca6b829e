// Stations take their seats.
ghost use Rattle.std.specs.Prelude.{◌≡◌, ◌<◌, ◌≤◌, [], map, length, replicate, vec_capacity, All};
ghost use Rattle.hk_seating.specs.Seating.{seats_of, gates_of, rows_of, AreSeated};

use crate::Bench;
use hk_base::Sink;
use hk_block::Looker;
use hk_loop::Seat;
use hk_monitor::Crewman;
use hk_outside::{Gate, Link};
use hk_station::Station;

// Each gate goes with the bench of its number.
fn man_gates<K: Link, S: Sink, G: Gate<Link = K>, V: Looker>(
    crew: &mut Vec<Crewman<K, S, G, V>>,
    gates: &mut Vec<G>,
    benches: &mut Vec<Bench<K, S, V>>,
)
    requires none { crew.old.items ≡ [] }
    requires room { length gates.old.items ≤ vec_capacity crew.old }
    requires as_many { length benches.old.items ≡ length gates.old.items }
    ensures gates { gates_of crew.new.items ≡ gates.old.items }
    ensures seats { map (λ worker. worker.seats) crew.new.items ≡ map (λ bench. bench.seats) benches.old.items }
    ensures scratches { map (λ worker. worker.scratch) crew.new.items ≡ map (λ bench. bench.scratch) benches.old.items }
    ensures no_gate { gates.new.items ≡ [] }
    ensures no_bench { benches.new.items ≡ [] }
    ensures gates_room { vec_capacity gates.new ≡ vec_capacity gates.old }
{
    while let Some(gate) = gates.pop() {
        let Some(bench) = benches.pop() else {
            unreachable!()
        };
        crew.push_reserved(Crewman {
            seats: bench.seats,
            gate,
            scratch: bench.scratch,
        });
    }
    crew.reverse();
}

// Station n takes the next seat of worker n mod so many, from the greatest number down to 0.
fn seat_stations<K: Link, S: Sink, G: Gate<Link = K>, V: Looker>(
    crew: &mut Vec<Crewman<K, S, G, V>>,
    pairs: &mut Vec<(K, S)>,
    stations: &mut Vec<Station>,
    views: &mut Vec<V>,
)
    requires manned { 0 < length crew.old.items }
    requires empty { rows_of crew.old.items ≡ replicate (length crew.old.items) [] }
    requires room { All (λ worker. length pairs.old.items ≤ vec_capacity worker.seats) crew.old.items }
    requires stations { length stations.old.items ≡ length pairs.old.items }
    requires views { length views.old.items ≡ length pairs.old.items }
    ensures seated { AreSeated (seats_of pairs.old.items stations.old.items views.old.items) crew.new.items }
    ensures gates { gates_of crew.new.items ≡ gates_of crew.old.items }
    ensures scratches { map (λ worker. worker.scratch) crew.new.items ≡ map (λ worker. worker.scratch) crew.old.items }
    ensures no_pair { pairs.new.items ≡ [] }
    ensures no_station { stations.new.items ≡ [] }
    ensures no_view { views.new.items ≡ [] }
    ensures pairs_room { vec_capacity pairs.new ≡ vec_capacity pairs.old }
    ensures stations_room { vec_capacity stations.new ≡ vec_capacity stations.old }
    ensures views_room { vec_capacity views.new ≡ vec_capacity views.old }
{
    while let Some((link, log)) = pairs.pop() {
        let Some(station) = stations.pop() else {
            unreachable!()
        };
        let Some(view) = views.pop() else {
            unreachable!()
        };
        let place = pairs.len() % crew.len();
        crew[place].seats.push_reserved(Seat {
            link,
            log,
            station,
            view,
        });
    }
}

/// Mans each gate with the bench of its number, and seats the stations: station n at worker n mod so many. There is a gate, as
/// many benches as gates, and as many stations and views as links with their logs; each bench has room for all stations. It takes
/// no memory, and what it emptied keeps its room.
pub fn seat_all<K: Link, S: Sink, G: Gate<Link = K>, V: Looker>(
    crew: &mut Vec<Crewman<K, S, G, V>>,
    gates: &mut Vec<G>,
    benches: &mut Vec<Bench<K, S, V>>,
    pairs: &mut Vec<(K, S)>,
    stations: &mut Vec<Station>,
    views: &mut Vec<V>,
)
    requires none { crew.old.items ≡ [] }
    requires crew_room { length gates.old.items ≤ vec_capacity crew.old }
    requires manned { 0 < length gates.old.items }
    requires benches { length benches.old.items ≡ length gates.old.items }
    requires empty { All (λ bench. bench.seats.items ≡ []) benches.old.items }
    requires seats_room { All (λ bench. length pairs.old.items ≤ vec_capacity bench.seats) benches.old.items }
    requires stations { length stations.old.items ≡ length pairs.old.items }
    requires views { length views.old.items ≡ length pairs.old.items }
    ensures gates { gates_of crew.new.items ≡ gates.old.items }
    ensures seated { AreSeated (seats_of pairs.old.items stations.old.items views.old.items) crew.new.items }
    ensures scratches { map (λ worker. worker.scratch) crew.new.items ≡ map (λ bench. bench.scratch) benches.old.items }
    ensures no_gate { gates.new.items ≡ [] }
    ensures no_bench { benches.new.items ≡ [] }
    ensures no_pair { pairs.new.items ≡ [] }
    ensures no_station { stations.new.items ≡ [] }
    ensures no_view { views.new.items ≡ [] }
    ensures gates_room { vec_capacity gates.new ≡ vec_capacity gates.old }
    ensures pairs_room { vec_capacity pairs.new ≡ vec_capacity pairs.old }
    ensures stations_room { vec_capacity stations.new ≡ vec_capacity stations.old }
    ensures views_room { vec_capacity views.new ≡ vec_capacity views.old }
{
    man_gates(crew, gates, benches);
    seat_stations(crew, pairs, stations, views);
}
