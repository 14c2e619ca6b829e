// All that a run needs of memory, taken before its door is opened.
ghost use Rattle.std.specs.Prelude.{◌≡◌, ◌≤◌, [], length, vec_len, vec_capacity, IfOk};
ghost use Rattle.std.specs.List.{All};
ghost use Rattle.hk_setup.specs.Plans.{PlanFits};
ghost use Rattle.hk_monitor_top.specs.Ready.{rules_by, AreNumbered, IsBench, IsReady};

use hk_base::{NoMemory, Sink};
use hk_block::{Looker, Scratch};
use hk_monitor::Crewman;
use hk_operator::Operator;
use hk_outside::{Gate, Link, Plan};
use hk_publish::{Desk, Reading, start};
use hk_seating::Bench;
use hk_station::Station;
use hk_summary::StationEnd;
use std::alloc::Global;
use std::sync::Wait;

/// What stands in rows: links with their logs, gates, benches, and the crew that they become; stations and readings by their
/// numbers, and what is told of their ends.
#[derive(Drop)]
pub struct Rows<K: Link, S: Sink, G: Gate<Link = K>, V: Looker> {
    pub pairs: Vec<(K, S)>,
    pub gates: Vec<G>,
    pub benches: Vec<Bench<K, S, V>>,
    pub crew: Vec<Crewman<K, S, G, V>>,
    pub stations: Vec<Station>,
    pub readings: Vec<V>,
    pub ends: Vec<StationEnd>,
}

/// What is ready for a run. Who holds it closes the desk.
pub struct Ready<K: Link, S: Sink, G: Gate<Link = K>, V: Looker> {
    pub rows: Rows<K, S, G, V>,
    pub operator: Operator,
    pub desk: Desk,
}

// The stations of a plan, each with its number, before their first byte.
fn new_stations(alloc: Global, plan: &Plan) -> Result<Vec<Station>, NoMemory>
    requires fits { PlanFits plan.now }
    ensures count { IfOk result (λ stations. vec_len stations ≡ plan.now.stations) }
    ensures numbered { IfOk result (λ stations. AreNumbered (rules_by plan.now) stations.items) }
{
    let Ok(mut stations) = Vec::with_capacity(alloc, plan.stations as usize) else {
        return Err(NoMemory);
    };
    for number in 0..plan.stations {
        stations.push_reserved(Station::new(alloc, number, plan.flips, plan.hop, plan.bytes)?);
    }
    Ok(stations)
}

// An empty bench with room for all stations of a plan.
fn new_bench<K: Link + Drop, S: Sink + Drop, V: Looker + Drop>(
    alloc: Global,
    plan: &Plan,
) -> Result<Bench<K, S, V>, NoMemory>
    ensures { IfOk result (IsBench plan.now.stations plan.now.positions) }
{
    match Vec::with_capacity(alloc, plan.stations as usize) {
        Ok(seats) => Ok(Bench {
            seats,
            scratch: Scratch::new(alloc, plan.positions)?,
        }),
        Err(_) => Err(NoMemory),
    }
}

// A bench for each worker of a plan.
fn new_benches<K: Link + Drop, S: Sink + Drop, V: Looker + Drop>(
    alloc: Global,
    plan: &Plan,
) -> Result<Vec<Bench<K, S, V>>, NoMemory>
    ensures count { IfOk result (λ benches. vec_len benches ≡ plan.now.workers) }
    ensures empty { IfOk result (λ benches. All (IsBench plan.now.stations plan.now.positions) benches.items) }
{
    let Ok(mut benches) = Vec::with_capacity(alloc, plan.workers as usize) else {
        return Err(NoMemory);
    };
    for worker in 0..plan.workers {
        let _ = worker;
        benches.push_reserved(new_bench::<K, S, V>(alloc, plan)?);
    }
    Ok(benches)
}

// Room for so many.
fn room_for<T>(alloc: Global, count: u8) -> Result<Vec<T>, NoMemory>
    ensures empty { IfOk result (λ items. items.items ≡ []) }
    ensures room { IfOk result (λ items. count ≤ vec_capacity items) }
{
    match Vec::with_capacity(alloc, count as usize) {
        Ok(items) => Ok(items),
        Err(_) => Err(NoMemory),
    }
}

/// Takes all memory that a run of this plan needs.
pub fn prepare<K, S, G, R>(
    rt: &R,
    alloc: Global,
    plan: &Plan,
) -> Result<Ready<K, S, G, Reading<R>>, NoMemory>
where
    K: Link + Drop,
    S: Sink + Drop,
    G: Gate<Link = K> + Drop,
    R: Wait + Clone + Send + Drop,
    requires fits { PlanFits plan.now }
    ensures { IfOk result (IsReady plan.now) }
{
    let pairs = room_for(alloc, plan.stations)?;
    let gates = room_for(alloc, plan.workers)?;
    let benches = new_benches::<K, S, Reading<R>>(alloc, plan)?;
    let crew = room_for(alloc, plan.workers)?;
    let stations = new_stations(alloc, plan)?;
    let ends = room_for(alloc, plan.stations)?;
    let operator = Operator::new(alloc, plan.bytes, plan.positions)?;
    let (desk, readings) = start(
        rt,
        alloc,
        plan.songs,
        plan.positions,
        plan.versions,
        plan.stations,
    )?;
    let rows = Rows {
        pairs,
        gates,
        benches,
        crew,
        stations,
        readings,
        ends,
    };
    Ok(Ready {
        rows,
        operator,
        desk,
    })
}
