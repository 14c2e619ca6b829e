// A few stations by hand. The link, the log, the station and the view of number n all tell n, and the gate of worker w fails its
// watch number w.
ghost use Rattle.std.specs.Prelude.{◌≡◌, ◌≤◌, ◌<◌, [], All, IfOk, length, vec_capacity};
ghost use Rattle.hk_seating.specs.Seating.{HasSeated};

use crate::{Bench, seat_all, unseat_all};
use hk_base::{MemorySink, Print, Sink};
use hk_block::{Looker, NoSongs, Scratch};
use hk_monitor::Crewman;
use hk_outside::{Gate, Link, LinkGot, MemoryGate, MemoryLink};
use hk_station::Station;
use std::alloc::Global;
use std::test::Fail;

type TestBench = Bench<MemoryLink, MemorySink, NoSongs>;

type TestWorker = Crewman<MemoryLink, MemorySink, MemoryGate, NoSongs>;

// The gates of so many workers.
fn gates(alloc: Global, workers: u8) -> Result<Vec<MemoryGate>, Fail>
    ensures count { IfOk result (λ gates. length gates.items ≡ workers) }
    ensures room { IfOk result (λ gates. workers ≤ vec_capacity gates) }
{
    let mut gates = Vec::with_capacity(alloc, workers as usize)?;
    for number in 0..workers {
        gates.push(MemoryGate::new(Vec::from_slice(alloc, &[number as u64])?))?;
    }
    Ok(gates)
}

// The benches of so many workers, each with room for all stations.
fn benches(alloc: Global, workers: u8, stations: u8) -> Result<Vec<TestBench>, Fail>
    ensures count { IfOk result (λ benches. length benches.items ≡ workers) }
    ensures empty { IfOk result (λ benches. All (λ bench. bench.seats.items ≡ []) benches.items) }
    ensures room { IfOk result (λ benches. All (λ bench. stations ≤ vec_capacity bench.seats) benches.items) }
{
    let mut benches = Vec::new(alloc);
    for number in 0..workers {
        let _ = number;
        let seats = Vec::with_capacity(alloc, stations as usize)?;
        let scratch = Scratch::new(alloc, 0)?;
        benches.push(Bench { seats, scratch })?;
    }
    Ok(benches)
}

// A link that gives this byte twice, and a log that has it.
fn pair(alloc: Global, number: u8) -> Result<(MemoryLink, MemorySink), Fail> {
    let bytes = Vec::from_slice(alloc, &[number, number])?;
    let mut log = MemorySink::new(alloc, 1, Vec::new(alloc))?;
    log.write(&[number])?;
    Ok((
        MemoryLink::new(bytes, Vec::new(alloc), Vec::new(alloc), None),
        log,
    ))
}

// The links and logs of so many stations.
fn pairs(alloc: Global, stations: u8) -> Result<Vec<(MemoryLink, MemorySink)>, Fail>
    ensures count { IfOk result (λ pairs. length pairs.items ≡ stations) }
    ensures room { IfOk result (λ pairs. stations ≤ vec_capacity pairs) }
{
    let mut pairs = Vec::with_capacity(alloc, stations as usize)?;
    for number in 0..stations {
        pairs.push(pair(alloc, number)?)?;
    }
    Ok(pairs)
}

// So many stations.
fn machines(alloc: Global, stations: u8) -> Result<Vec<Station>, Fail>
    ensures count { IfOk result (λ machines. length machines.items ≡ stations) }
    ensures room { IfOk result (λ machines. stations ≤ vec_capacity machines) }
{
    let mut machines = Vec::with_capacity(alloc, stations as usize)?;
    for number in 0..stations {
        machines.push(Station::new(alloc, number, 4, 64, 50000)?)?;
    }
    Ok(machines)
}

// The views of so many stations.
fn views(alloc: Global, stations: u8) -> Result<Vec<NoSongs>, Fail>
    ensures count { IfOk result (λ views. length views.items ≡ stations) }
    ensures room { IfOk result (λ views. stations ≤ vec_capacity views) }
{
    let mut views = Vec::with_capacity(alloc, stations as usize)?;
    for number in 0..stations {
        views.push(NoSongs {
            version: number as u32,
            block: [Print { word: 0, mask: 0 }; 256],
        })?;
    }
    Ok(views)
}

// A crew, and what it is made of and gives back.
#[derive(Drop)]
struct Hall {
    crew: Vec<TestWorker>,
    gates: Vec<MemoryGate>,
    pairs: Vec<(MemoryLink, MemorySink)>,
    stations: Vec<Station>,
    views: Vec<NoSongs>,
}

// So many stations in their seats at so many workers.
fn seated(alloc: Global, workers: u8, count: u8) -> Result<Hall, Fail>
    requires { 0 < workers }
    ensures workers { IfOk result (λ hall. length hall.crew.items ≡ workers) }
    ensures seated { IfOk result (λ hall. HasSeated count hall.crew.items) }
    ensures no_gate { IfOk result (λ hall. hall.gates.items ≡ []) }
    ensures no_pair { IfOk result (λ hall. hall.pairs.items ≡ []) }
    ensures no_station { IfOk result (λ hall. hall.stations.items ≡ []) }
    ensures no_view { IfOk result (λ hall. hall.views.items ≡ []) }
    ensures gates_room { IfOk result (λ hall. workers ≤ vec_capacity hall.gates) }
    ensures pairs_room { IfOk result (λ hall. count ≤ vec_capacity hall.pairs) }
    ensures stations_room { IfOk result (λ hall. count ≤ vec_capacity hall.stations) }
    ensures views_room { IfOk result (λ hall. count ≤ vec_capacity hall.views) }
{
    let mut crew = Vec::with_capacity(alloc, workers as usize)?;
    let mut gates = gates(alloc, workers)?;
    let mut benches = benches(alloc, workers, count)?;
    let mut pairs = pairs(alloc, count)?;
    let mut stations = machines(alloc, count)?;
    let mut views = views(alloc, count)?;
    seat_all(
        &mut crew,
        &mut gates,
        &mut benches,
        &mut pairs,
        &mut stations,
        &mut views,
    );
    Ok(Hall {
        crew,
        gates,
        pairs,
        stations,
        views,
    })
}

// The next byte of a link.
fn next_byte(link: &mut MemoryLink) -> Option<u8> {
    let mut byte = [0];
    match link.read(&mut byte) {
        LinkGot::Bytes(_) => Some(byte[0]),
        _ => None,
    }
}

// What the link, the log, the station and the view of a seat tell.
fn told(crew: &mut Vec<TestWorker>, w: usize, k: usize) -> Option<(u8, u8, u8, u32)> {
    let seat = crew.get_mut(w)?.seats.get_mut(k)?;
    Some((
        next_byte(&mut seat.link)?,
        *seat.log.written().first()?,
        seat.station.number(),
        seat.view.now(),
    ))
}

// Which watch of a gate fails.
fn failing_watch(gate: &mut MemoryGate, link: &mut MemoryLink) -> Option<u8> {
    for number in 0..8 {
        if gate.watch(number, link).is_err() {
            return Some(number);
        }
    }
    None
}

// A link that has nothing.
fn no_link(alloc: Global) -> MemoryLink {
    MemoryLink::new(Vec::new(alloc), Vec::new(alloc), Vec::new(alloc), None)
}

// How many seats a worker has.
fn seats_at(crew: &[TestWorker], w: usize) -> Option<usize> {
    Some(crew.get(w)?.seats.len())
}

#[test]
fn of_three_stations_0_and_2_sit_at_the_first_of_two_workers(rt: HostRuntime) -> Result<(), Fail> {
    let mut hall = seated(rt.alloc(), 2, 3)?;
    assert_eq!(rt; seats_at(&hall.crew, 0), Some(2));
    assert_eq!(rt; seats_at(&hall.crew, 1), Some(1));
    assert_eq!(rt; told(&mut hall.crew, 0, 0), Some((2, 2, 2, 2)));
    assert_eq!(rt; told(&mut hall.crew, 0, 1), Some((0, 0, 0, 0)));
    assert_eq!(rt; told(&mut hall.crew, 1, 0), Some((1, 1, 1, 1)));
    let mut link = no_link(rt.alloc());
    for w in 0..2u8 {
        let Some(worker) = hall.crew.get_mut(w as usize) else {
            panic!(rt; "no worker");
        };
        assert_eq!(rt; failing_watch(&mut worker.gate, &mut link), Some(w));
    }
    Ok(())
}

#[test]
fn stations_and_gates_come_back_in_order(rt: HostRuntime) -> Result<(), Fail> {
    for (more_workers, count) in [(0u8, 3u8), (1, 3), (1, 4), (2, 1)] {
        let workers = 1 + more_workers % 4;
        let mut hall = seated(rt.alloc(), workers, count)?;
        unseat_all(
            &mut hall.crew,
            count,
            &mut hall.pairs,
            &mut hall.stations,
            &mut hall.views,
            &mut hall.gates,
        );
        assert!(rt; hall.crew.is_empty());
        assert_eq!(rt; hall.stations.len(), count as usize);
        for (n, station) in hall.stations.iter().enumerate() {
            assert_eq!(rt; station.number() as usize, n);
        }
        for (n, view) in hall.views.iter_mut().enumerate() {
            assert_eq!(rt; view.now() as usize, n);
        }
        for (n, pair) in hall.pairs.iter_mut().enumerate() {
            assert_eq!(rt; next_byte(&mut pair.0), Some(n as u8));
            assert_eq!(rt; pair.1.written(), [n as u8].as_slice());
        }
        let mut link = no_link(rt.alloc());
        assert_eq!(rt; hall.gates.len(), workers as usize);
        for (w, gate) in hall.gates.iter_mut().enumerate() {
            assert_eq!(rt; failing_watch(gate, &mut link), Some(w as u8));
        }
    }
    Ok(())
}

#[test]
fn a_worker_past_the_last_station_has_no_seat_taken(rt: HostRuntime) -> Result<(), Fail> {
    let mut hall = seated(rt.alloc(), 3, 1)?;
    assert_eq!(rt; hall.crew.len(), 3);
    assert_eq!(rt; told(&mut hall.crew, 0, 0), Some((0, 0, 0, 0)));
    assert_eq!(rt; seats_at(&hall.crew, 0), Some(1));
    assert_eq!(rt; seats_at(&hall.crew, 1), Some(0));
    assert_eq!(rt; seats_at(&hall.crew, 2), Some(0));
    Ok(())
}
