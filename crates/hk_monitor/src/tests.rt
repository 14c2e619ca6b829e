// Runs over memory with real threads, of the streams of the worked example: one recording, one publish, and 256 prints that it
// has. Which version a look finds is free, but no run ends where the workers don't run beside each other and the clerk.
ghost use Rattle.std.specs.Prelude.{◌≡◌, ◌≤◌, None, All, OnOk, IfOk, length};
ghost use Rattle.hk_station.specs.Hearing.{kept_end};
ghost use Rattle.hk_publish.specs.Known.{new_known};
ghost use Rattle.hk_publish.specs.Holding.{new_holding};
ghost use Rattle.hk_monitor.specs.Crew.{MayBegin};

use crate::{Clerk, Crewman, Mismatch, Worker, run_monitor};
use hk_base::{End, Failed, Flag, MemorySink, MemorySource, OpEnd, Sink};
use hk_block::Scratch;
use hk_clerk::Office;
use hk_loop::Seat;
use hk_operator::Operator;
use hk_outside::{Door, Gate, Link, MemoryDoor, MemoryGate, MemoryLink};
use hk_publish::{Desk, Reading, start};
use hk_station::Station;
use std::alloc::Global;
use std::sync::Wait;
use std::test::Fail;
use std::thread::Threads;

// Words 0 to 255 as bytes, each with so many zeros behind it.
fn words(bytes: &mut Vec<u8>, zeros: usize) -> Result<(), Fail> {
    for n in 0..=255u8 {
        bytes.extend_from_slice(&[0, 0, 0, n])?;
        for _ in 0..zeros {
            bytes.push(0)?;
        }
    }
    Ok(())
}

// 256 prints.
fn station_stream(alloc: Global) -> Result<Vec<u8>, Fail> {
    let mut bytes = Vec::from_slice(alloc, b"HKS1\x00\x01\x01\x08\x00")?;
    words(&mut bytes, 4)?;
    Ok(bytes)
}

// Song 7 of their words, and a publish.
fn operator_stream(alloc: Global) -> Result<Vec<u8>, Fail> {
    let mut bytes = Vec::from_slice(alloc, b"HKO1\x01\x00\x00\x04\x04\x00\x00\x00\x07")?;
    words(&mut bytes, 0)?;
    bytes.extend_from_slice(b"\x06\x00\x00\x00\x00")?;
    Ok(bytes)
}

// What a station is given: its number, its link and its log, and the gate of its worker.
#[derive(Drop)]
struct Post<K: Link, S: Sink, G: Gate<Link = K>> {
    number: u8,
    link: K,
    log: S,
    gate: G,
}

// A worker with this one station.
fn worker<K: Link + Drop, S: Sink + Drop, G: Gate<Link = K> + Drop, R: Wait + Drop>(
    alloc: Global,
    desk: &Desk,
    post: Post<K, S, G>,
    view: Reading<R>,
) -> Result<Crewman<K, S, G, Reading<R>>, Fail>
    requires view { view ≡ new_known desk.now.home desk.now.limits }
    requires few { desk.now.limits.positions ≤ 256 }
    ensures few { IfOk result (λ w. length w.seats.items ≤ 64) }
    ensures going { IfOk result (λ w. All (λ seat. kept_end seat.station ≡ None) w.seats.items) }
    ensures readings { IfOk result (λ w. All (λ seat. seat.view ≡ new_known desk.now.home desk.now.limits) w.seats.items) }
    ensures room { IfOk result (λ w. desk.now.limits.positions ≤ w.scratch.room) }
{
    let station = Station::new(alloc, post.number, 4, 64, 50000)?;
    if station.end().is_some() {
        return Err(Fail::from(Failed));
    }
    let mut seats = Vec::new(alloc);
    seats.push(Seat {
        link: post.link,
        log: post.log,
        station,
        view,
    })?;
    Ok(Crewman {
        seats,
        gate: post.gate,
        scratch: Scratch::new(alloc, 256)?,
    })
}

// Adds a worker who may begin.
fn add<K: Link + Drop, S: Sink + Drop, G: Gate<Link = K> + Drop, R: Wait + Drop>(
    crew: &mut Vec<Crewman<K, S, G, Reading<R>>>,
    desk: &Desk,
    worker: Crewman<K, S, G, Reading<R>>,
) -> Result<(), Fail>
    requires crew { All (MayBegin desk.now) crew.old.items }
    requires worker { MayBegin desk.now worker }
    ensures { OnOk result (All (MayBegin desk.now) crew.new.items) }
{
    crew.push(worker)?;
    Ok(())
}

// The last of new readings.
fn next<R: Wait + Drop>(readings: &mut Vec<Reading<R>>, desk: &Desk) -> Result<Reading<R>, Fail>
    requires { All (λ r. r ≡ new_known desk.now.home desk.now.limits) readings.old.items }
    ensures new { IfOk result (λ r. r ≡ new_known desk.now.home desk.now.limits) }
    ensures others { All (λ r. r ≡ new_known desk.now.home desk.now.limits) readings.new.items }
{
    match readings.pop() {
        Some(reading) => Ok(reading),
        None => Err(Fail::from(Failed)),
    }
}

// What a run left, and what it answered.
#[derive(Drop)]
struct Finished<D: Door, R: Wait + Drop> {
    crew: Vec<Worker<D, R>>,
    clerk: Clerk<D>,
    answer: Result<(), Mismatch>,
}

// Runs two workers with a station each, and the clerk.
fn run_two<D: Door, R: Threads + Wait + Clone + Send + Sync + Drop>(
    rt: &R,
    alloc: Global,
    desk: &mut Desk,
    readings: Vec<Reading<R>>,
    one: Post<D::Link, D::Log, D::Gate>,
    other: Post<D::Link, D::Log, D::Gate>,
    clerk: Clerk<D>,
) -> Result<Finished<D, R>, Fail>
    requires desk { desk.old ≡ new_holding desk.old.home desk.old.limits }
    requires few { desk.old.limits.positions ≤ 256 }
    requires readings { All (λ r. r ≡ new_known desk.old.home desk.old.limits) readings.items }
{
    let mut readings = readings;
    let mut clerk = clerk;
    let mut crew = Vec::new(alloc);
    let view = next(&mut readings, desk)?;
    let first = worker(alloc, desk, one, view)?;
    add(&mut crew, desk, first)?;
    let view = next(&mut readings, desk)?;
    let second = worker(alloc, desk, other, view)?;
    add(&mut crew, desk, second)?;
    let answer = run_monitor::<D, R>(rt, &mut crew, desk, &mut clerk);
    Ok(Finished {
        crew,
        clerk,
        answer,
    })
}

// A link that gives 256 prints, once the flag of `hold` is raised.
fn link(alloc: Global, hold: Option<Flag>) -> Result<MemoryLink, Fail> {
    Ok(MemoryLink::new(
        station_stream(alloc)?,
        Vec::new(alloc),
        Vec::new(alloc),
        hold,
    ))
}

// What raises a flag once it has this text.
fn raising(alloc: Global, flag: &Flag, text: &[u8]) -> Result<MemorySink, Fail> {
    let text = Vec::from_slice(alloc, text)?;
    Ok(MemorySink::raising(alloc, 100, Vec::new(alloc), flag.share()?, text)?)
}

// A clerk who reads these calls.
fn office(
    alloc: Global,
    calls: Vec<u8>,
    replies: MemorySink,
) -> Result<Office<MemorySource, MemorySink>, Fail> {
    Ok(Office {
        operator: Operator::new(alloc, 50000, 256)?,
        calls: MemorySource::new(calls, Vec::new(alloc), Vec::new(alloc)),
        replies,
        end: None,
    })
}

type MemoryPost<G> = Post<MemoryLink, MemorySink, G>;

// The late station's link is held until this flag is raised, and its log raises the other.
fn late_post(
    alloc: Global,
    number: u8,
    hold: &Flag,
    raise: &Flag,
) -> Result<MemoryPost<MemoryGate>, Fail> {
    Ok(Post {
        number,
        link: link(alloc, Some(hold.share()?))?,
        log: raising(alloc, raise, b"S")?,
        gate: MemoryGate::new(Vec::new(alloc)),
    })
}

// The early station's link is held until this flag is raised.
fn early_post(alloc: Global, number: u8, hold: &Flag) -> Result<MemoryPost<MemoryGate>, Fail> {
    Ok(Post {
        number,
        link: link(alloc, Some(hold.share()?))?,
        log: MemorySink::new(alloc, 100, Vec::new(alloc))?,
        gate: MemoryGate::new(Vec::new(alloc)),
    })
}

// The end of the first station of a worker, and the text of its log.
fn station<G: Gate<Link = MemoryLink>, R: Wait + Drop>(
    crew: &[Crewman<MemoryLink, MemorySink, G, Reading<R>>],
    place: usize,
) -> Option<(End, &[u8])> {
    let seat = crew.get(place)?.seats.as_slice().get(0)?;
    Some((seat.station.end()?, seat.log.written()))
}

// Whether a station ended in order, with one line that is either of these.
fn has_line(station: Option<(End, &[u8])>, lines: [&[u8]; 2]) -> bool {
    match station {
        Some((End::Ended, text)) => text == lines[0] || text == lines[1],
        _ => false,
    }
}

const REPLIES: &[u8] = b"O 1 ok\nO 2 published 1\n";

// A line of station 0 and one of station 1, before the publish and after it.
const LINES_0: [&[u8]; 2] = [
    b"S 0 B 0 G 0 W 0 V 0: none\n",
    b"S 0 B 0 G 0 W 0 V 1: 7@0~0\n",
];

const LINES_1: [&[u8]; 2] = [
    b"S 1 B 0 G 0 W 0 V 0: none\n",
    b"S 1 B 0 G 0 W 0 V 1: 7@0~0\n",
];

#[test]
fn each_station_waits_for_the_line_of_the_other_that_waits_for_the_publish(
    rt: HostRuntime,
) -> Result<(), Fail> {
    for (late, early, late_lines, early_lines) in [
        (1, 0, LINES_1, LINES_0),
        (0, 1, LINES_0, LINES_1),
    ] {
        let published = Flag::new(rt.alloc())?;
        let written = Flag::new(rt.alloc())?;
        let late = late_post(rt.alloc(), late, &published, &written)?;
        let early = early_post(rt.alloc(), early, &written)?;
        let replies = raising(rt.alloc(), &published, b"published 1")?;
        let clerk = office(rt.alloc(), operator_stream(rt.alloc())?, replies)?;
        let Ok((mut desk, readings)) = start(&&rt, rt.alloc(), 2, 256, 2, 2) else {
            panic!(rt; "no memory");
        };
        let finished = run_two::<MemoryDoor, &HostRuntime>(
            &&rt,
            rt.alloc(),
            &mut desk,
            readings,
            late,
            early,
            clerk,
        );
        desk.close(&&rt);
        let finished = finished?;
        assert_eq!(rt; finished.answer, Ok(()));
        assert!(rt; has_line(station(&finished.crew, 0), late_lines));
        assert!(rt; has_line(station(&finished.crew, 1), early_lines));
        assert_eq!(rt; finished.clerk.end, Some(OpEnd::Ended));
        assert_eq!(rt; finished.clerk.replies.written(), REPLIES);
    }
    Ok(())
}
