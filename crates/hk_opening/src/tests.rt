// Doors in memory that are opened: one that gives all, and one for each place at which it may refuse.
ghost use Rattle.std.specs.Prelude.{◌≡◌, IfOk, OnOk};
ghost use Rattle.std.specs.List.{All};
ghost use Rattle.hk_outside.specs.Places.{HasEmpty};
ghost use Rattle.hk_outside.specs.declared.door.Start.TheVariants as starts;

use crate::{Door, DoorFault, open, return_gates, return_stations};
use hk_base::{Got, MemorySink, MemorySource, Sink, Source};
use hk_outside::{Link, LinkGot, MemoryDoor, MemoryGate, MemoryLink, Plan};
use std::alloc::Global;
use std::test::Fail;

// A plan of three stations and two workers.
fn plan(alloc: Global) -> Result<Plan, Fail>
    ensures stations { IfOk result (λ plan. plan.stations ≡ 3) }
    ensures workers { IfOk result (λ plan. plan.workers ≡ 2) }
{
    Ok(Plan {
        stations: 3,
        workers: 2,
        flips: 4,
        hop: 64,
        songs: 10,
        positions: 1000,
        versions: 5,
        bytes: 50000,
        address: String::from_str(alloc, "127.0.0.1")?,
        station_port: 7701,
        operator_port: 7702,
        logs: String::from_str(alloc, "station")?,
    })
}

// Adds a station's link, with these bytes, and its empty log.
fn add(
    alloc: Global,
    stations: &mut Vec<(MemoryLink, MemorySink)>,
    bytes: &[u8],
) -> Result<(), Fail>
    requires { All HasEmpty stations.old.items }
    ensures { OnOk result (All HasEmpty stations.new.items) }
{
    let link = MemoryLink::new(
        Vec::from_slice(alloc, bytes)?,
        Vec::new(alloc),
        Vec::new(alloc),
        None,
    );
    stations.push((link, MemorySink::new(alloc, 8, Vec::new(alloc))?))?;
    Ok(())
}

// A door with all that the plan asks for. Its calls are counted from 0: the start, three stations, the operator, and two gates.
// Those with these numbers fail.
fn door(alloc: Global, failing: &[u64]) -> Result<MemoryDoor, Fail>
    ensures { IfOk result (λ door. door.start ≡ starts.Unstarted) }
{
    let mut stations = Vec::new(alloc);
    add(alloc, &mut stations, b"a")?;
    add(alloc, &mut stations, b"bc")?;
    add(alloc, &mut stations, b"def")?;
    let bytes = Vec::from_slice(alloc, b"add")?;
    let calls = MemorySource::new(bytes, Vec::new(alloc), Vec::new(alloc));
    let replies = MemorySink::new(alloc, 8, Vec::new(alloc))?;
    let mut gates = Vec::new(alloc);
    gates.push(MemoryGate::new(Vec::new(alloc)))?;
    gates.push(MemoryGate::new(Vec::new(alloc)))?;
    let failing = Vec::from_slice(alloc, failing)?;
    Ok(MemoryDoor::new(alloc, stations, calls, replies, gates, failing)?)
}

// The text of a log or of replies that were handed back, and "not back" where they weren't.
fn text(back: Option<&MemorySink>) -> &[u8] {
    match back {
        Some(sink) => sink.written(),
        None => b"not back",
    }
}

#[test]
fn each_link_is_in_the_place_of_its_number(rt: HostRuntime) -> Result<(), Fail> {
    let alloc = rt.alloc();
    let plan = plan(alloc)?;
    let mut door = door(alloc, &[])?;
    let mut stations = Vec::with_capacity(alloc, 3)?;
    let mut gates = Vec::with_capacity(alloc, 2)?;
    let (mut calls, _replies) = open(&mut door, &plan, &mut stations, &mut gates)?;
    assert_eq!(rt; stations.len(), 3);
    assert_eq!(rt; gates.len(), 2);
    let mut into = [0; 4];
    assert_eq!(rt; stations[2].0.read(&mut into), LinkGot::Bytes(3));
    assert_eq!(rt; into, *b"def\0");
    assert_eq!(rt; stations[1].0.read(&mut into), LinkGot::Bytes(2));
    assert_eq!(rt; into, *b"bcf\0");
    assert_eq!(rt; calls.read(&mut into), Got::Bytes(3));
    assert_eq!(rt; into, *b"add\0");
    Ok(())
}

#[test]
fn what_was_written_is_back_at_its_number(rt: HostRuntime) -> Result<(), Fail> {
    let alloc = rt.alloc();
    let plan = plan(alloc)?;
    let mut door = door(alloc, &[])?;
    let mut stations = Vec::with_capacity(alloc, 3)?;
    let mut gates = Vec::with_capacity(alloc, 2)?;
    let (calls, mut replies) = open(&mut door, &plan, &mut stations, &mut gates)?;
    stations[1].1.write(b"heard")?;
    replies.write(b"done")?;
    assert_eq!(rt; text(door.log(1)), b"not back".as_slice());
    assert_eq!(rt; text(door.replies()), b"not back".as_slice());
    return_gates(&mut door, &mut gates);
    return_stations(&mut door, &mut stations);
    door.return_operator(calls, replies);
    assert_eq!(rt; text(door.log(0)), b"".as_slice());
    assert_eq!(rt; text(door.log(1)), b"heard".as_slice());
    assert_eq!(rt; text(door.log(2)), b"".as_slice());
    assert_eq!(rt; text(door.replies()), b"done".as_slice());
    Ok(())
}

// A door whose call of this number fails, once it was opened, and why it refused.
fn opened(alloc: Global, failing: u64) -> Result<(MemoryDoor, Option<DoorFault>), Fail> {
    let plan = plan(alloc)?;
    let mut door = door(alloc, &[failing])?;
    let mut stations = Vec::with_capacity(alloc, 3)?;
    let mut gates = Vec::with_capacity(alloc, 2)?;
    let fault = open(&mut door, &plan, &mut stations, &mut gates).err();
    Ok((door, fault))
}

#[test]
fn nothing_is_handed_out_where_the_start_fails(rt: HostRuntime) -> Result<(), Fail> {
    let (door, fault) = opened(rt.alloc(), 0)?;
    assert_eq!(rt; fault, Some(DoorFault::Failed));
    for number in 0..3 {
        assert_eq!(rt; text(door.log(number)), b"not back".as_slice());
    }
    assert_eq!(rt; text(door.replies()), b"not back".as_slice());
    Ok(())
}

#[test]
fn station_0_is_back_with_an_empty_log_where_station_1_fails(rt: HostRuntime) -> Result<(), Fail> {
    let (door, fault) = opened(rt.alloc(), 2)?;
    assert_eq!(rt; fault, Some(DoorFault::Failed));
    assert_eq!(rt; text(door.log(0)), b"".as_slice());
    assert_eq!(rt; text(door.log(1)), b"not back".as_slice());
    assert_eq!(rt; text(door.log(2)), b"not back".as_slice());
    assert_eq!(rt; text(door.replies()), b"not back".as_slice());
    Ok(())
}

#[test]
fn all_stations_are_back_where_the_operator_fails(rt: HostRuntime) -> Result<(), Fail> {
    let (door, fault) = opened(rt.alloc(), 4)?;
    assert_eq!(rt; fault, Some(DoorFault::Failed));
    for number in 0..3 {
        assert_eq!(rt; text(door.log(number)), b"".as_slice());
    }
    assert_eq!(rt; text(door.replies()), b"not back".as_slice());
    Ok(())
}

#[test]
fn the_replies_are_back_and_empty_where_a_gate_fails(rt: HostRuntime) -> Result<(), Fail> {
    let (door, fault) = opened(rt.alloc(), 6)?;
    assert_eq!(rt; fault, Some(DoorFault::Failed));
    for number in 0..3 {
        assert_eq!(rt; text(door.log(number)), b"".as_slice());
    }
    assert_eq!(rt; text(door.replies()), b"".as_slice());
    Ok(())
}
