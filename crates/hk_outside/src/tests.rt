// What the objects in memory do where they are told to, each call with ample memory.
ghost use Rattle.std.specs.Prelude.{◌≡◌, ◌<◌, [], IfOk, IfSome, option_map, length};
ghost use Rattle.std.specs.List.{All};
ghost use Rattle.hk_outside.specs.Doors.{plan_of};
ghost use Rattle.hk_outside.specs.Places.{HasEmpty};
ghost use Rattle.hk_outside.specs.declared.door.Start.TheVariants as starts;

use crate::{Door, DoorFault, Gate, Link, LinkGot, MemoryDoor, MemoryGate, MemoryLink, Plan};
use hk_base::{Flag, Got, MemorySink, MemorySource, Sink, Source};
use std::alloc::Global;
use std::test::Fail;

// A link with these bytes, which are cut as given and fail where told to.
fn link(
    alloc: Global,
    bytes: &[u8],
    cuts: &[usize],
    failing: &[u64],
    hold: Option<Flag>,
) -> Result<MemoryLink, Fail> {
    Ok(MemoryLink::new(
        Vec::from_slice(alloc, bytes)?,
        Vec::from_slice(alloc, cuts)?,
        Vec::from_slice(alloc, failing)?,
        hold,
    ))
}

#[test]
fn a_link_fails_where_it_is_told(rt: HostRuntime) -> Result<(), Fail> {
    let mut link = link(rt.alloc(), b"abcde", &[2, 9], &[1], None)?;
    let mut into = [0; 8];
    assert_eq!(rt; link.read(&mut into), LinkGot::Bytes(2));
    assert_eq!(rt; into, *b"ab\0\0\0\0\0\0");
    assert_eq!(rt; link.read(&mut into), LinkGot::Failed);
    assert_eq!(rt; into, *b"ab\0\0\0\0\0\0");
    assert_eq!(rt; link.read(&mut into), LinkGot::Bytes(3));
    assert_eq!(rt; into, *b"cde\0\0\0\0\0");
    assert_eq!(rt; link.read(&mut into), LinkGot::End);
    Ok(())
}

#[test]
fn a_link_waits_for_a_text_in_a_sink(rt: HostRuntime) -> Result<(), Fail> {
    let flag = Flag::new(rt.alloc())?;
    let hold = flag.share()?;
    let mut link = link(rt.alloc(), b"abc", &[], &[], Some(hold))?;
    let text = Vec::from_slice(rt.alloc(), b"now")?;
    let mut sink = MemorySink::raising(rt.alloc(), 20, Vec::new(rt.alloc()), flag, text)?;
    let mut into = [0; 8];
    assert_eq!(rt; link.read(&mut into), LinkGot::NotYet);
    sink.write(b"not no")?;
    assert_eq!(rt; link.read(&mut into), LinkGot::NotYet);
    sink.write(b"w")?;
    assert_eq!(rt; link.read(&mut into), LinkGot::Bytes(3));
    Ok(())
}

#[test]
fn a_gate_names_the_seats_that_it_watches(rt: HostRuntime) -> Result<(), Fail> {
    let mut link = link(rt.alloc(), b"", &[], &[], None)?;
    let mut gate = MemoryGate::new(Vec::from_slice(rt.alloc(), &[1, 3])?);
    let mut ready = [false; 64];
    gate.watch(5, &mut link)?;
    assert!(rt; gate.watch(6, &mut link).is_err());
    ready[9] = true;
    gate.wait(&rt, &mut ready)?;
    for seat in 0..64 {
        assert_eq!(rt; ready[seat], seat == 5 || seat == 9);
    }
    assert!(rt; gate.wait(&rt, &mut ready).is_err());
    Ok(())
}

// The text of a log or of replies that were handed back, and "nothing" where they weren't.
fn text(back: Option<&MemorySink>) -> &[u8] {
    match back {
        Some(sink) => sink.written(),
        None => b"nothing",
    }
}

// A plan of two stations and two workers.
fn plan(alloc: Global) -> Result<Plan, Fail>
    ensures stations { IfOk result (λ plan. plan.stations ≡ 2) }
    ensures workers { IfOk result (λ plan. plan.workers ≡ 2) }
{
    Ok(Plan {
        stations: 2,
        workers: 2,
        flips: 4,
        hop: 64,
        songs: 10,
        positions: 1000,
        versions: 5,
        bytes: 50000,
        address: String::from_str(alloc, "127.0.0.1")?,
        station_port: 7000,
        operator_port: 7001,
        logs: String::from_str(alloc, "logs")?,
    })
}

// A door with the objects of one station, the operator's, and one gate, whose calls with these numbers fail.
fn door(alloc: Global, failing: &[u64]) -> Result<MemoryDoor, Fail>
    ensures { IfOk result (λ door. door.start ≡ starts.Unstarted) }
{
    let log = MemorySink::new(alloc, 8, Vec::new(alloc))?;
    let mut stations = Vec::new(alloc);
    stations.push((link(alloc, b"abc", &[], &[], None)?, log))?;
    let mut gates = Vec::new(alloc);
    gates.push(MemoryGate::new(Vec::new(alloc)))?;
    Ok(MemoryDoor::new(
        alloc,
        stations,
        MemorySource::new(
            Vec::from_slice(alloc, b"add")?,
            Vec::new(alloc),
            Vec::new(alloc),
        ),
        MemorySink::new(alloc, 8, Vec::new(alloc))?,
        gates,
        Vec::from_slice(alloc, failing)?,
    )?)
}

// The same, started.
fn started(alloc: Global, failing: &[u64]) -> Result<MemoryDoor, Fail>
    ensures start { IfOk result (λ door. door.start ≡ starts.Started) }
    ensures calls { IfOk result (λ door. door.asked.made.items ≡ []) }
    ensures stations { IfOk result (λ door. IfSome (option_map plan_of door.plan) (λ plan. plan.stations ≡ 2)) }
    ensures workers { IfOk result (λ door. IfSome (option_map plan_of door.plan) (λ plan. plan.workers ≡ 2)) }
{
    let mut door = door(alloc, failing)?;
    door.start(&plan(alloc)?)?;
    Ok(door)
}

#[test]
fn a_door_takes_back_a_stations_link_and_log(rt: HostRuntime) -> Result<(), Fail> {
    let mut door = started(rt.alloc(), &[])?;
    assert_eq!(rt; text(door.log(0)), b"nothing".as_slice());
    let (mut link, mut log) = door.station(0)?;
    let mut into = [0; 4];
    assert_eq!(rt; link.read(&mut into), LinkGot::Bytes(3));
    assert_eq!(rt; into, *b"abc\0");
    log.write(b"heard")?;
    assert_eq!(rt; text(door.log(0)), b"nothing".as_slice());
    door.return_station(0, link, log);
    assert_eq!(rt; text(door.log(0)), b"heard".as_slice());
    Ok(())
}

#[test]
fn a_door_takes_back_the_operators_calls_and_replies(rt: HostRuntime) -> Result<(), Fail> {
    let mut door = started(rt.alloc(), &[])?;
    assert_eq!(rt; text(door.replies()), b"nothing".as_slice());
    let (mut calls, mut replies) = door.operator()?;
    let mut into = [0; 4];
    assert_eq!(rt; calls.read(&mut into), Got::Bytes(3));
    assert_eq!(rt; into, *b"add\0");
    replies.write(b"done")?;
    assert_eq!(rt; text(door.replies()), b"nothing".as_slice());
    door.return_operator(calls, replies);
    assert_eq!(rt; text(door.replies()), b"done".as_slice());
    Ok(())
}

#[test]
fn a_door_has_no_station_that_it_was_not_given(rt: HostRuntime) -> Result<(), Fail> {
    let mut door = started(rt.alloc(), &[])?;
    assert_eq!(rt; door.station(1).err(), Some(DoorFault::Failed));
    Ok(())
}

#[test]
fn a_door_hands_out_each_gate_once(rt: HostRuntime) -> Result<(), Fail> {
    let mut door = started(rt.alloc(), &[])?;
    let gate = door.gate()?;
    door.return_gate(0, gate);
    assert_eq!(rt; door.gate().err(), Some(DoorFault::Failed));
    Ok(())
}

#[test]
fn a_door_does_not_start_where_it_is_told_to_fail(rt: HostRuntime) -> Result<(), Fail> {
    let plan = plan(rt.alloc())?;
    let mut door = door(rt.alloc(), &[0])?;
    assert_eq!(rt; door.start(&plan), Err(DoorFault::Failed));
    Ok(())
}

#[test]
fn a_door_fails_where_it_is_told(rt: HostRuntime) -> Result<(), Fail> {
    let mut door = started(rt.alloc(), &[2, 3])?;
    let (_calls, _replies) = door.operator()?;
    assert_eq!(rt; door.station(0).err(), Some(DoorFault::Failed));
    assert_eq!(rt; door.gate().err(), Some(DoorFault::Failed));
    assert!(rt; door.gate().is_ok());
    Ok(())
}
