ghost use Rattle.std.specs.Prelude.{◌≡◌, IfOk};

use crate::interrupted::{read_on, write_on};
use crate::{NetDoor, NetGate, NetLink, StdSink, StdSource};
use hk_base::{Failed, Got, Sink, Source};
use hk_outside::{Door, DoorFault, Gate, Link, LinkGot, Plan};
use mio::net::TcpListener;
use std::io::{ErrorKind, Read, Write};
use std::net::{Ipv4Addr, SocketAddr};
use std::sync::Wait;
use std::test::Fail;
use std::{fs, io, net};

// A device that is interrupted so often before each call that is answered, and takes or gives at most two bytes at a time.
#[derive(Drop)]
struct Interrupted {
    each: u8,
    left: u8,
    next: u8,
    fails: bool,
}

impl Interrupted {
    fn new(each: u8, fails: bool) -> Interrupted {
        Interrupted {
            each,
            left: each,
            next: 1,
            fails,
        }
    }

    fn answer(&mut self, room: usize) -> io::Result<usize> {
        if self.left > 0 {
            self.left -= 1;
            return Err(io::Error::from(ErrorKind::Interrupted));
        }
        self.left = self.each;
        if self.fails {
            return Err(io::Error::from(ErrorKind::Other));
        }
        Ok(room.min(2))
    }
}

impl Read for Interrupted {
    fn read(&mut self, buf: &mut [u8]) -> io::Result<usize> {
        let count = self.answer(buf.len())?;
        for place in 0..count.min(buf.len()) {
            buf[place] = self.next;
            self.next = self.next.wrapping_add(1);
        }
        Ok(count.min(buf.len()))
    }
}

impl Write for Interrupted {
    fn write(&mut self, buf: &[u8]) -> io::Result<usize> {
        Ok(self.answer(buf.len())?.min(buf.len()))
    }

    fn flush(&mut self) -> io::Result<()> {
        Ok(())
    }
}

// A connection on loopback: the end that a station has, and the monitor's.
fn pair(rt: &HostRuntime) -> io::Result<(net::TcpStream, NetLink)> {
    let listener = TcpListener::bind(rt, SocketAddr::from((Ipv4Addr::LOCALHOST, 0)))?;
    let near = net::TcpStream::connect(rt, listener.local_addr()?)?;
    Ok((near, NetLink::new(listener.accept()?.0)))
}

// Waits until the seat is named.
fn wait_for<R: Wait>(
    rt: &R,
    gate: &mut NetGate,
    seat: usize,
    ready: &mut [bool; 64],
) -> Result<(), Failed> {
    for _ in 0..1000 {
        if ready[seat.min(63)] {
            return Ok(());
        }
        gate.wait(rt, ready)?;
    }
    Err(Failed)
}

#[test]
fn a_link_gives_what_its_peer_sends_and_then_its_end(rt: HostRuntime) -> Result<(), Fail> {
    let (mut near, mut link) = pair(&rt)?;
    let mut gate = NetGate::new(&rt)?;
    let mut into = [0u8; 4];
    assert_eq!(rt; link.read(&mut into), LinkGot::NotYet);
    assert_eq!(rt; gate.watch(5, &mut link), Ok(()));
    near.write_all(b"HKS1\x00\x01")?;
    let mut ready = [false; 64];
    assert_eq!(rt; wait_for(&rt, &mut gate, 5, &mut ready), Ok(()));
    assert_eq!(rt; ready.iter().filter(|set| **set).count(), 1);
    assert_eq!(rt; link.read(&mut into), LinkGot::Bytes(4));
    assert_eq!(rt; &into[..], b"HKS1".as_slice());
    assert_eq!(rt; link.read(&mut into), LinkGot::Bytes(2));
    assert_eq!(rt; &into[..2], [0, 1].as_slice());
    assert_eq!(rt; link.read(&mut into), LinkGot::NotYet);
    drop(near);
    ready = [false; 64];
    assert_eq!(rt; wait_for(&rt, &mut gate, 5, &mut ready), Ok(()));
    assert_eq!(rt; link.read(&mut into), LinkGot::End);
    Ok(())
}

#[test]
fn a_gate_names_each_seat_that_has_bytes_and_clears_none(rt: HostRuntime) -> Result<(), Fail> {
    let mut gate = NetGate::new(&rt)?;
    let (mut first, mut link_of_first) = pair(&rt)?;
    let (_second, mut link_of_second) = pair(&rt)?;
    let (mut third, mut link_of_third) = pair(&rt)?;
    assert_eq!(rt; gate.watch(0, &mut link_of_first), Ok(()));
    assert_eq!(rt; gate.watch(1, &mut link_of_second), Ok(()));
    assert_eq!(rt; gate.watch(63, &mut link_of_third), Ok(()));
    first.write_all(b"x")?;
    let mut ready = [false; 64];
    assert_eq!(rt; wait_for(&rt, &mut gate, 0, &mut ready), Ok(()));
    assert_eq!(rt; (ready[1], ready[63]), (false, false));
    third.write_all(b"x")?;
    assert_eq!(rt; wait_for(&rt, &mut gate, 63, &mut ready), Ok(()));
    assert_eq!(rt; (ready[0], ready[1], ready[63]), (true, false, true));
    Ok(())
}

#[test]
fn a_link_that_is_watched_twice_is_a_fault_of_the_gate(rt: HostRuntime) -> Result<(), Fail> {
    let mut gate = NetGate::new(&rt)?;
    let (_near, mut link) = pair(&rt)?;
    assert_eq!(rt; gate.watch(0, &mut link), Ok(()));
    assert_eq!(rt; gate.watch(0, &mut link), Err(Failed));
    Ok(())
}

#[test]
fn a_connection_that_is_reset_is_a_failed_read(rt: HostRuntime) -> Result<(), Fail> {
    let (near, mut link) = pair(&rt)?;
    let mut gate = NetGate::new(&rt)?;
    assert_eq!(rt; gate.watch(0, &mut link), Ok(()));
    // a peer that closes with a byte unread resets the connection
    link.stream.write_all(b"x")?;
    let mut byte = [0u8; 1];
    near.peek(&mut byte)?;
    drop(near);
    assert_eq!(rt; wait_for(&rt, &mut gate, 0, &mut [false; 64]), Ok(()));
    assert_eq!(rt; link.read(&mut byte), LinkGot::Failed);
    Ok(())
}

#[test]
fn an_interrupted_read_goes_on(rt: HostRuntime) -> Result<(), Fail> {
    let mut source = StdSource::new(Interrupted::new(3, false));
    let mut into = [0u8; 5];
    assert_eq!(rt; source.read(&mut into), Got::Bytes(2));
    assert_eq!(rt; source.read(&mut into[2..]), Got::Bytes(2));
    assert_eq!(rt; into, [1, 2, 3, 4, 0]);
    let mut reader = Interrupted::new(200, true);
    let failed = read_on(&mut reader, &mut into).map_err(|e| e.kind());
    assert_eq!(rt; failed, Err(ErrorKind::Other));
    Ok(())
}

#[test]
fn an_interrupted_write_goes_on_and_tells_a_part(rt: HostRuntime) -> Result<(), Fail> {
    let mut sink = StdSink::new(Interrupted::new(3, false));
    assert_eq!(rt; sink.write(b"line"), Ok(2));
    let mut writer = Interrupted::new(200, true);
    let failed = write_on(&mut writer, b"line").map_err(|e| e.kind());
    assert_eq!(rt; failed, Err(ErrorKind::Other));
    let mut broken = StdSink::new(Interrupted::new(1, true));
    assert_eq!(rt; broken.write(b"line"), Err(Failed));
    Ok(())
}

// A plan for one station on two ports of loopback.
fn plan(rt: &HostRuntime, station_port: u16, operator_port: u16) -> io::Result<Plan>
    ensures stations { IfOk result (λ plan. plan.stations ≡ 1) }
    ensures workers { IfOk result (λ plan. plan.workers ≡ 1) }
{
    Ok(Plan {
        stations: 1,
        workers: 1,
        flips: 4,
        hop: 64,
        songs: 10,
        positions: 1000,
        versions: 10,
        bytes: 1_000_000,
        address: format!(in rt.alloc(); "127.0.0.1")?,
        station_port,
        operator_port,
        logs: format!(in rt.alloc(); "heard")?,
    })
}

// A port that nobody listens on now.
fn free_port(rt: &HostRuntime) -> io::Result<u16> {
    let listener = TcpListener::bind(rt, SocketAddr::from((Ipv4Addr::LOCALHOST, 0)))?;
    Ok(listener.local_addr()?.port())
}

#[test]
fn a_door_hands_out_what_connects_and_a_log_of_its_own(rt: HostRuntime) -> Result<(), Fail> {
    let plan = plan(&rt, free_port(&rt)?, free_port(&rt)?)?;
    let mut door = NetDoor::new(rt.clone()?);
    assert_eq!(rt; door.start(&plan), Ok(()));
    let mut station = net::TcpStream::connect(&rt, ("127.0.0.1", plan.station_port))?;
    let mut operator = net::TcpStream::connect(&rt, ("127.0.0.1", plan.operator_port))?;
    station.write_all(b"HKS1")?;
    operator.write_all(b"HKO1")?;
    let Ok((mut link, mut log)) = door.station(0) else {
        return Err(Fail::from("no station"));
    };
    let Ok((mut calls, mut replies)) = door.operator() else {
        return Err(Fail::from("no operator"));
    };
    let Ok(mut gate) = door.gate() else {
        return Err(Fail::from("no gate"));
    };
    let mut into = [0u8; 4];
    assert_eq!(rt; gate.watch(0, &mut link), Ok(()));
    assert_eq!(rt; wait_for(&rt, &mut gate, 0, &mut [false; 64]), Ok(()));
    assert_eq!(rt; link.read(&mut into), LinkGot::Bytes(4));
    assert_eq!(rt; &into[..], b"HKS1".as_slice());
    assert_eq!(rt; calls.read(&mut into), Got::Bytes(4));
    assert_eq!(rt; &into[..], b"HKO1".as_slice());
    assert_eq!(rt; log.write(b"line\n"), Ok(5));
    assert_eq!(rt; replies.write(b"O 1 ok\n"), Ok(7));
    let mut reply = [0u8; 7];
    operator.read_exact(&mut reply)?;
    assert_eq!(rt; &reply[..], b"O 1 ok\n".as_slice());
    assert_eq!(rt;
        fs::read(&rt, "heard-0.log")?.as_slice(),
        b"line\n".as_slice()
    );
    door.return_station(0, link, log);
    door.return_operator(calls, replies);
    Ok(())
}

#[test]
fn a_door_whose_port_is_taken_fails(rt: HostRuntime) -> Result<(), Fail> {
    let taken = TcpListener::bind(&rt, SocketAddr::from((Ipv4Addr::LOCALHOST, 0)))?;
    let plan = plan(&rt, taken.local_addr()?.port(), free_port(&rt)?)?;
    let mut door = NetDoor::new(rt.clone()?);
    assert_eq!(rt; door.start(&plan), Err(DoorFault::Failed));
    Ok(())
}

#[test]
fn a_log_that_cannot_be_made_is_a_fault_of_the_door(rt: HostRuntime) -> Result<(), Fail> {
    let mut plan = plan(&rt, free_port(&rt)?, free_port(&rt)?)?;
    plan.logs = format!(in rt.alloc(); "no-such-folder/heard")?;
    let mut door = NetDoor::new(rt.clone()?);
    assert_eq!(rt; door.start(&plan), Ok(()));
    let _station = net::TcpStream::connect(&rt, ("127.0.0.1", plan.station_port))?;
    assert!(rt; matches!(door.station(0), Err(DoorFault::Failed)));
    Ok(())
}
