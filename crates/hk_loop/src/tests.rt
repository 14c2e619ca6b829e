// Small streams by hand, served over memory against no songs. The expected lines are those of the worked examples.
ghost use Rattle.std.specs.Prelude.{◌≡◌, ◌≤◌, ◌<◌, ◌+◌, None, All, OnOk, length};
ghost use Rattle.hk_station.specs.Hearing.{kept_end};

use crate::{Seat, serve};
use hk_base::{End, Failed, Flag, MemorySink, Print};
use hk_block::{NoSongs, Scratch};
use hk_outside::{Gate, MemoryGate, MemoryLink};
use hk_station::Station;
use std::alloc::Global;
use std::sync::Wait;
use std::test::Fail;

type TestSeat = Seat<MemoryLink, MemorySink, NoSongs>;

// A link with the 2057 bytes of a stream of prints with one block of the word 0. Each read gives at most `most` bytes, and
// those in `failing` fail.
fn link(
    alloc: Global,
    most: usize,
    failing: &[u64],
    hold: Option<Flag>,
) -> Result<MemoryLink, Fail> {
    let mut bytes = Vec::from_slice(alloc, b"HKS1\x00\x01\x01\x08\x00")?;
    bytes.extend_from_slice(&[0; 2048])?;
    Ok(MemoryLink::new(
        bytes,
        vec![in alloc; most; 2058]?,
        Vec::from_slice(alloc, failing)?,
        hold,
    ))
}

// A log with room for a line.
fn log(alloc: Global, failing: &[u64]) -> Result<MemorySink, Fail> {
    Ok(MemorySink::new(alloc, 100, Vec::from_slice(alloc, failing)?)?)
}

// Adds a seat whose station has this number.
fn add(
    alloc: Global,
    seats: &mut Vec<TestSeat>,
    number: u8,
    link: MemoryLink,
    log: MemorySink,
) -> Result<(), Fail>
    requires { All (λ seat. kept_end seat.station ≡ None) seats.old.items }
    ensures going { OnOk result (All (λ seat. kept_end seat.station ≡ None) seats.new.items) }
    ensures one { length seats.new.items ≤ length seats.old.items + 1 }
{
    let station = Station::new(alloc, number, 4, 64, 50000)?;
    if station.end().is_some() {
        return Err(Fail::from(Failed));
    }
    let view = NoSongs {
        version: 7,
        block: [Print { word: 1, mask: 0 }; 256],
    };
    seats.push(Seat {
        link,
        log,
        station,
        view,
    })?;
    Ok(())
}

// How a seat's station ended, and None where it goes on or there is no such seat.
fn end(seats: &[TestSeat], place: usize) -> Option<End> {
    match seats.get(place) {
        Some(seat) => seat.station.end(),
        None => None,
    }
}

// The text of a seat's log, and none where there is no such seat.
fn text(seats: &[TestSeat], place: usize) -> &[u8] {
    match seats.get(place) {
        Some(seat) => seat.log.written(),
        None => &[],
    }
}

const LINE_0: &[u8] = b"S 0 B 0 G 0 W 0 V 7: none\n";

const LINE_1: &[u8] = b"S 1 B 0 G 0 W 0 V 7: none\n";

#[test]
fn two_links_are_served_in_pieces_of_any_size(rt: HostRuntime) -> Result<(), Fail> {
    for (one, other) in [(1, 7), (7, 4096), (4096, 1)] {
        let mut seats = Vec::new(rt.alloc());
        let near = link(rt.alloc(), one, &[], None)?;
        add(rt.alloc(), &mut seats, 0, near, log(rt.alloc(), &[])?)?;
        let far = link(rt.alloc(), other, &[], None)?;
        add(rt.alloc(), &mut seats, 1, far, log(rt.alloc(), &[])?)?;
        let mut gate = MemoryGate::new(Vec::new(rt.alloc()));
        let mut scratch = Scratch::new(rt.alloc(), 0)?;
        serve(&rt, &mut seats, &mut gate, &mut scratch);
        assert_eq!(rt; end(&seats, 0), Some(End::Ended));
        assert_eq!(rt; text(&seats, 0), LINE_0);
        assert_eq!(rt; end(&seats, 1), Some(End::Ended));
        assert_eq!(rt; text(&seats, 1), LINE_1);
    }
    Ok(())
}

#[test]
fn a_failed_read_ends_its_own_station(rt: HostRuntime) -> Result<(), Fail> {
    // Read 3 is the one that would give the end.
    for (read, line) in [(0, b"".as_slice()), (2, b"".as_slice()), (3, LINE_0)] {
        let mut seats = Vec::new(rt.alloc());
        let near = link(rt.alloc(), 1000, &[read], None)?;
        add(rt.alloc(), &mut seats, 0, near, log(rt.alloc(), &[])?)?;
        let far = link(rt.alloc(), 1000, &[], None)?;
        add(rt.alloc(), &mut seats, 1, far, log(rt.alloc(), &[])?)?;
        let mut gate = MemoryGate::new(Vec::new(rt.alloc()));
        let mut scratch = Scratch::new(rt.alloc(), 0)?;
        serve(&rt, &mut seats, &mut gate, &mut scratch);
        assert_eq!(rt; end(&seats, 0), Some(End::ReadFault));
        assert_eq!(rt; text(&seats, 0), line);
        assert_eq!(rt; end(&seats, 1), Some(End::Ended));
        assert_eq!(rt; text(&seats, 1), LINE_1);
    }
    Ok(())
}

#[test]
fn a_failed_write_ends_its_own_station(rt: HostRuntime) -> Result<(), Fail> {
    for write in 0..8 {
        let mut seats = Vec::new(rt.alloc());
        let near = link(rt.alloc(), 1000, &[], None)?;
        add(rt.alloc(), &mut seats, 0, near, log(rt.alloc(), &[write])?)?;
        let far = link(rt.alloc(), 1000, &[], None)?;
        add(rt.alloc(), &mut seats, 1, far, log(rt.alloc(), &[])?)?;
        let mut gate = MemoryGate::new(Vec::new(rt.alloc()));
        let mut scratch = Scratch::new(rt.alloc(), 0)?;
        serve(&rt, &mut seats, &mut gate, &mut scratch);
        let torn = text(&seats, 0);
        assert!(rt; LINE_0.starts_with(torn));
        let own_end = if torn.len() < LINE_0.len() {
            End::SinkFault
        } else {
            End::Ended
        };
        assert_eq!(rt; end(&seats, 0), Some(own_end));
        assert!(rt; write > 0 || torn.is_empty());
        assert_eq!(rt; end(&seats, 1), Some(End::Ended));
        assert_eq!(rt; text(&seats, 1), LINE_1);
    }
    Ok(())
}

#[test]
fn a_failed_watch_or_wait_ends_all_stations(rt: HostRuntime) -> Result<(), Fail> {
    // The gate's calls are the watch of each seat and the first wait.
    for call in 0..3 {
        let mut seats = Vec::new(rt.alloc());
        let near = link(rt.alloc(), 4096, &[], None)?;
        add(rt.alloc(), &mut seats, 0, near, log(rt.alloc(), &[])?)?;
        let far = link(rt.alloc(), 4096, &[], None)?;
        add(rt.alloc(), &mut seats, 1, far, log(rt.alloc(), &[])?)?;
        let mut gate = MemoryGate::new(Vec::from_slice(rt.alloc(), &[call])?);
        let mut scratch = Scratch::new(rt.alloc(), 0)?;
        serve(&rt, &mut seats, &mut gate, &mut scratch);
        assert_eq!(rt; end(&seats, 0), Some(End::GateFault));
        assert!(rt; text(&seats, 0).is_empty());
        assert_eq!(rt; end(&seats, 1), Some(End::GateFault));
        assert!(rt; text(&seats, 1).is_empty());
    }
    Ok(())
}

#[test]
fn a_failed_wait_leaves_a_station_that_is_over(rt: HostRuntime) -> Result<(), Fail> {
    // The gate's calls are the watch of each seat, a wait that names both, and one for the held seat alone.
    let flag = Flag::new(rt.alloc())?;
    let mut seats = Vec::new(rt.alloc());
    let held = link(rt.alloc(), 4096, &[], Some(flag.share()?))?;
    add(rt.alloc(), &mut seats, 0, held, log(rt.alloc(), &[])?)?;
    let free = link(rt.alloc(), 7, &[], None)?;
    add(rt.alloc(), &mut seats, 1, free, log(rt.alloc(), &[])?)?;
    let mut gate = MemoryGate::new(Vec::from_slice(rt.alloc(), &[3])?);
    let mut scratch = Scratch::new(rt.alloc(), 0)?;
    serve(&rt, &mut seats, &mut gate, &mut scratch);
    assert_eq!(rt; end(&seats, 0), Some(End::GateFault));
    assert!(rt; text(&seats, 0).is_empty());
    assert_eq!(rt; end(&seats, 1), Some(End::Ended));
    assert_eq!(rt; text(&seats, 1), LINE_1);
    Ok(())
}

#[test]
fn a_held_link_waits_for_the_log_of_another_station(rt: HostRuntime) -> Result<(), Fail> {
    let flag = Flag::new(rt.alloc())?;
    let hold = flag.share()?;
    let none = Vec::from_slice(rt.alloc(), b"none")?;
    let raising = MemorySink::raising(rt.alloc(), 100, Vec::new(rt.alloc()), flag, none)?;
    let mut seats = Vec::new(rt.alloc());
    let held = link(rt.alloc(), 4096, &[], Some(hold))?;
    add(rt.alloc(), &mut seats, 0, held, log(rt.alloc(), &[])?)?;
    let free = link(rt.alloc(), 7, &[], None)?;
    add(rt.alloc(), &mut seats, 1, free, raising)?;
    let mut gate = MemoryGate::new(Vec::new(rt.alloc()));
    let mut scratch = Scratch::new(rt.alloc(), 0)?;
    serve(&rt, &mut seats, &mut gate, &mut scratch);
    assert_eq!(rt; end(&seats, 0), Some(End::Ended));
    assert_eq!(rt; text(&seats, 0), LINE_0);
    assert_eq!(rt; end(&seats, 1), Some(End::Ended));
    assert_eq!(rt; text(&seats, 1), LINE_1);
    Ok(())
}

// A gate that names no seat at first, and then seat 0. Its third wait raises its flag.
#[derive(Drop)]
struct ThirdWait {
    flag: Flag,
    waits: u32,
}

impl Gate for ThirdWait {
    type Link = MemoryLink;

    ghost faults = { λ g. 0 };

    fn watch(&mut self, seat: u8, link: &mut MemoryLink) -> Result<(), Failed> {
        Ok(())
    }

    fn wait<R: Wait>(&mut self, rt: &R, ready: &mut [bool; 64]) -> Result<(), Failed> {
        self.waits = self.waits.saturating_add(1);
        if self.waits > 1 {
            ready[0] = true;
        }
        if self.waits == 3 {
            self.flag.raise();
        }
        Ok(())
    }
}

#[test]
fn a_worker_with_nothing_to_read_waits_at_its_gate(rt: HostRuntime) -> Result<(), Fail> {
    let flag = Flag::new(rt.alloc())?;
    let hold = flag.share()?;
    let mut seats = Vec::new(rt.alloc());
    let held = link(rt.alloc(), 4096, &[], Some(hold))?;
    add(rt.alloc(), &mut seats, 0, held, log(rt.alloc(), &[])?)?;
    let mut gate = ThirdWait { flag, waits: 0 };
    let mut scratch = Scratch::new(rt.alloc(), 0)?;
    serve(&rt, &mut seats, &mut gate, &mut scratch);
    assert_eq!(rt; end(&seats, 0), Some(End::Ended));
    assert_eq!(rt; text(&seats, 0), LINE_0);
    assert_eq!(rt; gate.waits, 3);
    Ok(())
}
