// Small cases by hand.
ghost use Rattle.std.specs.Prelude.{◌≡◌, ◌≤◌, ◌<◌, IsTrue, IfOk, IfSome};
ghost use Rattle.std.specs.List.{All};
ghost use Rattle.std.proofs.Props.{props};
ghost use Rattle.hk_block.specs.Ring.{is_full};

use crate::{Desk, Note, Reading, start};
use hk_base::{NoMemory, Print, Steps};
use hk_block::{BlockRing, Looker, Scratch};
use hk_catalogue::{Edit, Refused, Shelf, StageFault};
use hk_table::SongBlock;
use std::alloc::{AllocError, Global};
use std::marker::Brand;
use std::sync::Wait;
use std::sync::ledger::{Blank, Ledger};
use std::thread;

// A song of the words 0 to 255.
fn rising_song(alloc: Global, id: u32) -> Result<SongBlock, AllocError> {
    let mut words = vec![in alloc; 0u32; 256]?;
    for n in 0..256usize {
        words[n] = n as u32;
    }
    Ok(SongBlock::new(id, words))
}

// Stages the song of the words 0 to 255, and tells whether it is staged.
#[tactic(auto, using(crate::proofs::Telling::shelf_homes))]
fn adds(alloc: Global, desk: &mut Desk, id: u32) -> bool
    ensures home { desk.new.home ≡ desk.old.home }
{
    match rising_song(alloc, id) {
        Ok(song) => desk.stage(Edit::Add(song)).is_ok(),
        Err(_) => false,
    }
}

// A ring with the prints of the words 0 to 255.
fn rising_ring(alloc: Global) -> Result<BlockRing, NoMemory>
    ensures { IfOk result (λ ring. IsTrue (is_full ring)) }
{
    let mut ring = BlockRing::new(alloc, 1)?;
    for n in 0..256u32 {
        ring.push(Print { word: n, mask: 0 });
    }
    Ok(ring)
}

// What a look found: its version, and how many matches.
#[derive(Clone, Copy, Debug, PartialEq, Eq)]
struct Found {
    version: u32,
    matches: usize,
}

// A reading in a thread of its own, with the note that it learns first, what it looks up, and what it found last.
#[derive(Drop)]
struct Seat<R: Wait + Drop> {
    reading: Reading<R>,
    note: Option<Note>,
    ring: BlockRing,
    scratch: Scratch,
    found: Option<Found>,
    ghost home: { IfSome note (λ note. note.home ≡ reading.home) } by { Prim.hlevel props },
    ghost full: { IsTrue (is_full ring) },
    ghost space: { reading.limits.positions ≤ scratch.room },
}

impl<R: Wait + Drop> Seat<R> {
    // Learns the note where that wasn't done yet, and looks.
    fn look(&mut self) -> Found {
        if let Some(note) = self.note.take() {
            self.reading.learn(note);
        }
        let found = self.look_in::<Brand>(Blank::new(1));
        self.found = Some(found);
        found
    }

    fn look_in<L: Ledger>(&mut self, blank: Blank) -> Found
        requires name { blank.name ≡ L.name }
        requires parts { blank.parts ≡ L.parts }
        requires some { 0 < L.parts }
    {
        let mut steps: Steps<L> = Steps::new(blank);
        let version = self.reading.look(&self.ring, &mut self.scratch, &mut steps);
        Found {
            version,
            matches: self.scratch.matches().len(),
        }
    }
}

// Takes the last reading, and gives it a seat.
fn seat_next<R: Wait + Drop>(
    alloc: Global,
    readings: &mut Vec<Reading<R>>,
    note: Note,
    positions: u32,
) -> Option<Seat<R>>
    requires home { All (λ reading. note.home ≡ reading.home) readings.old.items }
    requires space { All (λ reading. reading.limits.positions ≤ positions) readings.old.items }
    ensures home { All (λ reading. note.home ≡ reading.home) readings.new.items }
    ensures space { All (λ reading. reading.limits.positions ≤ positions) readings.new.items }
{
    let reading = readings.pop()?;
    let ring = rising_ring(alloc).ok()?;
    let scratch = Scratch::new(alloc, positions).ok()?;
    Some(Seat {
        reading,
        note: Some(note),
        ring,
        scratch,
        found: None,
    })
}

// A song is staged, and seen from the publish on. A reading that learns a note of it sees it.
#[test]
fn two_readings_and_two_versions(rt: HostRuntime) {
    let Ok((mut desk, mut readings)) = start(&&rt, rt.alloc(), 10, 1000, 2, 2) else {
        panic!(rt; "no memory");
    };
    let staged = adds(rt.alloc(), &mut desk, 7);
    let before = (readings[0].now(), readings[1].now());
    let first = desk.publish(&rt);
    let note = desk.tell();
    let told = note.version();
    readings[0].learn(note);
    let after = (readings[0].now(), readings[1].now());
    let second = desk.publish(&rt);
    readings[0].learn(desk.tell());
    let later = readings[0].now();
    let third = desk.publish(&rt);
    let version = desk.version();
    desk.close(&rt);
    assert!(rt; staged);
    assert_eq!(rt; before, (0, 0));
    assert_eq!(rt; first, Ok(1));
    assert_eq!(rt; told, 1);
    assert_eq!(rt; after, (1, 1));
    assert_eq!(rt; second, Ok(2));
    assert_eq!(rt; later, 2);
    assert_eq!(rt; third, Err(StageFault::Refused(Refused::VersionsFull(2))));
    assert_eq!(rt; version, 2);
}

// The greatest catalogue and one publish. Each reading learns it and looks a block up, in a thread of its own.
#[test]
fn two_threads_look_in_the_greatest_catalogue(rt: HostRuntime) {
    let Ok((mut desk, mut readings)) = start(&&rt, rt.alloc(), 1000, 16777216, 10, 2) else {
        panic!(rt; "no memory");
    };
    let published = desk.publish(&rt);
    let (Some(one), Some(other)) = (
        seat_next(rt.alloc(), &mut readings, desk.tell(), 16777216),
        seat_next(rt.alloc(), &mut readings, desk.tell(), 16777216),
    ) else {
        panic!(rt; "no memory");
    };
    let mut seats = [one, other];
    thread::for_each_mut(
        &rt,
        &mut seats,
        2,
        &|_: usize, seat: &mut Seat<_>| {
            seat.look();
        },
    );
    desk.close(&rt);
    let none = Found {
        version: 1,
        matches: 0,
    };
    assert_eq!(rt; published, Ok(1));
    assert_eq!(rt; seats[0].found, Some(none));
    assert_eq!(rt; seats[1].found, Some(none));
}

// Publishes that a song comes, then that it goes, and so on up to this version, and answers the last one.
fn publishes<R: Wait>(rt: &R, alloc: Global, desk: &mut Desk, last: u32) -> u32 {
    let mut version = 0;
    for n in 0..last {
        if n % 2 == 0 {
            adds(alloc, desk, 7);
        } else {
            let _ = desk.stage(Edit::Withdraw(7));
        }
        match desk.publish(rt) {
            Ok(published) => version = published,
            Err(_) => return version,
        }
    }
    version
}

// Looks until this version is found. How many looks went back, or found the song elsewhere than at an odd version.
fn wrong_looks<W: Wait, R: Wait + Drop>(rt: &W, seat: &mut Seat<R>, last: u32) -> u32 {
    let mut wrong = 0u32;
    let mut before = 0;
    for _ in rt.forever() {
        let found = seat.look();
        if found.version < before || found.matches != (found.version % 2) as usize {
            wrong = wrong.saturating_add(1);
        }
        if found.version == last {
            return wrong;
        }
        before = found.version;
    }
    unreachable!()
}

// One thread publishes, and another one looks until it finds the last version.
#[test]
fn looks_beside_a_desk_find_each_version_whole(rt: HostRuntime) {
    let Ok((mut desk, mut readings)) = start(&&rt, rt.alloc(), 10, 1000, 50, 1) else {
        panic!(rt; "no memory");
    };
    let Some(mut seat) = seat_next(rt.alloc(), &mut readings, desk.tell(), 1000) else {
        panic!(rt; "no memory");
    };
    let answers = thread::join(
        &rt,
        || publishes(&rt, rt.alloc(), &mut desk, 50),
        || wrong_looks(&rt, &mut seat, 50),
    );
    desk.close(&rt);
    assert_eq!(rt; answers, (50, 0));
}
