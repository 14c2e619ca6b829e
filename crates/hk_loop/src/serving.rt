// All seats of a worker.
ghost use Rattle.std.specs.Prelude.{◌≡◌, ◌≤◌, ◌<◌, ℕ, None, length, All, IfSome, IfNone, OnOk, OnErr};
ghost use Rattle.hk_base.specs.Devices.{Rose};
ghost use Rattle.hk_station.specs.Hearing.{kept_end};
ghost use Rattle.hk_loop.specs.Serving.{Keeps, Closes, HasServed};
ghost use Rattle.hk_loop.specs.Rows.{Each, GoesAt, GateCounts, AreOver};

use crate::Seat;
use crate::turning::{close, turn};
use hk_base::{Failed, Sink, Steps};
use hk_block::{Looker, Scratch};
use hk_outside::{Gate, Link};
use std::marker::Brand;
use std::sync::Wait;
use std::sync::ledger::{Blank, Ledger};

/// Serves the seats until all their stations are over: watches each link, waits at the gate until some may be read, and reads
/// pieces of at most 4096 bytes of each of these in turn, until it has nothing more now. A failed read ends that station, and a
/// failed watch or wait all stations that aren't over.
pub fn serve<R: Wait, G: Gate, S: Sink, V: Looker>(
    rt: &R,
    seats: &mut Vec<Seat<G::Link, S, V>>,
    gate: &mut G,
    scratch: &mut Scratch,
)
    requires few { length seats.old.items ≤ 64 }
    requires going { All (λ seat. kept_end seat.station ≡ None) seats.old.items }
    requires room { All (λ seat. (V.looker seat.view).room ≤ scratch.old.room) seats.old.items }
    ensures served { Each (HasServed G.Link.Link S.Sink V.Looker (G.faults gate.old) (G.faults gate.new)) seats.old.items seats.new.items }
    ensures gate { GateCounts (G.faults gate.old) (G.faults gate.new) seats.new.items }
    ensures scratch_room { scratch.new.room ≡ scratch.old.room }
{
    serve_counted::<R, G, S, V, Brand>(rt, seats, gate, scratch, Blank::new(1));
}

// The same with the counter of a ledger.
fn serve_counted<R: Wait, G: Gate, S: Sink, V: Looker, L: Ledger>(
    rt: &R,
    seats: &mut Vec<Seat<G::Link, S, V>>,
    gate: &mut G,
    scratch: &mut Scratch,
    blank: Blank,
)
    requires name { blank.name ≡ L.name }
    requires parts { blank.parts ≡ L.parts }
    requires some { 0 < L.parts }
    requires few { length seats.old.items ≤ 64 }
    requires going { All (λ seat. kept_end seat.station ≡ None) seats.old.items }
    requires room { All (λ seat. (V.looker seat.view).room ≤ scratch.old.room) seats.old.items }
    ensures served { Each (HasServed G.Link.Link S.Sink V.Looker (G.faults gate.old) (G.faults gate.new)) seats.old.items seats.new.items }
    ensures gate { GateCounts (G.faults gate.old) (G.faults gate.new) seats.new.items }
    ensures scratch_room { scratch.new.room ≡ scratch.old.room }
{
    let mut steps: Steps<L> = Steps::new(blank);
    if watch_all(seats, gate).is_err() {
        close_all(seats);
        return;
    }
    let mut ready = [false; 64];
    let mut piece = [0; 4096];
    for _ in rt.forever() {
        if are_over(seats) {
            return;
        }
        if !is_any_ready(&ready, seats.len()) && gate.wait(rt, &mut ready).is_err() {
            close_all(seats);
            return;
        }
        take_turns(seats, &mut ready, &mut piece, scratch, &mut steps);
    }
    unreachable!()
}

// Whether every station is over.
fn are_over<K: Link, S: Sink, V: Looker>(seats: &[Seat<K, S, V>]) -> bool
    ensures over { AreOver result seats.now }
{
    for k in 0..seats.len() {
        if seats[k].station.end().is_none() {
            return false;
        }
    }
    true
}

// Whether one of the first `count` seats is ready.
fn is_any_ready(ready: &[bool; 64], count: usize) -> bool
    requires { count ≤ 64 }
{
    ready[..count].contains(&true)
}

// Watches the link of each seat.
fn watch_all<G: Gate, S: Sink, V: Looker>(
    seats: &mut Vec<Seat<G::Link, S, V>>,
    gate: &mut G,
) -> Result<(), Failed>
    requires few { length seats.old.items ≤ 64 }
    requires going { All (λ seat. kept_end seat.station ≡ None) seats.old.items }
    ensures keeps { Each (Keeps G.Link.Link S.Sink V.Looker) seats.old.items seats.new.items }
    ensures going { All (λ seat. kept_end seat.station ≡ None) seats.new.items }
    ensures some { OnErr result (0 < length seats.new.items) }
    ensures cause { OnErr result (Rose (G.faults gate.old) (G.faults gate.new)) }
    ensures counts_failures { OnOk result (G.faults gate.new ≡ G.faults gate.old) }
{
    for k in 0..seats.len() {
        gate.watch(k as u8, &mut seats[k].link)?;
    }
    Ok(())
}

// Reads a piece of each seat that is ready, and sees whether it is ready still.
fn take_turns<K: Link, S: Sink, V: Looker, L: Ledger>(
    seats: &mut Vec<Seat<K, S, V>>,
    ready: &mut [bool; 64],
    piece: &mut [u8],
    scratch: &mut Scratch,
    steps: &mut Steps<L>,
)
    requires few { length seats.old.items ≤ 64 }
    requires piece { 0 < length piece.old }
    requires room { All (λ seat. (V.looker seat.view).room ≤ scratch.old.room) seats.old.items }
    ensures keeps { Each (Keeps K.Link S.Sink V.Looker) seats.old.items seats.new.items }
    ensures scratch_room { scratch.new.room ≡ scratch.old.room }
{
    for k in 0..seats.len() {
        if ready[k] {
            let seat = &mut seats[k];
            ready[k] = seat.station.end().is_none() && turn(seat, piece, scratch, steps);
        }
    }
}

// Ends every station that isn't over.
fn close_all<K: Link, S: Sink, V: Looker>(seats: &mut Vec<Seat<K, S, V>>)
    ensures { Each (Closes K.Link S.Sink V.Looker) seats.old.items seats.new.items }
{
    for k in 0..seats.len() {
        close(&mut seats[k]);
    }
}
