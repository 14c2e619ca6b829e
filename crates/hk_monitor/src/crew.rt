// Who runs a monitor, and what is kept after it.
use hk_base::Sink;
use hk_block::{Looker, Scratch};
use hk_clerk::Office;
use hk_loop::Seat;
use hk_outside::{Door, Gate, Link};
use hk_publish::{Desk, Reading};
use std::sync::Wait;

/// Who serves at most 64 seats at one gate.
#[derive(Drop)]
pub struct Crewman<K: Link, S: Sink, G: Gate<Link = K>, V: Looker> {
    pub seats: Vec<Seat<K, S, V>>,
    pub gate: G,
    pub scratch: Scratch,
}

/// A worker over what a door hands out.
pub type Worker<D, R> = Crewman<<D as Door>::Link, <D as Door>::Log, <D as Door>::Gate, Reading<R>>;

/// The clerk over what a door hands out.
pub type Clerk<D> = Office<<D as Door>::Calls, <D as Door>::Replies>;

/// A station has seen a version that the desk hasn't published.
#[derive(Clone, Copy, Debug, PartialEq, Eq)]
pub struct Mismatch {
    pub station: u8,
    pub seen: u32,
    pub desk: u32,
}

/// The desk and the readings of a run, reading n that of station n. Who holds it closes the desk.
pub struct Kept<R: Wait + Drop> {
    pub desk: Desk,
    pub readings: Vec<Reading<R>>,
}
