// A bench.
use hk_base::Sink;
use hk_block::{Looker, Scratch};
use hk_loop::Seat;
use hk_outside::Link;

/// Where a worker will sit: empty seats, with room for stations, and the scratch of their looks.
#[derive(Drop)]
pub struct Bench<K: Link, S: Sink, V: Looker> {
    pub seats: Vec<Seat<K, S, V>>,
    pub scratch: Scratch,
}
