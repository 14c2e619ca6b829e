// What a worker does in its thread.
ghost use Rattle.std.specs.Prelude.{◌≡◌, ◌≤◌, None, length, All};
ghost use Rattle.hk_station.specs.Hearing.{kept_end};
ghost use Rattle.hk_loop.specs.Rows.{Each, GateCounts};
ghost use Rattle.hk_loop.specs.Serving.{HasServed};

use crate::Crewman;
use hk_base::Sink;
use hk_block::Looker;
use hk_crew::Duty;
use hk_loop::serve;
use hk_outside::{Gate, Link};
use std::sync::Wait;

impl<K: Link, S: Sink, G: Gate<Link = K>, V: Looker> Duty for Crewman<K, S, G, V> {
    ghost is_ready = { λ w. (length w.seats.items ≤ 64) × All (λ seat. kept_end seat.station ≡ None) w.seats.items
        × All (λ seat. (V.looker seat.view).room ≤ w.scratch.room) w.seats.items };

    ghost has_done = { λ w w'. Each (HasServed K.Link S.Sink V.Looker (G.faults w.gate) (G.faults w'.gate)) w.seats.items w'.seats.items
        × GateCounts (G.faults w.gate) (G.faults w'.gate) w'.seats.items
        × (w'.scratch.room ≡ w.scratch.room) };

    fn run<R: Wait>(&mut self, rt: &R) {
        serve(rt, &mut self.seats, &mut self.gate, &mut self.scratch)
    }
}
