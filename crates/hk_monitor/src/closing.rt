// The closing look of each reading.
ghost use Rattle.std.specs.Prelude.{◌≡◌, All};
ghost use Rattle.hk_loop.specs.Rows.{Each};
ghost use Rattle.hk_monitor.specs.Closing.{LooksAgain, ClosesSeat, ClosesSeats};

use crate::Crewman;
use hk_base::Sink;
use hk_block::Looker;
use hk_loop::Seat;
use hk_outside::{Gate, Link};
use hk_publish::{Desk, Reading};
use std::sync::Wait;

// The reading learns what the desk has published, and looks once more.
fn look_again<R: Wait + Drop>(reading: &mut Reading<R>, desk: &Desk)
    requires home { desk.now.home ≡ reading.old.home }
    ensures { LooksAgain desk.now.published reading.old reading.new }
{
    reading.learn(desk.tell());
    let _version = reading.now();
}

// So do all readings of a worker.
fn close_seats<K: Link, S: Sink, R: Wait + Drop>(
    seats: &mut Vec<Seat<K, S, Reading<R>>>,
    desk: &Desk,
)
    requires home { All (λ seat. desk.now.home ≡ seat.view.home) seats.old.items }
    ensures { Each (ClosesSeat desk.now.published) seats.old.items seats.new.items }
{
    for k in 0..seats.len() {
        look_again(&mut seats[k].view, desk);
    }
}

/// Each reading of the crew learns what the desk has published, and looks once more.
pub fn close_all<K: Link, S: Sink, G: Gate<Link = K>, R: Wait + Drop>(
    crew: &mut Vec<Crewman<K, S, G, Reading<R>>>,
    desk: &Desk,
)
    requires home { All (λ worker. All (λ seat. desk.now.home ≡ seat.view.home) worker.seats.items) crew.old.items }
    ensures { Each (ClosesSeats desk.now.published) crew.old.items crew.new.items }
{
    for w in 0..crew.len() {
        close_seats(&mut crew[w].seats, desk);
    }
}
