// One seat: a piece of its bytes, and its end where the gate fails.
ghost use Rattle.std.specs.Prelude.{◌≡◌, ◌≤◌, ◌<◌, None, length};
ghost use Rattle.hk_station.specs.Hearing.{kept_end};
ghost use Rattle.hk_loop.specs.Serving.{Keeps, Closes};

use crate::Seat;
use hk_base::{Sink, Steps};
use hk_block::{Looker, Scratch};
use hk_outside::{Link, LinkGot};
use std::sync::ledger::Ledger;

/// Reads a piece from the seat's link, and lets its station hear it. Answers whether the link may have more now.
pub fn turn<K: Link, S: Sink, V: Looker, L: Ledger>(
    seat: &mut Seat<K, S, V>,
    piece: &mut [u8],
    scratch: &mut Scratch,
    steps: &mut Steps<L>,
) -> bool
    requires piece { 0 < length piece.old }
    requires room { (V.looker seat.old.view).room ≤ scratch.old.room }
    requires going { kept_end seat.old.station ≡ None }
    ensures keeps { Keeps K.Link S.Sink V.Looker seat.old seat.new }
    ensures scratch_room { scratch.new.room ≡ scratch.old.room }
{
    match seat.link.read(piece) {
        LinkGot::Bytes(n) => {
            let _progress = seat
                .station
                .feed(&piece[..n], &mut seat.view, scratch, &mut seat.log, steps);
            true
        }
        LinkGot::End => {
            seat.station.finish();
            false
        }
        LinkGot::NotYet => false,
        LinkGot::Failed => {
            seat.station.stop_read();
            false
        }
    }
}

/// Ends the seat's station where it isn't over, since the gate failed.
pub fn close<K: Link, S: Sink, V: Looker>(seat: &mut Seat<K, S, V>)
    ensures { Closes K.Link S.Sink V.Looker seat.old seat.new }
{
    if seat.station.end().is_none() {
        seat.station.stop_gate();
    }
}
