// The first station whose version is over what was published.
ghost use Rattle.std.specs.Prelude.{◌≡◌, None};
ghost use Rattle.hk_monitor.specs.Over.{over_of, earlier, first_of_seats, first_of_crew};

use crate::{Crewman, Mismatch};
use hk_base::Sink;
use hk_block::Looker;
use hk_loop::Seat;
use hk_outside::{Gate, Link};
use hk_station::Station;

// What is told of a station whose version is over so many.
fn told_of(station: &Station, published: u32) -> Option<Mismatch>
    ensures { result ≡ over_of published station.now }
{
    if station.version() <= published {
        return None;
    }
    Some(Mismatch {
        station: station.number(),
        seen: station.version(),
        desk: published,
    })
}

// Of two the one with the lesser number.
fn first_of(found: Option<Mismatch>, other: Option<Mismatch>) -> Option<Mismatch>
    ensures { result ≡ earlier found other }
{
    match found {
        None => other,
        Some(m) => match other {
            None => Some(m),
            Some(n) => {
                if m.station <= n.station {
                    Some(m)
                } else {
                    Some(n)
                }
            }
        },
    }
}

// The first of what was found and of these seats.
fn first_in<K: Link, S: Sink, V: Looker>(
    seats: &[Seat<K, S, V>],
    published: u32,
    found: Option<Mismatch>,
) -> Option<Mismatch>
    ensures { result ≡ first_of_seats published found seats.now }
{
    let mut first = found;
    for seat in seats {
        first = first_of(first, told_of(&seat.station, published));
    }
    first
}

/// The station of the least number whose version is over so many, if there is one.
pub fn first_over<K: Link, S: Sink, G: Gate<Link = K>, V: Looker>(
    crew: &[Crewman<K, S, G, V>],
    published: u32,
) -> Option<Mismatch>
    ensures { result ≡ first_of_crew published None crew.now }
{
    let mut first = None;
    for worker in crew {
        first = first_in(&worker.seats, published, first);
    }
    first
}
