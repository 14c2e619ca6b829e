// What stations did, each by its number.
ghost use Rattle.hk_seating.specs.ByNumber.{SeatedDidByNumber};

use hk_base::Sink;
use hk_outside::{Gate, Link};

/// Where stations sit in a crew by their numbers, what a run says of each worker's seats says of each number what its station did.
pub fn what_stations_did<K: Link, S: Sink, G: Gate<Link = K>>()
    ensures { SeatedDidByNumber K.Link S.Sink G.faults }
{}
