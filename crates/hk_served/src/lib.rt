//! What a station did in its seat while a worker served it.
//!
//! The loop of a worker promises of each seat which bytes its station heard, each with what the seat's view was then, and why it
//! ended. The law here makes of that what the definitions of a run say of one station: the text of its log, its looks, its
//! fences, its end and the cause of it, over any link, log and view. Laws alone, and nothing runs.
#![tactic(auto)]

ghost use Rattle.hk_served.specs.Served.{ServedSinceNew, AllServedSinceNew};

use hk_base::Sink;
use hk_block::Looker;
use hk_outside::Link;

/// A seat that was served since its station was new, at any rules, did what a run says of a station.
pub fn what_a_served_seat_did<K: Link, S: Sink, V: Looker>()
    ensures { ServedSinceNew K.Link S.Sink V.Looker }
{}

/// All seats that a worker has served since their stations were new did so, and its gate's failures ended some station.
pub fn what_served_seats_did<K: Link, S: Sink, V: Looker>()
    ensures { AllServedSinceNew K.Link S.Sink V.Looker }
{}
