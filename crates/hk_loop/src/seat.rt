// A seat.
use hk_base::Sink;
use hk_block::Looker;
use hk_outside::Link;
use hk_station::Station;

/// A station with its link, its log and its view of the catalogue.
#[derive(Drop)]
pub struct Seat<K: Link, S: Sink, V: Looker> {
    pub link: K,
    pub log: S,
    pub station: Station,
    pub view: V,
}
