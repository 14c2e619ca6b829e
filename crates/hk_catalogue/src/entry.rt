// Ids by rising id, each with a number.
ghost use Rattle.std.specs.Prelude.{◌≡◌, ◌≤◌, length};
ghost use Rattle.hk_catalogue.specs.Refusals.{has_id};
ghost use Rattle.hk_catalogue.specs.Entries.{entry_pairs, AreRising, Splits};

/// An id, and a number that is kept for it.
#[derive(Clone, Copy)]
pub struct Entry {
    pub id: u32,
    pub number: u32,
}

/// How many entries have a lower id.
pub fn place_of(entries: &[Entry], id: u32) -> usize
    requires { AreRising (entry_pairs entries.now) }
    ensures bound { result ≤ length entries.now }
    ensures splits { Splits (entry_pairs entries.now) id result }
{
    entries.partition_point(|entry| entry.id < id)
}

/// Whether one of the entries has this id.
pub fn has_id(entries: &[Entry], id: u32) -> bool
    requires { AreRising (entry_pairs entries.now) }
    ensures { result ≡ has_id (entry_pairs entries.now) id }
{
    match entries.get(place_of(entries, id)) {
        Some(entry) => entry.id == id,
        None => false,
    }
}
