// Room for the matches of a look.
ghost use Rattle.std.specs.Prelude.{◌≡◌, ◌<◌, [], length, IfOk};
ghost use Rattle.std.specs.List.Sorted.{IsPermutation};
ghost use Rattle.hk_block.specs.Room.{AreSorted, with_match};

use hk_base::{Match, NoMemory};
use std::alloc::Global;
use std::marker::Model;

/// A list of matches, and how many it has room for.
#[derive(Drop)]
pub struct Scratch {
    matches: Vec<Match>,
    room: u32,
}

impl Model for Scratch {
    ghost use Rattle.hk_block.specs.Room.{Room};
    ghost use Rattle.std.specs.Prelude.{◌≤◌, vec_len, vec_capacity};

    ghost Value = { Room };

    ghost view = { λ s. record { matches = s.matches.items; room = s.room } };

    ghost invariant = { λ s. (vec_len s.matches ≤ s.room) × (s.room ≤ vec_capacity s.matches) };
}

impl Scratch {
    /// An empty list with room for this many matches. It takes all memory that it needs.
    pub fn new(alloc: Global, positions: u32) -> Result<Scratch, NoMemory>
        ensures empty { IfOk result (λ scratch. scratch.matches ≡ []) }
        ensures room { IfOk result (λ scratch. scratch.room ≡ positions) }
    {
        match Vec::with_capacity(alloc, positions as usize) {
            Ok(matches) => Ok(Scratch {
                matches,
                room: positions,
            }),
            Err(_) => Err(NoMemory),
        }
    }

    /// The matches that were put, in their order.
    pub fn matches(&self) -> &[Match]
        ensures matches { result.now ≡ self.now.matches }
    {
        self.matches.as_slice()
    }

    /// Forgets all matches.
    pub fn clear(&mut self)
        ensures empty { self.new.matches ≡ [] }
        ensures room { self.new.room ≡ self.old.room }
    {
        self.matches.clear();
    }

    /// Appends a match. Room is left for it.
    pub fn put(&mut self, m: Match)
        requires space { length self.old.matches < self.old.room }
        ensures appended { self.new ≡ with_match self.old m }
    {
        self.matches.push_reserved(m);
    }

    /// Sorts by id, then by start, then by errors.
    pub fn order(&mut self)
        ensures same { IsPermutation self.old.matches self.new.matches }
        ensures ordered { AreSorted self.new.matches }
        ensures room { self.new.room ≡ self.old.room }
    {
        self.matches.as_mut_slice().sort_unstable();
    }
}
