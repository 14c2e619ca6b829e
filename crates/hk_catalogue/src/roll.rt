// The roll: ids and lengths of the songs, by which edits are checked.
ghost use Rattle.std.specs.Prelude.{◌≡◌, ℕ, true, length, filter, not, ◌==◌, option_map, IfOk, None, is_ok, OnOk, ◌+◌, ◌^◌, ◌<◌};
ghost use Rattle.std.specs.Ordering.{nat_cmp};
ghost use Rattle.std.specs.FinMap.{put};
ghost use Rattle.hk_spec_streams.specs.Pieces.{first_that_holds};
ghost use Rattle.hk_spec_matching.specs.Catalogue.{Songs, has_song};
ghost use Rattle.hk_spec_settings.specs.Refusals.{add_refusals};
ghost use Rattle.hk_spec_settings.specs.Settings.{Rules};
ghost use Rattle.hk_catalogue.specs.Refusals.{has_id, free, add_tests, withdraw_tests, seal_tests, answered, refusal_in, reason_of};
ghost use Rattle.hk_catalogue.specs.Register.{new_register, refusal, noted, songs_after, Counts, AreRulesOf};

use crate::entry::{self, Entry};
use crate::{Edit, Refused};
use hk_base::NoMemory;
use std::alloc::Global;
use std::marker::Model;

// A song has enough words for a block.
const SHORTEST_SONG: u64 = 256;

/// Ids and lengths of the songs that a publish would give, the limits, and how many versions were published.
#[derive(Drop)]
pub struct Roll {
    entries: Vec<Entry>,
    words: u32,
    songs: u32,
    positions: u32,
    versions: u32,
    version: u32,
}

impl Model for Roll {
    ghost use Rattle.hk_catalogue.specs.Register.{Register};

    ghost Value = { Register };

    ghost use Rattle.hk_catalogue.specs.RollInside.{as_register, IsKept};

    ghost view = { as_register };

    ghost invariant = { IsKept };
}

impl Roll {
    /// A roll of no song, at version 0, for at most so many songs, words of all songs and versions. It takes all memory
    /// that it needs.
    pub fn new(alloc: Global, songs: u32, positions: u32, versions: u32) -> Result<Roll, NoMemory>
        ensures { IfOk result (λ roll. roll ≡ new_register (record { songs = songs; positions = positions; versions = versions })) }
    {
        let Ok(entries) = Vec::with_capacity(alloc, songs as usize) else {
            return Err(NoMemory);
        };
        Ok(Roll {
            entries,
            words: 0,
            songs,
            positions,
            versions,
            version: 0,
        })
    }

    /// Whether a song of so many words may be added, and else the first reason against it: its id is there, it is short, no
    /// further song may be, or there is no room for its words.
    pub fn check_add(&self, id: u32, words: u64) -> Result<(), Refused>
        ensures refused { result ≡ answered (first_that_holds (add_tests self.now.limits self.now.lengths id words)) }
        ensures reason { (rules : Rules) (songs : Songs) → AreRulesOf rules self.now → Counts self.now songs
            → option_map reason_of (refusal_in result) ≡ first_that_holds (add_refusals rules songs id words) }
    {
        match self.reason_against_add(id, words) {
            Some(refused) => Err(refused),
            None => Ok(()),
        }
    }

    /// Whether the song with this id may go: whether it is there.
    pub fn check_withdraw(&self, id: u32) -> Result<(), Refused>
        ensures refused { result ≡ answered (first_that_holds (withdraw_tests self.now.lengths id)) }
        ensures songs { (songs : Songs) → Counts self.now songs → is_ok result ≡ has_song songs id }
    {
        if self.has(id) {
            Ok(())
        } else {
            Err(Refused::Unknown(id))
        }
    }

    /// Whether a further version may be published.
    pub fn check_seal(&self) -> Result<(), Refused>
        ensures refused { result ≡ answered (first_that_holds (seal_tests self.now.limits self.now.version)) }
        ensures left { OnOk result (self.now.version + 1 < 2 ^ 32) }
    {
        if self.versions <= self.version {
            Err(Refused::VersionsFull(self.versions))
        } else {
            Ok(())
        }
    }

    /// Whether an edit may be done: the check of its kind.
    pub fn check(&self, edit: &Edit) -> Result<(), Refused>
        ensures { result ≡ answered (refusal self.now edit.now) }
    {
        match edit {
            Edit::Add(song) => self.check_add(song.id(), song.length() as u64),
            Edit::Withdraw(id) => self.check_withdraw(*id),
            Edit::Seal => self.check_seal(),
        }
    }

    /// Notes an edit whose check passes.
    pub fn note(&mut self, edit: &Edit)
        requires passes { refusal self.old edit.now ≡ None }
        ensures noted { self.new ≡ noted self.old edit.now }
        ensures songs { (errors : ℕ) (songs : Songs) → Counts self.old songs
            → Counts self.new (songs_after self.old.limits errors songs edit.now) }
    {
        match edit {
            Edit::Add(song) => self.add(song.id(), song.length()),
            Edit::Withdraw(id) => self.withdraw(*id),
            Edit::Seal => self.version += 1,
        }
    }

    // The first reason against a song of so many words.
    fn reason_against_add(&self, id: u32, words: u64) -> Option<Refused>
        ensures { result ≡ first_that_holds (add_tests self.now.limits self.now.lengths id words) }
    {
        let free = self.free();
        if self.has(id) {
            Some(Refused::Duplicate(id))
        } else if words < SHORTEST_SONG {
            Some(Refused::Short(words))
        } else if self.songs as usize <= self.count() {
            Some(Refused::SongsFull(self.songs))
        } else if (free as u64) < words {
            Some(Refused::PositionsFull(free, words))
        } else {
            None
        }
    }

    // How many songs are there.
    fn count(&self) -> usize
        ensures { result ≡ length self.now.lengths }
    {
        self.entries.len()
    }

    // How many further words there may be.
    fn free(&self) -> u32
        ensures { result ≡ free self.now.limits self.now.lengths }
    {
        self.positions - self.words
    }

    // Whether a song with this id is there.
    fn has(&self, id: u32) -> bool
        ensures { result ≡ has_id self.now.lengths id }
    {
        entry::has_id(self.entries.as_slice(), id)
    }

    /// Notes that a song of so many words is added. Its check passes.
    pub fn add(&mut self, id: u32, length: u32)
        requires { first_that_holds (add_tests self.old.limits self.old.lengths id length) ≡ None }
        ensures { self.new ≡ record self.old { lengths = put nat_cmp id length self.old.lengths } }
    {
        let place = entry::place_of(self.entries.as_slice(), id);
        match self.entries.insert(place, Entry { id, number: length }) {
            Ok(()) => {}
            Err(_) => unreachable!(),
        }
        self.words += length;
    }

    /// Notes that the song with this id goes. Its check passes.
    pub fn withdraw(&mut self, id: u32)
        requires { has_id self.old.lengths id ≡ true }
        ensures { self.new ≡ record self.old { lengths = filter (λ entry. not (entry.0 == id)) self.old.lengths } }
    {
        let place = entry::place_of(self.entries.as_slice(), id);
        let gone = self.entries.remove(place);
        self.words -= gone.number;
    }
}
