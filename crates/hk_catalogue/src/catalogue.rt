// The catalogue: a store of words, the ids of its songs with their slots, and the slots that are free.
ghost use Rattle.std.specs.Prelude.{◌≡◌, ◌==◌, ◌≤◌, ◌<◌, ◌^◌, ◌&&◌, not, count_by, true, false, length, vec_len, vec_capacity, IfOk, IsTrue, Some, is_some, slice_get};
ghost use Rattle.std.specs.List.{Contains};
ghost use Rattle.std.specs.Option.{IfSome};
ghost use Rattle.hk_spec_matching.specs.Catalogue.{Limits, has_song, has_room, with_song, without_song, positions_of};
ghost use Rattle.hk_spec_matching.specs.Buckets.{bucket_of};
ghost use Rattle.hk_spec_matching.specs.Cost.{all_words};
ghost use Rattle.hk_spec_matching.specs.Matching.{MOST_ERRORS};
ghost use Rattle.hk_table.specs.Index.{ArePlaces, index_of};
ghost use Rattle.hk_table.specs.Store.{song_at, spare};
ghost use Rattle.hk_catalogue.specs.Register.{songs_after};
ghost use Rattle.hk_catalogue.specs.Shelves.{new_shelves, songs_of, song_of, entry_of, HasLimits, version_after, HasIn, IsCounting};
ghost use Rattle.hk_catalogue.specs.CatalogueInside.{IsShelved};

use crate::Edit;
use crate::entry::{self, Entry};
use hk_base::NoMemory;
use hk_table::{Song, SongBlock, SongStore, Table, Walk};
use std::alloc::Global;
use std::marker::Model;

/// The songs of a version, each in a slot, and the version.
#[derive(Drop)]
pub struct Catalogue {
    store: SongStore,
    table: Table,
    index: Vec<Entry>,
    free: Vec<u32>,
    version: u32,
}

impl Model for Catalogue {
    ghost use Rattle.hk_catalogue.specs.Shelves.{Shelves};

    ghost Value = { Shelves };

    ghost use Rattle.hk_catalogue.specs.CatalogueInside.{as_shelves, IsKept};

    ghost view = { as_shelves };

    ghost invariant = { IsKept };
}

// The numbers below this one, in order.
fn numbers_below(alloc: Global, count: u32) -> Result<Vec<u32>, NoMemory>
    ensures count { IfOk result (λ numbers. vec_len numbers ≡ count) }
    ensures numbers { IfOk result (λ numbers. IsCounting numbers.items) }
    ensures room { IfOk result (λ numbers. count ≤ vec_capacity numbers) }
{
    let Ok(mut numbers) = Vec::with_capacity(alloc, count as usize) else {
        return Err(NoMemory);
    };
    for number in 0..count {
        numbers.push_reserved(number);
    }
    Ok(numbers)
}

impl Catalogue {
    /// A catalogue of no song at version 0, with room for 1 to 65536 songs of 256 to 2^24 words in all. It takes all memory
    /// that it needs.
    pub fn new(alloc: Global, songs: u32, positions: u32) -> Result<Catalogue, NoMemory>
        requires enough { 256 ≤ positions }
        requires most { positions ≤ 2 ^ 24 }
        requires some { 1 ≤ songs }
        requires few { songs ≤ 65536 }
        ensures { IfOk result (λ catalogue. catalogue ≡ new_shelves songs positions) }
    {
        let store = SongStore::new(alloc, positions, songs)?;
        let table = Table::new(alloc, positions, songs)?;
        let free = numbers_below(alloc, songs)?;
        match Vec::with_capacity(alloc, songs as usize) {
            Ok(index) => Ok(Catalogue {
                store,
                table,
                index,
                free,
                version: 0,
            }),
            Err(_) => Err(NoMemory),
        }
    }

    /// Does an edit. An Add of an id that is there, or without a free slot or enough spare positions, changes nothing; so
    /// does a Withdraw of an unknown id, and a Seal at the last version of its type.
    pub fn absorb(&mut self, edit: &Edit)
        ensures songs { (limits : Limits) → HasLimits self.old limits
            → songs_of self.new ≡ songs_after limits MOST_ERRORS (songs_of self.old) edit.now }
        ensures version { self.new.version ≡ version_after self.old.version edit.now }
        ensures limits_stay { (limits : Limits) → HasLimits self.old limits → HasLimits self.new limits }
    {
        match edit {
            Edit::Add(song) => {
                if self.has_room(song) {
                    self.add(song);
                }
            }
            Edit::Withdraw(id) => {
                if self.has(*id) {
                    self.withdraw(*id);
                }
            }
            Edit::Seal => self.version = self.version.saturating_add(1),
        }
    }

    /// How many versions were published.
    pub fn version(&self) -> u32
        ensures { result ≡ self.now.version }
    {
        self.version
    }

    /// The slot of the song with this id, and None exactly where the id isn't there.
    pub fn find(&self, id: u32) -> Option<u32>
        ensures there { is_some result ≡ has_song (songs_of self.now) id }
        ensures slot { IfSome result (HasIn self.now id) }
    {
        let entries = self.index.as_slice();
        match entries.get(entry::place_of(entries, id)) {
            Some(entry) => {
                if entry.id == id {
                    Some(entry.number)
                } else {
                    None
                }
            }
            None => None,
        }
    }

    /// The song in a slot, and None exactly where the slot is empty or doesn't exist.
    pub fn song(&self, slot: u32) -> Option<Song<'_>>
        ensures song { result ≡ song_at self.now.store slot }
        ensures known { IfSome result (λ song. Contains (songs_of self.now) (entry_of song)) }
    {
        self.store.song(slot)
    }

    /// A walk to the places of a word in all songs, each a slot and a position. It ticks once for each position whose word
    /// is in the same bucket.
    pub fn walk(&self, word: u32) -> Walk<'_>
        ensures places { ArePlaces (index_of self.now.store) word result.places }
        ensures nodes { result.nodes ≡ count_by (λ x. bucket_of self.now.store.positions x == bucket_of self.now.store.positions word) (all_words (songs_of self.now)) }
    {
        self.table.walk(word)
    }

    /// How many songs are there.
    pub fn count(&self) -> u32
        ensures count { result ≡ length (songs_of self.now) }
        ensures words_fit { positions_of (songs_of self.now) ≤ self.now.store.positions }
        ensures shelved { IsShelved self.now }
    {
        self.index.len() as u32
    }

    /// Song `n` by rising id, from 0.
    pub fn nth(&self, n: u32) -> Song<'_>
        requires { n < length (songs_of self.now) }
        ensures { slice_get (songs_of self.now) n ≡ Some (entry_of result) }
    {
        match self.store.song(self.index[n as usize].number) {
            Some(song) => song,
            None => unreachable!(),
        }
    }

    // Whether a song with this id is there.
    fn has(&self, id: u32) -> bool
        ensures { result ≡ has_song (songs_of self.now) id }
    {
        entry::has_id(self.index.as_slice(), id)
    }

    // Whether a song is new, and a slot and enough words are left for it.
    fn has_room(&self, song: &SongBlock) -> bool
        ensures room { (limits : Limits) → HasLimits self.now limits
            → result ≡ (not (has_song (songs_of self.now) song.now.id) && has_room limits (songs_of self.now) (length song.now.words)) }
        ensures words { IsTrue result → length song.now.words ≤ spare self.now.store }
    {
        !self.has(song.id()) && !self.free.is_empty() && song.length() <= self.store.spare()
    }

    // Adds a song that is new, and for which a slot and enough words are left.
    fn add(&mut self, song: &SongBlock)
        requires new { has_song (songs_of self.old) song.now.id ≡ false }
        requires slot { length (songs_of self.old) < length self.old.store.slots }
        requires words { length song.now.words ≤ spare self.old.store }
        ensures songs { songs_of self.new ≡ with_song (songs_of self.old) song.now.id (song_of song.now.words) }
        ensures version { self.new.version ≡ self.old.version }
        ensures slots { length self.new.store.slots ≡ length self.old.store.slots }
        ensures positions { self.new.store.positions ≡ self.old.store.positions }
    {
        let id = song.id();
        let place = entry::place_of(self.index.as_slice(), id);
        let Some(slot) = self.free.pop() else {
            unreachable!();
        };
        self.store.put(slot, song);
        self.table.insert(slot, song);
        match self.index.insert(place, Entry { id, number: slot }) {
            Ok(()) => {}
            Err(_) => unreachable!(),
        }
    }

    // Takes out a song that is there.
    fn withdraw(&mut self, id: u32)
        requires { has_song (songs_of self.old) id ≡ true }
        ensures songs { songs_of self.new ≡ without_song (songs_of self.old) id }
        ensures version { self.new.version ≡ self.old.version }
        ensures slots { length self.new.store.slots ≡ length self.old.store.slots }
        ensures positions { self.new.store.positions ≡ self.old.store.positions }
    {
        let place = entry::place_of(self.index.as_slice(), id);
        let gone = self.index.remove(place);
        self.store.clear(gone.number);
        self.table.remove(gone.number);
        self.free.push_reserved(gone.number);
    }
}
