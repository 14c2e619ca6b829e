// The store: one vector of words, and the slots that say which of them belong to which song.
ghost use Rattle.std.specs.Prelude.{◌≡◌, ◌≤◌, ◌<◌, ◌+◌, ◌^◌, ◌++◌, length, take, drop, vec_len, vec_capacity, IfOk, IsSome, None};
ghost use Rattle.hk_table.specs.Store.{new_store, song_at, size_at, spare, with_song_at, without_song_at};

use crate::extent::{self, Extent};
use crate::{Song, SongBlock};
use hk_base::NoMemory;
use std::alloc::Global;
use std::marker::Model;

/// Slots, each empty or with a song, and room for so many words.
#[derive(Drop)]
pub struct SongStore {
    words: Vec<u32>,
    slots: Vec<Option<Extent>>,
    positions: u32,
}

impl Model for SongStore {
    ghost use Rattle.hk_table.specs.Store.{Store};

    ghost Value = { Store };

    ghost use Rattle.hk_table.specs.Inside.{as_store, IsKept};

    ghost view = { as_store };

    ghost invariant = { IsKept };
}

// Takes so many words out from `start` on, and moves those behind them down.
fn cut_out(words: &mut Vec<u32>, start: usize, length: usize)
    requires { start + length ≤ vec_len words.old }
    ensures words { words.new.items ≡ take start words.old.items ++ drop (start + length) words.old.items }
    ensures capacity { vec_capacity words.new ≡ vec_capacity words.old }
{
    words.as_mut_slice().copy_within(start + length.., start);
    words.truncate(words.len() - length);
}

impl SongStore {
    /// A store of empty slots, with room for 256 to 2^24 words in 1 to 65536 slots. It takes all memory that it needs.
    pub fn new(alloc: Global, positions: u32, songs: u32) -> Result<SongStore, NoMemory>
        requires enough { 256 ≤ positions }
        requires most { positions ≤ 2 ^ 24 }
        requires some { 1 ≤ songs }
        requires few { songs ≤ 65536 }
        ensures { IfOk result (λ store. store ≡ new_store positions songs) }
    {
        let Ok(words) = Vec::with_capacity(alloc, positions as usize) else {
            return Err(NoMemory);
        };
        let mut slots = Vec::new(alloc);
        match slots.resize(songs as usize, None) {
            Ok(()) => Ok(SongStore {
                words,
                slots,
                positions,
            }),
            Err(_) => Err(NoMemory),
        }
    }

    /// How many words there is room for beside those of its songs.
    pub fn spare(&self) -> u32
        ensures { result ≡ spare self.now }
    {
        self.positions - self.words.len() as u32
    }

    /// Copies a song into an empty slot. There is room for its words.
    pub fn put(&mut self, slot: u32, song: &SongBlock)
        requires there { slot < length self.old.slots }
        requires empty { song_at self.old slot ≡ None }
        requires room { length song.now.words ≤ spare self.old }
        ensures put { self.new ≡ with_song_at self.old slot song.now }
        ensures spare { spare self.new + length song.now.words ≡ spare self.old }
    {
        let start = self.words.len();
        let words = song.words();
        match self.words.extend_from_slice(words) {
            Ok(()) => {}
            Err(_) => unreachable!(),
        }
        self.slots[slot as usize] = Some(Extent {
            id: song.id(),
            start,
            length: words.len(),
        });
    }

    /// Empties a slot that holds a song, and moves the words behind its words down.
    pub fn clear(&mut self, slot: u32)
        requires holds { IsSome (song_at self.old slot) }
        ensures cleared { self.new ≡ without_song_at self.old slot }
        ensures spare { spare self.new ≡ spare self.old + size_at self.old slot }
    {
        let Some(gone) = extent::extent_at(self.slots.as_slice(), slot) else {
            unreachable!();
        };
        self.slots[slot as usize] = None;
        extent::close_up(self.slots.as_mut_slice(), gone);
        cut_out(&mut self.words, gone.start, gone.length);
    }

    /// The song in a slot, and None exactly where the slot is empty or doesn't exist.
    pub fn song(&self, slot: u32) -> Option<Song<'_>>
        ensures { result ≡ song_at self.now slot }
    {
        match extent::extent_at(self.slots.as_slice(), slot) {
            Some(extent) => Some(Song::new(
                extent.id,
                &self.words[extent.start..extent.start + extent.length],
            )),
            None => None,
        }
    }
}
