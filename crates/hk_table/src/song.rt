// A song in a store.
ghost use Rattle.std.specs.Prelude.{◌≡◌, ◌+◌, ◌≤◌, ◌<◌, ◌^◌, length, take, drop};

use crate::Steps;
use std::marker::Model;
use std::sync::ledger::Ledger;

const BLOCK_SIZE: usize = 256;

/// A song of a store: its id, and its words, of which only windows are handed out.
#[derive(Drop)]
pub struct Song<'a> {
    id: u32,
    words: &'a [u32],
}

impl<'a> Model for Song<'a> {
    ghost use Rattle.std.specs.Prelude.{◌≤◌, ◌<◌, ◌^◌, length};
    ghost use Rattle.hk_table.specs.Store.{SongWithId, BLOCK_SIZE};

    ghost Value = { SongWithId };

    ghost view = { λ s. record { id = s.id; words = s.words.now } };

    ghost invariant = { λ s. (BLOCK_SIZE ≤ length s.words.now) × (length s.words.now < 2 ^ 32) };
}

impl<'a> Song<'a> {
    // The song with this id and these words of the store.
    pub(crate) fn new(id: u32, words: &'a [u32]) -> Song<'a>
        requires long { 256 ≤ length words.now }
        requires short { length words.now < 2 ^ 32 }
        ensures { result ≡ record { id = id; words = words.now } }
    {
        Song { id, words }
    }

    /// The song's id.
    pub fn id(&self) -> u32
        ensures { result ≡ self.now.id }
    {
        self.id
    }

    /// How many words it has: 256 at least.
    pub fn length(&self) -> u32
        ensures length { result ≡ length self.now.words }
        ensures long { 256 ≤ result }
    {
        self.words.len() as u32
    }

    /// Copies the 256 words from word `q` on, at a tick for each.
    pub fn window<L: Ledger>(&self, q: u32, into: &mut [u32; 256], steps: &mut Steps<L>)
        requires within { q + 256 ≤ length self.now.words }
        ensures words { into.new ≡ take 256 (drop q self.now.words) }
        ensures ticks { steps.new ≡ steps.old + 256 }
    {
        let words = &self.words[q as usize..q as usize + BLOCK_SIZE];
        for j in 0..BLOCK_SIZE {
            steps.tick();
            into[j] = words[j];
        }
    }
}
