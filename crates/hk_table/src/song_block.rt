// A song on its way into a catalogue.
ghost use Rattle.std.specs.Prelude.{◌≡◌, ◌≤◌, ◌^◌, length};

use std::marker::Model;

/// A song's id and its words.
#[derive(Drop)]
pub struct SongBlock {
    id: u32,
    words: Vec<u32>,
}

impl Model for SongBlock {
    ghost use Rattle.std.specs.Prelude.{◌≤◌, ◌^◌, vec_len};
    ghost use Rattle.hk_table.specs.Store.{SongWithId, BLOCK_SIZE};

    ghost Value = { SongWithId };

    ghost view = { λ b. record { id = b.id; words = b.words.items } };

    ghost invariant = { λ b. (BLOCK_SIZE ≤ vec_len b.words) × (vec_len b.words ≤ 2 ^ 24) };
}

impl SongBlock {
    /// A song of 256 to 2^24 words.
    pub fn new(id: u32, words: Vec<u32>) -> SongBlock
        requires long { 256 ≤ length words.items }
        requires short { length words.items ≤ 2 ^ 24 }
        ensures id { result.id ≡ id }
        ensures words { result.words ≡ words.items }
    {
        SongBlock { id, words }
    }

    /// The song's id.
    pub fn id(&self) -> u32
        ensures { result ≡ self.now.id }
    {
        self.id
    }

    /// How many words it has: 256 to 2^24.
    pub fn length(&self) -> u32
        ensures length { result ≡ length self.now.words }
        ensures long { 256 ≤ result }
        ensures short { result ≤ 2 ^ 24 }
    {
        self.words.len() as u32
    }

    // Its words, for the store that copies them.
    pub(crate) fn words(&self) -> &[u32]
        ensures words { result.now ≡ self.now.words }
        ensures long { 256 ≤ length result.now }
    {
        self.words.as_slice()
    }
}
