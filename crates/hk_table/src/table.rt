// The table: where each word stands.
ghost use Rattle.std.specs.Prelude.{◌≡◌, ◌≤◌, ◌<◌, ◌-◌, ◌^◌, length, slice_index_or, IfOk, IsSome, None};
ghost use Rattle.hk_nodes.specs.Store.{IsOrderly};
ghost use Rattle.hk_table.specs.Index.{new_index, slot_at, room, with_words_at, without_words_at, ArePlaces, bucket_size};
ghost use Rattle.hk_table.specs.Songs.{bucket_at, IsLonger};

use crate::{NoMemory, SongBlock, Walk, bucket};
use hk_nodes::{END, Nodes};
use std::alloc::Global;
use std::marker::Model;

/// Slots, each empty or with a song's words, by which the places of a word are found.
#[derive(Drop)]
pub struct Table {
    nodes: Nodes,
    heads: Vec<u32>,
    shift: u32,
}

impl Model for Table {
    ghost use Rattle.hk_table.specs.Index.{Index};

    ghost Value = { Index };

    ghost use Rattle.hk_table.specs.Songs.{as_index, IsKept};

    ghost view = { as_index };

    ghost invariant = { IsKept };
}

// Takes a node for each word of a song, from the last one to the first, and answers the first one's node.
fn take_song(nodes: &mut Nodes, shift: u32, slot: u32, words: &[u32]) -> u32
    requires orderly { IsOrderly nodes.old }
    requires shift { shift < 32 }
    requires buckets { length nodes.old.chains ≡ 2 ^ (32 - shift) }
    requires spare { length words.now ≤ nodes.old.spare }
    requires few { nodes.old.spare < 2 ^ 32 }
    ensures { IsLonger (bucket_at shift) slot 0 nodes.old nodes.new words.now result }
{
    let mut head = END;
    for pos in (0..words.len()).rev() {
        let word = words[pos];
        head = nodes.take(bucket::of(word, shift), word, slot, pos as u32, head);
    }
    head
}

impl Table {
    /// A table of empty slots, with room for 256 to 2^24 words in 1 to 65536 slots. It takes all memory that it needs.
    pub fn new(alloc: Global, positions: u32, songs: u32) -> Result<Table, NoMemory>
        requires enough { 256 ≤ positions }
        requires most { positions ≤ 2 ^ 24 }
        requires some { 1 ≤ songs }
        requires few { songs ≤ 65536 }
        ensures { IfOk result (λ table. table ≡ new_index positions songs) }
    {
        let bits = bucket::bits(positions);
        let nodes = Nodes::new(alloc, positions, 1 << bits)?;
        let mut heads = Vec::new(alloc);
        match heads.resize(songs as usize, END) {
            Ok(()) => Ok(Table {
                nodes,
                heads,
                shift: 32 - bits,
            }),
            Err(_) => Err(NoMemory),
        }
    }

    /// How many words there is room for beside those of its songs.
    pub fn spare(&self) -> u32
        ensures { result ≡ room self.now }
    {
        self.nodes.spare()
    }

    /// Enters a song's words into an empty slot. There is room for them.
    pub fn insert(&mut self, slot: u32, song: &SongBlock)
        requires there { slot < length self.old.slots }
        requires empty { slot_at self.old slot ≡ None }
        requires room { length song.now.words ≤ room self.old }
        ensures { self.new ≡ with_words_at self.old slot song.now.words }
    {
        self.heads[slot as usize] = take_song(&mut self.nodes, self.shift, slot, song.words());
    }

    /// Takes out the words of a slot that holds a song. It looks at these words and those beside them in their buckets.
    pub fn remove(&mut self, slot: u32)
        requires holds { IsSome (slot_at self.old slot) }
        ensures { self.new ≡ without_words_at self.old slot }
    {
        self.nodes.give_song(self.heads[slot as usize]);
        self.heads[slot as usize] = END;
    }

    /// A walk to the places of a word, in no order that a caller may count on.
    pub fn walk(&self, word: u32) -> Walk<'_>
        ensures places { ArePlaces self.now word result.places }
        ensures nodes { result.nodes ≡ bucket_size self.now word }
    {
        Walk::new(&self.nodes, bucket::of(word, self.shift), word)
    }
}
