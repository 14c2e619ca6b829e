// A block against the places in the catalogue where its words stand.
ghost use Rattle.std.specs.Prelude.{◌≡◌, ◌≤◌, ◌<◌, ◌+◌, ◌*◌, ◌++◌, length, IsTrue};
ghost use Rattle.hk_spec_matching.specs.Cost.{cost};
ghost use Rattle.hk_block.specs.Ring.{is_full, query_of};
ghost use Rattle.hk_block.specs.Looker.{matches_in};
ghost use Rattle.hk_catalogue.specs.Shelves.{songs_of};
ghost use Rattle.hk_catalogue.specs.CatalogueInside.{IsShelved};
ghost use Rattle.hk_probe.specs.Comparison.{query_in};
ghost use Rattle.hk_probe.specs.Search.{found_at, found_of, found_by, numbered, nodes_of, nodes_by, HaveSame};

use crate::comparison::{BLOCK_SIZE, Block};
use hk_base::{Match, Steps};
use hk_block::{BlockRing, Scratch};
use hk_catalogue::Catalogue;
use hk_table::Place;
use std::sync::ledger::Ledger;

/// Leaves the matches of the ring's last 256 prints in the catalogue's songs, by id and then by start. It visits the nodes in
/// the buckets of the words that are looked up, and reads one window at most for each, at a tick for each node and each word.
#[inline(never)]
pub fn look<L: Ledger>(
    catalogue: &Catalogue,
    ring: &BlockRing,
    scratch: &mut Scratch,
    steps: &mut Steps<L>,
)
    requires full { IsTrue (is_full ring.now) }
    requires space { catalogue.now.store.positions ≤ scratch.old.room }
    ensures list { scratch.new.matches ≡ matches_in ring.now (songs_of catalogue.now) }
    ensures room { scratch.new.room ≡ scratch.old.room }
    ensures ticks { steps.new ≤ steps.old + 257 * cost catalogue.now.store.positions (query_of ring.now) (songs_of catalogue.now) }
{
    scratch.clear();
    if catalogue.count() == 0 {
        return;
    }
    let block = Block::of(ring);
    let mut window = [0; BLOCK_SIZE];
    for j in 0..BLOCK_SIZE {
        look_up_print(catalogue, j, &block, &mut window, scratch, steps);
    }
    scratch.order();
}

// Puts what the words give that are looked up for print j.
fn look_up_print<L: Ledger>(
    catalogue: &Catalogue,
    j: usize,
    block: &Block,
    window: &mut [u32; 256],
    scratch: &mut Scratch,
    steps: &mut Steps<L>,
)
    requires shelved { IsShelved catalogue.now }
    requires inside { j < 256 }
    requires space { length scratch.old.matches + length (found_by (query_in block.now) (songs_of catalogue.now) (numbered j block.now.prints)) ≤ scratch.old.room }
    ensures found { HaveSame scratch.new.matches (scratch.old.matches ++ found_by (query_in block.now) (songs_of catalogue.now) (numbered j block.now.prints)) }
    ensures room { scratch.new.room ≡ scratch.old.room }
    ensures ticks { steps.new ≤ steps.old + 257 * nodes_by catalogue.now.store.positions (query_in block.now) (songs_of catalogue.now) (numbered j block.now.prints).1 }
{
    let print = block.prints[j];
    for subset in block.subsets(print) {
        look_up_word(
            catalogue,
            print.word ^ subset,
            j,
            block,
            window,
            scratch,
            steps,
        );
    }
}

// Puts what the places of a word give that is looked up for print j.
fn look_up_word<L: Ledger>(
    catalogue: &Catalogue,
    word: u32,
    j: usize,
    block: &Block,
    window: &mut [u32; 256],
    scratch: &mut Scratch,
    steps: &mut Steps<L>,
)
    requires shelved { IsShelved catalogue.now }
    requires inside { j < 256 }
    requires space { length scratch.old.matches + length (found_of (query_in block.now) (songs_of catalogue.now) j word) ≤ scratch.old.room }
    ensures found { HaveSame scratch.new.matches (scratch.old.matches ++ found_of (query_in block.now) (songs_of catalogue.now) j word) }
    ensures room { scratch.new.room ≡ scratch.old.room }
    ensures ticks { steps.new ≤ steps.old + 257 * nodes_of catalogue.now.store.positions (songs_of catalogue.now) word }
{
    let mut walk = catalogue.walk(word);
    while let Some(place) = walk.advance(steps) {
        if let Some(found) = found_at(catalogue, place, j, block, window, steps) {
            scratch.put(found);
        }
    }
}

// The match at the start that puts print j beside a place, where print j is the first that hits there.
fn found_at<L: Ledger>(
    catalogue: &Catalogue,
    place: Place,
    j: usize,
    block: &Block,
    window: &mut [u32; 256],
    steps: &mut Steps<L>,
) -> Option<Match>
    requires { j < 256 }
    ensures found { result ≡ found_at (query_in block.now) catalogue.now.store j place }
    ensures ticks { steps.new ≤ steps.old + 256 }
{
    let song = catalogue.song(place.slot)?;
    let start = place.pos.checked_sub(j as u32)?;
    if start > song.length() - BLOCK_SIZE as u32 {
        return None;
    }
    song.window(start, window, steps);
    block.first_match_at(j, song.id(), start, window)
}
