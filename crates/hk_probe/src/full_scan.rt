// A block against every start of every song.
ghost use Rattle.std.specs.Prelude.{◌≡◌, ◌≤◌, ◌+◌, ◌++◌, length, IsTrue};
ghost use Rattle.hk_spec_matching.specs.Matching.{matches_of_song};
ghost use Rattle.hk_block.specs.Ring.{is_full};
ghost use Rattle.hk_block.specs.Looker.{matches_in};
ghost use Rattle.hk_catalogue.specs.Shelves.{songs_of, entry_of};
ghost use Rattle.hk_probe.specs.Comparison.{query_in};

use crate::comparison::{BLOCK_SIZE, Block};
use hk_base::Steps;
use hk_block::{BlockRing, Scratch};
use hk_catalogue::Catalogue;
use hk_table::Song;
use std::sync::ledger::Ledger;

/// Leaves the matches of the ring's last 256 prints in the catalogue's songs, by id and then by start. It reads each window
/// of each song, at a tick for each word.
#[inline(never)]
pub fn scan<L: Ledger>(
    catalogue: &Catalogue,
    ring: &BlockRing,
    scratch: &mut Scratch,
    steps: &mut Steps<L>,
)
    requires full { IsTrue (is_full ring.now) }
    requires space { catalogue.now.store.positions ≤ scratch.old.room }
    ensures list { scratch.new.matches ≡ matches_in ring.now (songs_of catalogue.now) }
    ensures room { scratch.new.room ≡ scratch.old.room }
{
    let block = Block::of(ring);
    scratch.clear();
    for n in 0..catalogue.count() {
        list_song(&catalogue.nth(n), &block, scratch, steps);
    }
}

// Appends the matches in one song.
fn list_song<L: Ledger>(song: &Song<'_>, block: &Block, scratch: &mut Scratch, steps: &mut Steps<L>)
    requires space { length scratch.old.matches + length song.now.words ≤ scratch.old.room }
    ensures list { scratch.new.matches ≡ scratch.old.matches ++ matches_of_song (query_in block.now) (entry_of song.now) }
    ensures count { length scratch.new.matches ≤ length scratch.old.matches + length song.now.words }
    ensures room { scratch.new.room ≡ scratch.old.room }
{
    let mut window = [0; BLOCK_SIZE];
    for start in 0..song.length() - (BLOCK_SIZE as u32 - 1) {
        song.window(start, &mut window, steps);
        if let Some(found) = block.match_at(song.id(), start, &window) {
            scratch.put(found);
        }
    }
}
