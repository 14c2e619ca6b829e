// Prints beside as many words of a song.
ghost use Rattle.std.specs.Prelude.{◌≡◌, ◌≤◌, ◌<◌, IsTrue};
ghost use Rattle.hk_spec_matching.specs.Matching.{is_hit, words_of};
ghost use Rattle.hk_block.specs.Ring.{is_full, query_of};

use hk_base::{Match, Print};
use hk_block::BlockRing;
use hk_errors::within;
use hk_weak::Submasks;

pub const BLOCK_SIZE: usize = 256;

// The errors that a match may have: 0.35 of the bits of a block, rounded down.
const MOST_ERRORS: u32 = 2867;

/// What is looked up: the prints of a block, and their words alone.
#[derive(Drop)]
pub struct Block {
    pub prints: [Print; 256],
    pub words: [u32; 256],
    ghost words_are: { words ≡ words_of prints },
}

impl Block {
    ghost use Rattle.hk_probe.specs.Comparison.{query_in, subsets_for, first_hit, IsMatchAt, IsFirstMatchAt, match_within};

    /// What is looked up of a ring.
    pub fn of(ring: &BlockRing) -> Block
        requires full { IsTrue (is_full ring.now) }
        ensures { query_in result ≡ query_of ring.now }
    {
        Block::new(ring.prints())
    }

    /// The bits that are flipped together where one of its prints is looked up.
    pub fn subsets(&self, print: Print) -> Submasks
        ensures { result ≡ subsets_for (query_in self.now) print }
    {
        Submasks::new(print.mask)
    }

    // The block of these prints.
    fn new(prints: [Print; 256]) -> Block
        ensures { result.prints ≡ prints }
    {
        let mut words = [0; BLOCK_SIZE];
        for j in 0..BLOCK_SIZE {
            words[j] = prints[j].word;
        }
        Block { prints, words }
    }

    // The match at a start of a song, whose words from there on are these, where its errors are within the limit.
    fn match_within(&self, id: u32, start: u32, words: &[u32; 256]) -> Option<Match>
        ensures { result ≡ match_within self.now.prints id start words.now }
    {
        let errors = within(&self.words, words, MOST_ERRORS)?;
        Some(Match { id, start, errors })
    }

    /// The match at a start of a song, whose words from there on are these.
    pub fn match_at(&self, id: u32, start: u32, words: &[u32; 256]) -> Option<Match>
        ensures { IsMatchAt (query_in self.now) id start words.now result }
    {
        if self.first_hit(words) < BLOCK_SIZE {
            self.match_within(id, start, words)
        } else {
            None
        }
    }

    /// The match at a start of a song, where print `j` is the first that hits there.
    pub fn first_match_at(&self, j: usize, id: u32, start: u32, words: &[u32; 256]) -> Option<Match>
        requires { j < 256 }
        ensures { IsFirstMatchAt (query_in self.now) j id start words.now result }
    {
        if self.first_hit(words) == j {
            self.match_within(id, start, words)
        } else {
            None
        }
    }

    // Whether a print of the block differs from a word in no bits but such as may be flipped.
    fn is_hit(&self, print: Print, word: u32) -> bool
        ensures { result ≡ is_hit (query_in self.now) (print, word) }
    {
        let difference = print.word ^ word;
        difference & print.mask == difference
    }

    // The first print that hits the word beside it, and 256 where there is none.
    fn first_hit(&self, words: &[u32; 256]) -> usize
        ensures first { result ≡ first_hit (query_in self.now) words.now }
        ensures most { result ≤ 256 }
    {
        for j in 0..BLOCK_SIZE {
            if self.is_hit(self.prints[j], words[j]) {
                return j;
            }
        }
        BLOCK_SIZE
    }
}
