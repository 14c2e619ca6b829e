// Words one after another, as many as there is room for.
ghost use Rattle.std.specs.Prelude.{◌≡◌, ◌≤◌, min, length, IfOk};
ghost use Rattle.hk_spec_sound.specs.Limits.{IsInRange, POSITIONS};
ghost use Rattle.hk_operator.specs.WordBuffer.{no_words, cleared, with_word};

use hk_base::NoMemory;
use std::alloc::Global;
use std::marker::Model;

/// The first words, as many as there is room for, and how many came in all.
#[derive(Drop)]
pub struct WordBuffer {
    words: Vec<u32>,
    count: u64,
    room: u32,
}

impl Model for WordBuffer {
    ghost use Rattle.hk_operator.specs.WordBuffer.{Buffered};

    ghost Value = { Buffered };

    ghost use Rattle.hk_operator.specs.Inside.{as_words, IsBuffer};

    ghost view = { as_words };

    ghost invariant = { IsBuffer };
}

impl WordBuffer {
    /// Nothing yet, with room for so many words, which is taken at once.
    pub fn new(alloc: Global, room: u32) -> Result<WordBuffer, NoMemory>
        requires { IsInRange POSITIONS room }
        ensures { IfOk result (λ k. k ≡ no_words room) }
    {
        match Vec::with_capacity(alloc, room as usize) {
            Ok(words) => Ok(WordBuffer {
                words,
                count: 0,
                room,
            }),
            Err(_) => Err(NoMemory),
        }
    }

    /// Forgets the words.
    pub fn clear(&mut self)
        ensures { self.new ≡ cleared self.old }
    {
        self.words.clear();
        self.count = 0;
    }

    /// Takes the next word, which is kept where there is room.
    pub fn push(&mut self, word: u32)
        ensures { self.new ≡ with_word self.old word }
    {
        self.count = self.count.saturating_add(1);
        if self.words.len() < self.room as usize {
            match self.words.push(word) {
                Ok(()) => {}
                Err(_) => unreachable!(),
            }
        }
    }

    /// How many came in all.
    pub fn count(&self) -> u64
        ensures count { result ≡ self.now.count }
        ensures room { self.now.room ≤ POSITIONS.most }
    {
        self.count
    }

    /// A copy of the words that are kept.
    pub fn copied(&self, alloc: Global) -> Result<Vec<u32>, NoMemory>
        ensures words { IfOk result (λ v. v.items ≡ self.now.words) }
        ensures long { IfOk result (λ v. min self.now.count 256 ≤ length v.items) }
        ensures short { IfOk result (λ v. length v.items ≤ POSITIONS.most) }
    {
        match self.words.as_slice().to_vec(alloc) {
            Ok(words) => Ok(words),
            Err(_) => Err(NoMemory),
        }
    }
}
