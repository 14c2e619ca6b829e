// The prints of the present segment, of which the last 256 are kept.
ghost use Rattle.std.specs.Prelude.{◌≡◌, ◌≤◌, ◌<◌, ◌+◌, [], IfOk, IsTrue, slice_get, Some};
ghost use Rattle.hk_block.specs.Ring.{HasLastPrints, Takes, AddsBlock, PlacesBlock, BLOCK_SIZE, MOST_PRINTS, is_full, first_word, completes_block};

use circular_buffer::HeapCircularBuffer;
use hk_base::{NoMemory, Print};
use std::alloc::Global;
use std::marker::Model;

const BLOCK_SIZE: usize = 256;

/// The last 256 prints of a segment, and how many came.
#[derive(Drop)]
pub struct BlockRing {
    last: HeapCircularBuffer<Print>,
    count: u64,
    hop: u32,
}

impl Model for BlockRing {
    ghost use Rattle.hk_block.specs.Ring.{Ring, BLOCK_SIZE};
    ghost use Rattle.std.specs.Prelude.{◌≡◌, ◌≤◌, length, min};

    ghost Value = { Ring };

    ghost view = { λ r. record { last = r.last.items; count = r.count; block = record { size = BLOCK_SIZE; hop = r.hop } } };

    ghost invariant = { λ r. (r.last.capacity ≡ BLOCK_SIZE) × (length r.last.items ≡ min BLOCK_SIZE r.count) × (1 ≤ r.hop) × (r.hop ≤ 256) };
}

impl BlockRing {
    /// A ring that has taken no print, for blocks that begin `hop` prints apart. It takes all memory that it needs.
    pub fn new(alloc: Global, hop: u32) -> Result<BlockRing, NoMemory>
        requires some { 1 ≤ hop }
        requires most { hop ≤ 256 }
        ensures empty { IfOk result (λ ring. HasLastPrints ring []) }
        ensures block { IfOk result (λ ring. ring.block ≡ record { size = BLOCK_SIZE; hop = hop }) }
    {
        match HeapCircularBuffer::with_capacity(alloc, BLOCK_SIZE) {
            Ok(last) => Ok(BlockRing {
                last,
                count: 0,
                hop,
            }),
            Err(_) => Err(NoMemory),
        }
    }

    /// Takes the next print of the segment, and answers whether it completes a block: 256 prints came, and the first of
    /// the last 256 stands a multiple of the hop from the segment's first.
    pub fn push(&mut self, p: Print) -> bool
        requires fewer { self.old.count < MOST_PRINTS }
        ensures counts { self.new.count ≡ self.old.count + 1 }
        ensures takes { Takes self.old p self.new }
        ensures completes { result ≡ completes_block self.new }
        ensures adds { AddsBlock self.old p self.new }
        ensures places { PlacesBlock self.old p self.new }
    {
        self.last.push_back(p);
        self.count += 1;
        self.full() && (self.first_word() % (self.hop as u64) == 0)
    }

    /// Whether 256 prints came.
    pub fn full(&self) -> bool
        ensures full { result ≡ is_full self.now }
    {
        self.count >= BLOCK_SIZE as u64
    }

    /// Print `j` of the last 256, from 0.
    pub fn print_at(&self, j: usize) -> Print
        requires full { IsTrue (is_full self.now) }
        requires inside { j < 256 }
        ensures print { slice_get self.now.last j ≡ Some result }
    {
        match self.last.get(j) {
            Some(print) => *print,
            None => unreachable!(),
        }
    }

    /// The place in the segment, from 0, of the first of the last 256 prints.
    pub fn first_word(&self) -> u64
        requires full { IsTrue (is_full self.now) }
        ensures place { result ≡ first_word self.now }
    {
        self.count - BLOCK_SIZE as u64
    }

    /// The last 256 prints, in order.
    pub fn prints(&self) -> [Print; 256]
        requires full { IsTrue (is_full self.now) }
        ensures prints { result ≡ self.now.last }
    {
        let _ = &self.last;
        let mut prints = [Print { word: 0, mask: 0 }; 256];
        for j in 0..BLOCK_SIZE {
            prints[j] = self.print_at(j);
        }
        prints
    }

    /// Begins a new segment: no print was taken. The hop stays.
    pub fn reset(&mut self)
        ensures empty { HasLastPrints self.new [] }
        ensures block { self.new.block ≡ self.old.block }
    {
        self.last.clear();
        self.count = 0;
    }
}
