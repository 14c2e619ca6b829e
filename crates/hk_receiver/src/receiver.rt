// From a station's bytes to its blocks and fences.
ghost use Rattle.std.specs.Prelude.{◌≡◌, ◌≤◌, ◌<◌, ◌+◌, ◌-◌, ◌^◌, ◌++◌, [], ℕ, List, length, take, IsTrue, true, if◌then◌else◌};
ghost use Rattle.std.specs.Result.{result_err};
ghost use Rattle.hk_spec_streams.specs.Station.{station_wrong};
ghost use Rattle.hk_spec_streams.specs.Blocks.{head_of};
ghost use Rattle.hk_spec_settings.specs.Settings.{Rules};
ghost use Rattle.hk_station_wire.specs.Taken.{limit_of, count_taken};
ghost use Rattle.hk_block.specs.Ring.{HasLastPrints, is_full};
ghost use Rattle.hk_receiver.specs.Segment.{AreFor, ring_in, segment_number};
ghost use Rattle.hk_receiver.specs.Kept.{MOST_BYTES};

use crate::segment::Segment;
use hk_base::{Head, WireFault};
use hk_block::BlockRing;
use hk_front::Front;
use hk_station_wire::{Item, Wire};

/// What a byte completes: nothing that is looked up, a block, a fence with the version that it asks for, or the stream's
/// fault.
#[derive(Clone, Copy, Debug, PartialEq, Eq)]
pub enum Received {
    Nothing,
    Block,
    Fence(u32),
    Fault(WireFault),
}

/// A stream as far as it was received: its place, its present segment, and how many blocks it brought.
#[derive(Drop)]
pub struct Receiver {
    wire: Wire,
    segment: Segment,
    blocks: u64,
    ghost limit: { limit_of wire ≤ MOST_BYTES },
    ghost within: { count_taken wire ≤ limit_of wire },
    ghost fewer_prints: { (ring_in segment).count ≤ count_taken wire },
    ghost fewer_segments: { segment_number segment ≤ count_taken wire },
    ghost fewer_blocks: { blocks ≤ count_taken wire },
}

impl Receiver {
    ghost use Rattle.hk_receiver.specs.Received.{HasReceived, Tells, ForEachText, ring_of, block_of, block_count};
    ghost use Rattle.hk_receiver.specs.Quiet.{AreQuiet};

    /// A receiver before its first byte, of a stream of at most `limit` bytes. The front hears its sound, and the ring, that
    /// has no print yet, keeps its prints.
    pub fn new(front: Front, ring: BlockRing, limit: u64) -> Receiver
        requires none { HasLastPrints ring [] }
        requires limit { limit ≤ MOST_BYTES }
        ensures { (rules : Rules) → AreFor rules.setting front ring → rules.bytes ≡ limit → HasReceived rules result [] }
    {
        Receiver {
            wire: Wire::new(limit),
            segment: Segment::new(front, ring),
            blocks: 0,
        }
    }

    /// Takes the stream's next byte, and tells what it completes.
    pub fn push(&mut self, byte: u8) -> Received
        ensures tells { ForEachText self.old (λ rules text. Tells result rules text byte self.new) }
        ensures full { result ≡ Received.Block → IsTrue (is_full (ring_of self.new)) }
        ensures counts { result ≡ Received.Block → block_count self.old < block_count self.new }
        ensures few { result ≡ Received.Block → block_count self.new ≤ MOST_BYTES }
        ensures never_falls { block_count self.old ≤ block_count self.new }
    {
        match self.wire.push(byte) {
            Item::Nothing => Received::Nothing,
            Item::Hello(form) => {
                self.segment.start(form);
                Received::Nothing
            }
            Item::Byte(sound) => {
                let full = self.segment.hear(sound);
                count_block(&mut self.blocks, full)
            }
            Item::Print(print) => {
                let full = self.segment.take(print);
                count_block(&mut self.blocks, full)
            }
            Item::Fence(asked) => Received::Fence(asked),
            Item::Gap => {
                self.segment.end();
                Received::Nothing
            }
            Item::Fault(fault) => Received::Fault(fault),
        }
    }

    /// Takes a front of the piece that is sound and completes nothing, and answers how many bytes it has.
    pub fn listen(&mut self, piece: &[u8]) -> usize
        ensures within { result ≤ length piece.now }
        ensures goes_on { ForEachText self.old (λ rules text. HasReceived rules self.new (text ++ take result piece.now)) }
        ensures quiet { ForEachText self.old (λ rules text. AreQuiet rules text (take result piece.now)) }
        ensures blocks_stay { block_count self.new ≡ block_count self.old }
    {
        let most = self.wire.stretch().min(piece.len() as u64) as usize;
        if most == 0 {
            return 0;
        }
        let count = self.segment.listen(&piece[..most]);
        self.wire.skip(count as u64);
        count
    }

    /// Whether the stream may end here: Ok at a packet's border behind the hello, and else the fault that was met, or Cut
    /// with the number of bytes. Changes nothing.
    pub fn finish(&mut self) -> Result<(), WireFault>
        ensures outcome { ForEachText self.old (λ rules text. result_err result ≡ station_wrong rules.bytes text) }
        ensures changes_nothing { self.new ≡ self.old }
    {
        self.wire.finish()
    }

    /// The last prints of the present segment.
    pub fn ring(&self) -> &BlockRing
        ensures { result.now ≡ ring_of self.now }
    {
        self.segment.ring()
    }

    /// What the report of the block that the last print completed says before its list: it is a station's block with this
    /// number, looked up at this version.
    pub fn head(&self, station: u8, block: u64, version: u32) -> Head
        requires { IsTrue (is_full (ring_of self.now)) }
        ensures { result ≡ head_of station block (block_of self.now) version }
    {
        Head {
            station,
            block,
            segment: self.segment.number(),
            first: self.ring().first_word(),
            version,
        }
    }
}

// Counts a block that was completed, and tells it.
fn count_block(blocks: &mut u64, full: bool) -> Received
    requires { blocks.old < 2 ^ 64 - 1 }
    ensures tells { result ≡ (if full then Received.Block else Received.Nothing) }
    ensures counts { blocks.new ≡ blocks.old + (if full then 1 else 0) }
{
    if full {
        *blocks += 1;
        Received::Block
    } else {
        Received::Nothing
    }
}
