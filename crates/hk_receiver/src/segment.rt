// The present segment of a stream.
ghost use Rattle.std.specs.Prelude.{◌≡◌, ◌≤◌, ◌<◌, ◌+◌, ◌^◌, ◌++◌, [], ◌∷◌, ◌==◌, ℕ, List, length, take, true, false, IsTrue};
ghost use Rattle.hk_base.specs.declared.plain.Form.{Form};
ghost use Rattle.hk_spec_streams.specs.Blocks.{Setting};
ghost use Rattle.hk_spec_streams.specs.Station.{MayTell, sent_prints};
ghost use Rattle.hk_block.specs.Ring.{MOST_PRINTS, HasLastPrints, is_full};

use hk_base::{Form, Print};
use hk_block::BlockRing;
use hk_front::Front;

/// The segment that a stream is in: its number, which is that of the gaps before it, its last prints, and the last
/// samples of its sound.
#[derive(Drop)]
pub struct Segment {
    front: Front,
    ring: BlockRing,
    number: u64,
}

impl Segment {
    ghost use Rattle.hk_receiver.specs.Segment.{AreFor, HasBytes, Gains, prints_by, ring_in, segment_number};

    /// The first segment of a stream, without a byte, which this front will hear and this ring, that has no print yet, will
    /// keep.
    pub fn new(front: Front, ring: BlockRing) -> Segment
        requires none { HasLastPrints ring [] }
        ensures empty { (s : Setting) → AreFor s front ring → HasBytes s (record { channels = 0; factor = 1 }) result [] }
        ensures first { segment_number result ≡ 0 }
        ensures none { (ring_in result).count ≡ 0 }
    {
        Segment {
            front,
            ring,
            number: 0,
        }
    }

    /// The stream tells its form, before the segment's first byte.
    pub fn start(&mut self, form: Form)
        requires { MayTell form }
        ensures empty { (s : Setting) (before : Form) → HasBytes s before self.old [] → HasBytes s form self.new [] }
        ensures same_number { segment_number self.new ≡ segment_number self.old }
        ensures same_ring { ring_in self.new ≡ ring_in self.old }
    {
        if form.channels != 0 {
            self.front.start(form.channels, form.factor);
        }
    }

    /// Takes a byte of sound, and tells whether it completes a block.
    pub fn hear(&mut self, byte: u8) -> bool
        requires fewer { (ring_in self.old).count < MOST_PRINTS }
        ensures gains { (s : Setting) (form : Form) (bytes : List ℕ) → (form.channels == 0) ≡ false → HasBytes s form self.old bytes
            → Gains s form self.old bytes byte result self.new }
        ensures same_number { segment_number self.new ≡ segment_number self.old }
        ensures few { (ring_in self.new).count ≤ (ring_in self.old).count + 1 }
        ensures full { IsTrue result → IsTrue (is_full (ring_in self.new)) }
    {
        match self.front.push(byte) {
            Some(print) => self.ring.push(print),
            None => false,
        }
    }

    /// Takes a front of these bytes of sound that completes no print, and answers how many bytes it has.
    pub fn listen(&mut self, sound: &[u8]) -> usize
        ensures within { result ≤ length sound.now }
        ensures goes_on { (s : Setting) (form : Form) (bytes : List ℕ) → (form.channels == 0) ≡ false → HasBytes s form self.old bytes
            → HasBytes s form self.new (bytes ++ take result sound.now) }
        ensures no_print { (s : Setting) (form : Form) (bytes : List ℕ) (k : ℕ) → (form.channels == 0) ≡ false → HasBytes s form self.old bytes
            → k ≤ result → prints_by s form (bytes ++ take k sound.now) ≡ prints_by s form bytes }
        ensures same_number { segment_number self.new ≡ segment_number self.old }
        ensures same_ring { ring_in self.new ≡ ring_in self.old }
    {
        self.front.listen(sound)
    }

    /// Takes a print that was sent, and tells whether it completes a block.
    pub fn take(&mut self, print: Print) -> bool
        requires fewer { (ring_in self.old).count < MOST_PRINTS }
        ensures gains { (s : Setting) (form : Form) (bytes : List ℕ) (byte : ℕ) → (form.channels == 0) ≡ true
            → sent_prints (bytes ++ byte ∷ []) ≡ sent_prints bytes ++ print ∷ [] → HasBytes s form self.old bytes
            → Gains s form self.old bytes byte result self.new }
        ensures same_number { segment_number self.new ≡ segment_number self.old }
        ensures few { (ring_in self.new).count ≤ (ring_in self.old).count + 1 }
        ensures full { IsTrue result → IsTrue (is_full (ring_in self.new)) }
    {
        self.ring.push(print)
    }

    /// A gap ends: the next segment begins, in the same form.
    pub fn end(&mut self)
        requires { segment_number self.old + 1 < 2 ^ 64 }
        ensures empty { (s : Setting) (form : Form) (bytes : List ℕ) → HasBytes s form self.old bytes → HasBytes s form self.new [] }
        ensures next { segment_number self.new ≡ segment_number self.old + 1 }
        ensures none { (ring_in self.new).count ≡ 0 }
    {
        self.front.gap();
        self.ring.reset();
        self.number += 1;
    }

    /// Its last prints.
    pub fn ring(&self) -> &BlockRing
        ensures { result.now ≡ ring_in self.now }
    {
        &self.ring
    }

    /// Its number.
    pub fn number(&self) -> u64
        ensures { result ≡ segment_number self.now }
    {
        self.number
    }
}
