// A few bytes that are kept until they make something whole.
ghost use Rattle.std.specs.Prelude.{◌≡◌, ◌+◌, ◌≤◌, ◌++◌, [], ◌∷◌, ℕ, length, take, drop, slice_index};
ghost use Rattle.std.specs.Int.{w16, w32, from_be_bytes};

use byteorder::{BigEndian, ByteOrder};

/// The first bytes of something, at most twelve of them, in the order in which they came.
#[derive(Clone, Copy, Debug)]
pub struct Gathered {
    bytes: [u8; 12],
    count: usize,
    ghost within: { count ≤ 12 },
    ghost blank: { (place : ℕ) → count ≤ place → slice_index bytes place ≡ 0 },
}

impl Gathered {
    ghost use Rattle.hk_wire.specs.Held.{gathered};

    /// No bytes yet.
    pub fn new() -> Gathered
        ensures { gathered result ≡ [] }
    {
        Gathered {
            bytes: [0; 12],
            count: 0,
        }
    }

    /// Takes one byte more; a thirteenth is let go.
    pub fn push(&mut self, byte: u8)
        ensures { gathered self.new ≡ take 12 (gathered self.old ++ byte ∷ []) }
    {
        if self.count < 12 {
            self.bytes[self.count] = byte;
            self.count += 1;
        }
    }

    /// How many bytes are there.
    pub fn len(&self) -> usize
        ensures { result ≡ length (gathered self.now) }
    {
        self.count
    }

    /// The byte at a place, and 0 where none is there.
    pub fn byte(&self, place: usize) -> u8
        ensures { result ≡ slice_index (gathered self.now) place }
    {
        if place < self.count {
            self.bytes[place]
        } else {
            0
        }
    }

    /// Two bytes from a place on as a number, the high byte first.
    pub fn short(&self, place: usize) -> u16
        requires { place ≤ 8 }
        ensures { result ≡ from_be_bytes w16 (drop place (gathered self.now)) }
    {
        BigEndian::read_u16(&self.bytes[place..])
    }

    /// Four bytes from a place on as a number, the high byte first.
    pub fn number(&self, place: usize) -> u32
        requires { place ≤ 8 }
        ensures { result ≡ from_be_bytes w32 (drop place (gathered self.now)) }
    {
        BigEndian::read_u32(&self.bytes[place..])
    }
}
