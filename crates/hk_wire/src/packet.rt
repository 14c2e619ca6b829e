// The packet that a stream's last byte belongs to.
ghost use Rattle.std.specs.Prelude.{◌≡◌, ◌<◌, ◌+◌, ◌-◌, ◌^◌, ◌≤◌, ◌++◌, ℕ, List, [], ◌∷◌, length, take, drop, slice_index, if◌then◌else◌};
ghost use Rattle.std.specs.Int.{w32, from_be_bytes};

use crate::gathered::Gathered;

/// How many bytes a packet's length has.
#[derive(Clone, Copy, Debug, PartialEq, Eq)]
pub enum LengthSize {
    Two,
    Four,
}

/// The packet that a stream's last byte belongs to: its first bytes, and how many of it came. No packet at all has no
/// bytes.
#[derive(Clone, Copy, Debug)]
pub struct LastPacket {
    size: LengthSize,
    first: Gathered,
    count: u64,
}

impl LastPacket {
    ghost use Rattle.hk_spec_streams.specs.Grammar.{head_size};
    ghost use Rattle.hk_wire.specs.Held.{IsLast, length_size, width_of, count_of, is_over, length_in};

    /// No packet yet.
    pub fn new(size: LengthSize) -> LastPacket
        ensures no_bytes { IsLast result [] }
        ensures size { length_size result ≡ size }
    {
        LastPacket {
            size,
            first: Gathered::new(),
            count: 0,
        }
    }

    /// Takes the stream's next byte: it begins a packet where the last one is over, and else goes to the last one.
    pub fn push(&mut self, byte: u8)
        requires { count_of self.old < 2 ^ 64 - 1 }
        ensures next { (bytes : List ℕ) → IsLast self.old bytes
            → IsLast self.new (if is_over (length_size self.old) bytes then byte ∷ [] else bytes ++ byte ∷ []) }
        ensures size { length_size self.new ≡ length_size self.old }
        ensures most { count_of self.new ≤ count_of self.old + 1 }
    {
        if self.is_over() {
            self.first = Gathered::new();
            self.count = 0;
        }
        self.first.push(byte);
        self.count += 1;
    }

    /// Takes so many bytes at once that go to the last packet, of which the first twelve have come.
    pub fn skip(&mut self, count: u64)
        requires { count_of self.old + count < 2 ^ 64 }
        ensures next { (bytes more : List ℕ) → IsLast self.old bytes → 12 ≤ length bytes → length more ≡ count → IsLast self.new (bytes ++ more) }
        ensures size { length_size self.new ≡ length_size self.old }
        ensures count { count_of self.new ≡ count_of self.old + count }
    {
        self.count += count;
    }

    /// Whether the next byte begins a packet.
    pub fn is_over(&self) -> bool
        ensures { (bytes : List ℕ) → IsLast self.now bytes → result ≡ is_over (length_size self.now) bytes }
    {
        self.count == 0 || self.count == self.head_size() + u64::from(self.length())
    }

    /// How many bytes a packet's kind and length are.
    pub fn head_size(&self) -> u64
        ensures { result ≡ head_size (width_of (length_size self.now)) }
    {
        match self.size {
            LengthSize::Two => 3,
            LengthSize::Four => 5,
        }
    }

    /// How many bytes of the packet came.
    pub fn count(&self) -> u64
        ensures value { result ≡ count_of self.now }
        ensures bytes { (bytes : List ℕ) → IsLast self.now bytes → result ≡ length bytes }
    {
        self.count
    }

    /// The packet's kind, and 0 before it came.
    pub fn kind(&self) -> u8
        ensures { (bytes : List ℕ) → IsLast self.now bytes → result ≡ slice_index bytes 0 }
    {
        self.first.byte(0)
    }

    /// The packet's length, where its bytes that didn't come count as 0.
    pub fn length(&self) -> u32
        ensures { (bytes : List ℕ) → IsLast self.now bytes → result ≡ length_in (length_size self.now) bytes }
    {
        match self.size {
            LengthSize::Two => u32::from(self.first.short(1)),
            LengthSize::Four => self.first.number(1),
        }
    }

    /// Four of the packet's first twelve bytes, from a place on, as a number.
    pub fn number(&self, place: usize) -> u32
        requires { place ≤ 8 }
        ensures { (bytes : List ℕ) → IsLast self.now bytes → result ≡ from_be_bytes w32 (take 4 (drop place bytes)) }
    {
        self.first.number(place)
    }

    /// One of the packet's first twelve bytes.
    pub fn byte(&self, place: usize) -> u8
        requires { place < 12 }
        ensures { (bytes : List ℕ) → IsLast self.now bytes → result ≡ slice_index bytes place }
    {
        self.first.byte(place)
    }
}
