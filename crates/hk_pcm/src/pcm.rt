// The reader.
ghost use Rattle.std.specs.Prelude.{◌≡◌, ◌≤◌, ◌<◌, ◌*◌, ◌++◌, [], ◌∷◌, ℕ, List, length, take, IsTrue, negsuc, pos, ◌≤ℤ◌, IfSome};
ghost use Rattle.std.specs.Option.{option_to_list};
ghost use Rattle.hk_spec_sound.specs.Samples.{samples_of};
ghost use Rattle.hk_pcm.specs.Sampling.{HasSampled};

use crate::mono::mono;
use std::marker::Model;

/// A reader of signed 16-bit little-endian sound of one or two channels.
#[derive(Drop)]
pub struct Pcm {
    channels: u8,
    group: [u8; 4],
    len: usize,
}

impl Model for Pcm {
    ghost use Rattle.std.specs.Prelude.{◌≤◌, ◌<◌, ◌*◌, take};
    ghost use Rattle.hk_pcm.specs.Sampling.{Sampling};

    ghost Value = { Sampling };

    ghost view = { λ p. record { channels = p.channels; group = take p.len p.group } };

    ghost invariant = { λ p. (1 ≤ p.channels) × (p.channels ≤ 2) × (p.len < 2 * p.channels) };
}

impl Pcm {
    /// A reader that has taken nothing. There are one or two channels; with two, left and right alternate.
    pub fn new(channels: u8) -> Pcm
        requires some { 1 ≤ channels }
        requires few { channels ≤ 2 }
        ensures channels { result.channels ≡ channels }
        ensures taken { HasSampled result [] }
    {
        Pcm {
            channels,
            group: [0; 4],
            len: 0,
        }
    }

    /// Takes one byte. Gives a mono sample exactly where the byte completes one, from -32768 to 32767.
    pub fn push(&mut self, byte: u8) -> Option<i32>
        ensures channels { self.new.channels ≡ self.old.channels }
        ensures taken { (bytes : List ℕ) → HasSampled self.old bytes → HasSampled self.new (bytes ++ byte ∷ []) }
        ensures sample { (bytes : List ℕ)
            → HasSampled self.old bytes
            → samples_of self.old.channels (bytes ++ byte ∷ []) ≡ samples_of self.old.channels bytes ++ option_to_list result }
        ensures from { IfSome result (λ sample. negsuc 32767 ≤ℤ sample) }
        ensures to { IfSome result (λ sample. sample ≤ℤ pos 32767) }
    {
        let whole = 2 * self.channels as usize;
        self.group[self.len] = byte;
        self.len += 1;
        if self.len < whole {
            return None;
        }
        self.len = 0;
        Some(mono(&self.group[..whole], self.channels))
    }

    /// How many bytes a group has: two for each channel.
    pub fn group_size(&self) -> usize
        ensures value { result ≡ 2 * self.now.channels }
        ensures some { 1 ≤ result }
    {
        2 * self.channels as usize
    }

    /// Whether no group has begun.
    pub fn is_between_groups(&self) -> bool
        ensures none { IsTrue result → self.now.group ≡ [] }
    {
        self.len == 0
    }

    /// The mono sample of a whole group that comes where none has begun, from -32768 to 32767. It is as if its bytes were
    /// pushed, and leaves the reader as it is.
    pub fn read_group(&self, group: &[u8]) -> i32
        requires between { self.now.group ≡ [] }
        requires whole { length group.now ≡ 2 * self.now.channels }
        ensures taken { (bytes : List ℕ) → HasSampled self.now bytes → HasSampled self.now (bytes ++ group.now) }
        ensures sample { (bytes : List ℕ)
            → HasSampled self.now bytes
            → samples_of self.now.channels (bytes ++ group.now) ≡ samples_of self.now.channels bytes ++ result ∷ [] }
        ensures not_before { (bytes : List ℕ) (k : ℕ)
            → HasSampled self.now bytes
            → k < length group.now
            → samples_of self.now.channels (bytes ++ take k group.now) ≡ samples_of self.now.channels bytes }
        ensures from { negsuc 32767 ≤ℤ result }
        ensures to { result ≤ℤ pos 32767 }
    {
        mono(group, self.channels)
    }

    /// Begins anew: the bytes of a group that is not whole are dropped.
    pub fn reset(&mut self)
        ensures channels { self.new.channels ≡ self.old.channels }
        ensures taken { HasSampled self.new [] }
    {
        self.len = 0;
    }
}
