// One sample for all channels.
ghost use Rattle.std.specs.Prelude.{◌≡◌, ◌≤◌, ◌*◌, length, negsuc, pos, ◌≤ℤ◌};
ghost use Rattle.hk_spec_sound.specs.Samples.{sample_of, mono_of};

use byteorder::{ByteOrder, LittleEndian};

/// The mean of a group's samples, rounded down. A group has two bytes for each of one or two channels.
pub fn mono(group: &[u8], channels: u8) -> i32
    requires some { 1 ≤ channels }
    requires few { channels ≤ 2 }
    requires whole { length group.now ≡ 2 * channels }
    ensures value { result ≡ mono_of channels group.now }
    ensures from { negsuc 32767 ≤ℤ result }
    ensures to { result ≤ℤ pos 32767 }
{
    if channels == 1 {
        sample(group)
    } else {
        let left = sample(&group[..2]);
        let right = sample(&group[2..]);
        (left + right).div_euclid(2)
    }
}

// The sample in two bytes, the low byte first.
fn sample(bytes: &[u8]) -> i32
    requires { length bytes.now ≡ 2 }
    ensures value { result ≡ sample_of bytes.now }
    ensures from { negsuc 32767 ≤ℤ result }
    ensures to { result ≤ℤ pos 32767 }
{
    i32::from(LittleEndian::read_i16(bytes))
}
