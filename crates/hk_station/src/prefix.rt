// The law of prefixes.
ghost use Rattle.std.specs.Prelude.{◌≤◌, length};
ghost use Rattle.hk_spec_sound.specs.Prints.{full_analysis};
ghost use Rattle.hk_station.specs.Prefix.{FrontHasFront};

/// The blocks of the first `n` bytes of a stream are the first of the blocks of all its bytes, whatever its limit: a stream
/// that is cut short reports no block that the whole stream doesn't have. The law is its contract; it does nothing.
pub fn blocks_of_prefix(bytes: &[u8], n: usize, k: u32, hop: u32)
    requires within { n ≤ length bytes.now }
    requires flips { k ≤ 10 }
    requires some { 1 ≤ hop }
    requires most { hop ≤ 256 }
    ensures { FrontHasFront (record { analysis = full_analysis; flips = k; block = record { size = 256; hop = hop } }) n bytes.now }
{}
