// Ranges of numbers.
ghost use Rattle.std.specs.Prelude.{◌≡◌};
ghost use Rattle.hk_spec_sound.specs.Limits.{is_within};
ghost use Rattle.hk_limits.specs.Ranges.{range_meant};

/// From one number to another, both among them.
#[derive(Clone, Copy, Debug)]
pub struct Range {
    pub least: u64,
    pub most: u64,
}

impl Range {
    /// How many bits of a print may be weak.
    pub const FLIPS: Range = Range { least: 0, most: 10 };

    /// The prints from a block to the next, at most those of a block.
    pub const HOP: Range = Range {
        least: 1,
        most: 256,
    };

    /// The stations of a run.
    pub const STATIONS: Range = Range { least: 1, most: 64 };

    /// How many songs there may be.
    pub const SONGS: Range = Range {
        least: 1,
        most: 65536,
    };

    /// How many words of all songs.
    pub const POSITIONS: Range = Range {
        least: 256,
        most: 16777216,
    };

    /// How many versions.
    pub const VERSIONS: Range = Range {
        least: 1,
        most: 1000000000,
    };

    /// The bytes of a stream, and of an input.
    pub const BYTES: Range = Range {
        least: 1,
        most: 4000000000000000000,
    };

    /// The seed of an input that is made.
    pub const SEED: Range = Range {
        least: 0,
        most: 2147483647,
    };

    /// Whether a number is in the range.
    pub fn holds(&self, number: u64) -> bool
        ensures { result ≡ is_within (range_meant self.now) number }
    {
        self.least <= number && number <= self.most
    }
}
