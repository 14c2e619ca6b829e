// The channels of sound, and the factors by which it is decimated.
ghost use Rattle.std.specs.Prelude.{◌≡◌, ◌==◌};
ghost use Rattle.std.specs.List.{list_any};
ghost use Rattle.hk_spec_sound.specs.Limits as limits;

static CHANNELS: [u64; 2] = [1, 2];

static FACTORS: [u64; 4] = [1, 2, 4, 8];

/// Whether sound may have so many channels.
pub fn allows_channels(channels: u64) -> bool
    ensures { result ≡ list_any (λ allowed. allowed == channels) limits.CHANNELS }
{
    CHANNELS.contains(&channels)
}

/// Whether sound may be decimated by this factor.
pub fn allows_factor(factor: u64) -> bool
    ensures { result ≡ list_any (λ allowed. allowed == factor) limits.FACTORS }
{
    FACTORS.contains(&factor)
}
