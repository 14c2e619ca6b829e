// How the bands' energies change from one frame to the next.
ghost use Rattle.std.specs.Prelude.{◌≡◌, ◌<◌, ◌+◌, ◌^◌, pos, ◌-ℤ◌, nat_abs, slice_index};
ghost use Rattle.std.specs.List.{All};
ghost use Rattle.hk_spec_sound.specs.Spectrum.{AreBelow};
ghost use Rattle.hk_spec_sound.specs.Prints.{differences};

use hk_bands::Energies;

/// For each bit m the difference E(now, m) - E(now, m + 1) - (E(before, m) - E(before, m + 1)), with the energies of bands
/// m and m + 1 (Haitsma and Kalker, ISMIR 2002, section 4). Every energy is below 2^80, and each difference is below 2^82
/// in magnitude.
pub fn differences(now: &Energies, before: &Energies) -> [i128; 32]
    requires now_below { All (λ e. e < 2 ^ 80) now.now.band }
    requires before_below { All (λ e. e < 2 ^ 80) before.now.band }
    ensures differences { result ≡ differences before.now.band now.now.band }
    ensures below { AreBelow (2 ^ 82) result }
{
    changes(&now.band, &before.band)
}

// The differences of these two lists of energies.
fn changes(now: &[u128; 33], before: &[u128; 33]) -> [i128; 32]
    requires now_below { All (λ e. e < 2 ^ 80) now.now }
    requires before_below { All (λ e. e < 2 ^ 80) before.now }
    ensures differences { result ≡ differences before.now now.now }
    ensures below { AreBelow (2 ^ 82) result }
{
    let mut differences = [0; 32];
    for m in 0..32 {
        differences[m] = fall(now, m) - fall(before, m);
    }
    differences
}

// How far the energy falls from band m to the next.
fn fall(energies: &[u128; 33], m: usize) -> i128
    requires inside { m < 32 }
    requires energies_below { All (λ e. e < 2 ^ 80) energies.now }
    ensures value { result ≡ pos (slice_index energies.now m) -ℤ pos (slice_index energies.now (m + 1)) }
    ensures below { nat_abs result < 2 ^ 80 }
{
    energies[m] as i128 - energies[m + 1] as i128
}
