// The expected numbers are those that tools/sound_vectors.py prints.
ghost use Rattle.std.specs.Prelude.{◌≡◌, ◌<◌, ◌^◌, nat_abs, pos};
ghost use Rattle.hk_spec_sound.specs.Spectrum.{AreBelow};

use crate::band_energies;
use std::test::Fail;

// A step of a pseudo-random sequence.
fn next(state: u64) -> u64 {
    state
        .wrapping_mul(6364136223846793005)
        .wrapping_add(1442695040888963407)
}

// Fills a list with pseudo-random parts of 34 bits, and answers the last state.
fn fill(parts: &mut [i64; 2048], mut state: u64) -> u64
    ensures { AreBelow (2 ^ 34) parts.new }
{
    *parts = [0; 2048];
    for k in 0..2048 {
        state = next(state);
        parts[k] = (state >> 30) as i64 - (1 << 33);
    }
    state
}

#[test]
fn pseudo_random_spectrum(rt: HostRuntime) -> Result<(), Fail> {
    let mut re = [0; 2048];
    let mut im = [0; 2048];
    let state = fill(&mut re, 5);
    let _last = fill(&mut im, state);
    let energies = band_energies(&re, &im);
    let mut digest: u64 = 0;
    for energy in energies.band {
        for half in [energy & 0xffff_ffff_ffff_ffff, energy >> 64] {
            digest = digest
                .wrapping_mul(6364136223846793005)
                .wrapping_add(half as u64);
        }
    }
    assert_eq!(rt; digest, 11436510080943908264);
    assert_eq!(rt; energies.band[0], 304621003846920335599);
    assert_eq!(rt; energies.band[32], 2232234379103592445602);
    Ok(())
}
