// The sums of squares between the bands' edges.
ghost use Rattle.std.specs.Prelude.{◌≡◌, ◌<◌, ◌≤◌, ◌+◌, ◌*◌, ◌^◌, nat_abs, length, slice_index};
ghost use Rattle.std.specs.List.{All};
ghost use Rattle.hk_spec_sound.specs.Spectrum.{complexes, energy, energies, AreBelow};
ghost use Rattle.hk_spec_sound.specs.Prints.{full_analysis};

/// The energy of each band, from the lowest. Each is below 2^80.
#[derive(Clone, Copy, Debug, PartialEq, Eq)]
pub struct Energies {
    pub band: [u128; 33],
}

// Band m has the bins from edge m up to edge m + 1.
const EDGES: [usize; 34] = [
    111, 118, 125, 132, 140, 149, 157, 167, 177, 187, 198, 210, 222, 235, 249, 264, 280, 296, 314,
    332, 352, 373, 395, 418, 443, 469, 497, 526, 557, 590, 625, 662, 702, 743,
];

/// The energies of the bands of a spectrum: `re[k]` and `im[k]` are the parts of bin k, each below 2^34 in magnitude.
/// Band m is the sum of `re * re + im * im` over the bins from edge m up to edge m + 1.
pub fn band_energies(re: &[i64; 2048], im: &[i64; 2048]) -> Energies
    requires re_below { AreBelow (2 ^ 34) re.now }
    requires im_below { AreBelow (2 ^ 34) im.now }
    ensures bands { result.band ≡ energies full_analysis.edges (complexes re.now im.now) }
    ensures below { All (λ e. e < 2 ^ 80) result.band }
{
    let mut band = [0; 33];
    for m in 0..33 {
        let bins = bins_of(m);
        band[m] = energy(&re[bins.low..bins.high], &im[bins.low..bins.high]);
    }
    Energies { band }
}

// The bins of a band, up to and without `high`.
#[derive(Drop)]
struct Bins {
    low: usize,
    high: usize,
}

// The bins of band m.
fn bins_of(m: usize) -> Bins
    requires { m < 33 }
    ensures low { result.low ≡ slice_index full_analysis.edges m }
    ensures high { result.high ≡ slice_index full_analysis.edges (m + 1) }
    ensures some { result.low < result.high }
    ensures inside { result.high < 2 ^ 11 }
{
    Bins {
        low: EDGES[m],
        high: EDGES[m + 1],
    }
}

// The sum of the squares of all parts.
fn energy(re: &[i64], im: &[i64]) -> u128
    requires same_length { length im.now ≡ length re.now }
    requires few { length re.now < 2 ^ 11 }
    requires re_below { AreBelow (2 ^ 34) re.now }
    requires im_below { AreBelow (2 ^ 34) im.now }
    ensures sum { result ≡ energy (complexes re.now im.now) }
    ensures below { result < 2 ^ 80 }
{
    let mut sum = 0;
    for i in 0..re.len() {
        sum += square(re[i]) + square(im[i]);
    }
    sum
}

// The square of a part.
fn square(part: i64) -> u128
    requires { nat_abs part < 2 ^ 34 }
    ensures value { result ≡ nat_abs part * nat_abs part }
    ensures below { result < 2 ^ 68 }
{
    let magnitude = u128::from(part.unsigned_abs());
    magnitude * magnitude
}
