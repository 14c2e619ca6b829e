// The weighted mean of a window.
ghost use Rattle.std.specs.Prelude.{◌≡◌, ◌≤◌, ◌<◌, ◌+◌, ◌*◌, ◌/◌, neg_ℤ, pos, negsuc, ◌+ℤ◌, ◌*ℤ◌, ◌≤ℤ◌, length, slice_index};
ghost use Rattle.std.specs.List.{All};
ghost use Rattle.hk_spec_sound.specs.Numbers.{floor_div};
ghost use Rattle.hk_spec_sound.specs.Ranges.{IsSample};
ghost use Rattle.hk_spec_sound.specs.Samples.{weights, weighted_mean};

/// The mean of 2 * factor - 1 samples weighted 1, 2, .., factor, .., 2, 1, rounded to the nearest number, a half
/// upwards. The factor is at most 8.
pub fn weighted_mean(window: &[i32], factor: usize) -> i32
    requires some { 1 ≤ factor }
    requires few { factor ≤ 8 }
    requires whole { length window.now + 1 ≡ 2 * factor }
    requires samples { All IsSample window.now }
    ensures value { result ≡ weighted_mean factor window.now }
    ensures range { IsSample result }
{
    let mut sum = 0;
    for k in 0..window.len() {
        sum += product(weight(factor, k), window[k]);
    }
    rounded_mean(sum, factor * factor)
}

// A sum of samples of so much weight in all, as their mean.
fn rounded_mean(sum: i32, weight: usize) -> i32
    requires some { 1 ≤ weight }
    requires few { weight ≤ 64 }
    requires from { neg_ℤ (pos (32768 * weight)) ≤ℤ sum }
    requires to { sum ≤ℤ pos (32767 * weight) }
    ensures value { result ≡ floor_div (sum +ℤ pos (weight / 2)) weight }
    ensures range { IsSample result }
{
    (sum + (weight / 2) as i32).div_euclid(weight as i32)
}

// Weight k of the 2 * factor - 1.
fn weight(factor: usize, k: usize) -> usize
    requires few { factor ≤ 8 }
    requires inside { k + 1 < 2 * factor }
    ensures value { result ≡ slice_index (weights factor) k }
    ensures few { result ≤ 8 }
{
    if k < factor {
        k + 1
    } else {
        2 * factor - 1 - k
    }
}

// A sample times its weight.
fn product(weight: usize, x: i32) -> i32
    requires few { weight ≤ 8 }
    requires sample { IsSample x }
    ensures value { result ≡ pos weight *ℤ x }
    ensures from { neg_ℤ (pos (32768 * weight)) ≤ℤ result }
    ensures to { result ≤ℤ pos (32767 * weight) }
{
    weight as i32 * x
}
