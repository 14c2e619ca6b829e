// The bins that the bands have, of a frame of real samples.
ghost use Rattle.std.specs.Prelude.{◌≡◌, ◌<◌, ◌≤◌, ◌^◌, ℕ, List, length, pos, replicate, slice_index_or};
ghost use Rattle.hk_spec_sound.specs.Circle.{quarter};
ghost use Rattle.hk_spec_sound.specs.Spectrum.{Complex, complexes, transform, AreBelow};
ghost use Rattle.hk_transform.specs.Parts.{halves_of};

use crate::last::last_joined;
use crate::order::{BitReversal, load_reversed};
use crate::stages::ten_stages;
use hk_circle::Circle;

// The bins of all bands, up to and without `HIGHEST`.
const LOWEST: usize = 111;

const HIGHEST: usize = 743;

/// Transforms a frame of real samples, as far as the bands read it: `re[k]` is sample k before, at most 32768 in magnitude,
/// and `re[k]` and `im[k]` are the parts of bin k after, for bins 111 to 742. It takes no memory.
pub fn band_bins(
    circle: &Circle,
    reversal: &BitReversal,
    re: &mut [i64; 2048],
    im: &mut [i64; 2048],
)
    requires re_within { AreBelow 32769 re.old }
    requires im_below { AreBelow (2 ^ 34) im.old }
    ensures bins { (k : ℕ) (d : Complex) → 111 ≤ k → k < 743
        → slice_index_or (complexes re.new im.new) k d
        ≡ slice_index_or (transform (quarter 9) 11 (complexes re.old (replicate 2048 (pos 0)))) k d }
    ensures re_below { AreBelow (2 ^ 34) re.new }
    ensures im_below { AreBelow (2 ^ 34) im.new }
{
    let mut halves_re = [0; 2048];
    let mut halves_im = [0; 2048];
    load_reversed(&reversal.numbers, re, &mut halves_re);
    ten_stages(circle, &mut halves_re, &mut halves_im);
    last_stage(circle, &halves_re, &halves_im, re, im);
}

// The last stage: the bins of the bands are all sums, of an item of the first half and one of the second.
fn last_stage(circle: &Circle, halves_re: &[i32], halves_im: &[i32], re: &mut [i64], im: &mut [i64])
    requires halves_re_len { length halves_re.now ≡ 2048 }
    requires halves_im_len { length halves_im.now ≡ 2048 }
    requires re_len { length re.old ≡ 2048 }
    requires im_len { length im.old ≡ 2048 }
    requires re_below { AreBelow (2 ^ 34) re.old }
    requires im_below { AreBelow (2 ^ 34) im.old }
    ensures re_len { length re.new ≡ 2048 }
    ensures im_len { length im.new ≡ 2048 }
    ensures bins { (items : List Complex) → length items ≡ 2048 → complexes halves_re.now halves_im.now ≡ halves_of 10 items
        → (k : ℕ) (d : Complex) → 111 ≤ k → k < 743 → slice_index_or (complexes re.new im.new) k d ≡ slice_index_or (transform (quarter 9) 11 items) k d }
    ensures re_below { AreBelow (2 ^ 34) re.new }
    ensures im_below { AreBelow (2 ^ 34) im.new }
{
    let cos = circle.stage_cosines(10, 1024);
    let sin = circle.stage_sines(10, 1024);
    for k in LOWEST..HIGHEST {
        let bin = last_joined(cos, sin, halves_re, halves_im, k).low;
        re[k] = bin.re;
        im[k] = bin.im;
    }
}
