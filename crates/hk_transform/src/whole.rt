// All bins of a frame, of which each sample may have two parts.
ghost use Rattle.std.specs.Prelude.{◌≡◌, ◌^◌, List, length};
ghost use Rattle.hk_spec_sound.specs.Circle.{quarter};
ghost use Rattle.hk_spec_sound.specs.Spectrum.{Complex, complexes, transform, AreBelow};
ghost use Rattle.hk_transform.specs.Parts.{halves_of};

use crate::last::last_joined;
use crate::order::{fill_order, load_reversed};
use crate::stages::ten_stages;
use hk_circle::Circle;

/// Transforms a frame in place: `re[k]` and `im[k]` are the parts of sample k before, at most 32768 in magnitude, and
/// those of bin k after, below 2^34. It takes no memory.
pub fn transform(circle: &Circle, re: &mut [i64; 2048], im: &mut [i64; 2048])
    requires re_within { AreBelow 32769 re.old }
    requires im_within { AreBelow 32769 im.old }
    ensures spectrum { complexes re.new im.new ≡ transform (quarter 9) 11 (complexes re.old im.old) }
    ensures re_below { AreBelow (2 ^ 34) re.new }
    ensures im_below { AreBelow (2 ^ 34) im.new }
{
    let mut order = [0; 2048];
    let mut halves_re = [0; 2048];
    let mut halves_im = [0; 2048];
    fill_order(&mut order);
    load_reversed(&order, re, &mut halves_re);
    load_reversed(&order, im, &mut halves_im);
    ten_stages(circle, &mut halves_re, &mut halves_im);
    whole_stage(circle, &halves_re, &halves_im, re, im);
}

// The last stage: a bin of each half is a sum, and a difference, of an item of the first half and one of the second.
fn whole_stage(
    circle: &Circle,
    halves_re: &[i32],
    halves_im: &[i32],
    re: &mut [i64],
    im: &mut [i64],
)
    requires halves_re_len { length halves_re.now ≡ 2048 }
    requires halves_im_len { length halves_im.now ≡ 2048 }
    requires re_len { length re.old ≡ 2048 }
    requires im_len { length im.old ≡ 2048 }
    requires re_below { AreBelow (2 ^ 34) re.old }
    requires im_below { AreBelow (2 ^ 34) im.old }
    ensures spectrum { (items : List Complex) → length items ≡ 2048 → complexes halves_re.now halves_im.now ≡ halves_of 10 items
        → complexes re.new im.new ≡ transform (quarter 9) 11 items }
    ensures re_below { AreBelow (2 ^ 34) re.new }
    ensures im_below { AreBelow (2 ^ 34) im.new }
{
    let cos = circle.stage_cosines(10, 1024);
    let sin = circle.stage_sines(10, 1024);
    for k in 0..1024 {
        let both = last_joined(cos, sin, halves_re, halves_im, k);
        re[k] = both.low.re;
        im[k] = both.low.im;
        re[1024 + k] = both.high.re;
        im[1024 + k] = both.high.im;
    }
}
