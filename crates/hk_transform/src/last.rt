// The last stage, whose items no longer have 32 bits.
ghost use Rattle.std.specs.Prelude.{◌≡◌, ◌<◌, ◌+◌, ◌^◌, ℕ, List, length, slice_index_or};
ghost use Rattle.hk_spec_sound.specs.Circle.{quarter, cos_of, sin_of};
ghost use Rattle.hk_spec_sound.specs.Spectrum.{Complex, complexes, transform};
ghost use Rattle.hk_circle.specs.Tables.{TurnsOf};
ghost use Rattle.hk_transform.specs.Items.{value, IsBelow};
ghost use Rattle.hk_transform.specs.Parts.{halves_of};

use crate::block::item_at;
use crate::item::Both;

/// Items `k` and `1024 + k` of a transform. The halves are the transforms of the items at even and at odd places, one behind
/// the other, and item `k` of the second is turned back by the angle with cosine `k` and sine `k`.
#[inline(always)]
pub fn last_joined(cos: &[i32], sin: &[i32], halves_re: &[i32], halves_im: &[i32], k: usize) -> Both
    requires cos { TurnsOf (λ k. cos_of (quarter 9) k) 1024 cos.now }
    requires sin { TurnsOf (λ k. sin_of (quarter 9) k) 1024 sin.now }
    requires halves_re_len { length halves_re.now ≡ 2048 }
    requires halves_im_len { length halves_im.now ≡ 2048 }
    requires inside { k < 1024 }
    ensures low { (items : List Complex) (d : Complex) → length items ≡ 2048 → complexes halves_re.now halves_im.now ≡ halves_of 10 items
        → value result.low ≡ slice_index_or (transform (quarter 9) 11 items) k d }
    ensures high { (items : List Complex) (d : Complex) → length items ≡ 2048 → complexes halves_re.now halves_im.now ≡ halves_of 10 items
        → value result.high ≡ slice_index_or (transform (quarter 9) 11 items) (1024 + k) d }
    ensures low_below { IsBelow (2 ^ 34) result.low }
    ensures high_below { IsBelow (2 ^ 34) result.high }
{
    let even = item_at(halves_re, halves_im, k);
    let odd = item_at(halves_re, halves_im, 1024 + k);
    even.joined(i64::from(cos[k]), i64::from(sin[k]), odd)
}
