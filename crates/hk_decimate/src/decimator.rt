// The decimator.
ghost use Rattle.std.specs.Prelude.{◌≡◌, ◌≤◌, ◌++◌, [], ◌∷◌, ℤ, List, negsuc, pos, ◌≤ℤ◌, IfSome};
ghost use Rattle.std.specs.Option.{option_to_list};
ghost use Rattle.hk_spec_sound.specs.Samples.{decimated};
ghost use Rattle.hk_spec_sound.specs.Ranges.{IsSample};
ghost use Rattle.hk_decimate.specs.Line.{HasDecimated};

use crate::mean::weighted_mean;
use std::marker::Model;

/// Decimation of mono samples by a factor of at most 8.
#[derive(Drop)]
pub struct Decimator {
    factor: usize,
    window: [i32; 15],
    len: usize,
}

impl Model for Decimator {
    ghost use Rattle.std.specs.Prelude.{◌≤◌, ◌<◌, ◌+◌, ◌*◌, take};
    ghost use Rattle.std.specs.List.{All};
    ghost use Rattle.hk_spec_sound.specs.Ranges.{IsSample};
    ghost use Rattle.hk_decimate.specs.Line.{Line};

    ghost Value = { Line };

    ghost view = { λ d. record { factor = d.factor; window = take d.len d.window } };

    ghost invariant = { λ d. (1 ≤ d.factor) × (d.factor ≤ 8) × (d.len + 1 < 2 * d.factor) × All IsSample d.window };
}

impl Decimator {
    /// A decimator that has taken nothing. The factor is 1, 2, 4 or 8, or another number up to 8.
    pub fn new(factor: u8) -> Decimator
        requires some { 1 ≤ factor }
        requires few { factor ≤ 8 }
        ensures factor { result.factor ≡ factor }
        ensures taken { HasDecimated result [] }
    {
        Decimator {
            factor: usize::from(factor),
            window: [0; 15],
            len: 0,
        }
    }

    /// Takes one sample, from -32768 to 32767. Gives a decimated one, in the same range, exactly where the sample
    /// completes one.
    // Not inlined, since most bytes of a front's complete no sample and need nothing of this.
    #[inline(never)]
    pub fn push(&mut self, x: i32) -> Option<i32>
        requires { IsSample x }
        ensures factor { self.new.factor ≡ self.old.factor }
        ensures taken { (samples : List ℤ) → HasDecimated self.old samples → HasDecimated self.new (samples ++ x ∷ []) }
        ensures sample { (samples : List ℤ)
            → HasDecimated self.old samples
            → decimated self.old.factor (samples ++ x ∷ []) ≡ decimated self.old.factor samples ++ option_to_list result }
        ensures range { IfSome result IsSample }
    {
        let factor = self.factor;
        let whole = 2 * factor - 1;
        self.window[self.len] = x;
        self.len += 1;
        if self.len < whole {
            return None;
        }
        let mean = weighted_mean(&self.window[..whole], factor);
        self.window[..whole].rotate_left(factor);
        self.len = factor - 1;
        Some(mean)
    }

    /// Begins anew: the samples of a mean that is not whole are dropped.
    pub fn reset(&mut self)
        ensures factor { self.new.factor ≡ self.old.factor }
        ensures taken { HasDecimated self.new [] }
    {
        self.len = 0;
    }
}
