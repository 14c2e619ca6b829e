// One sample of a frame, weighted.
ghost use Rattle.std.specs.Prelude.{◌≡◌, ◌≤◌, ◌^◌, pos, ◌*ℤ◌, ◌≤ℤ◌, nat_abs};
ghost use Rattle.hk_spec_sound.specs.Numbers.{scaled_down};
ghost use Rattle.hk_spec_sound.specs.Ranges.{IsSample};

/// The sample times a weight of 0 to 32768 units of 2^-15, rounded to the nearest number, a half upwards.
pub fn weighted(sample: i32, weight: i64) -> i64
    requires sample { IsSample sample }
    requires from { pos 0 ≤ℤ weight }
    requires to { weight ≤ℤ pos 32768 }
    ensures value { result ≡ scaled_down (sample *ℤ weight) }
    ensures within { nat_abs result ≤ 32768 }
{
    scaled_down(i64::from(sample) * weight)
}

// A number of units of 2^-15 as the nearest whole number, a half upwards.
fn scaled_down(scaled: i64) -> i64
    requires { nat_abs scaled ≤ 2 ^ 30 }
    ensures value { result ≡ scaled_down scaled }
    ensures within { nat_abs result ≤ 32768 }
{
    (scaled + (1 << 14)) >> 15
}
