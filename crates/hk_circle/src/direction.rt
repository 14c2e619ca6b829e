// A cosine beside its sine.
ghost use Rattle.std.specs.Prelude.{◌≡◌, ◌<◌, ◌≤◌, ◌^◌, nat_abs};
ghost use Rattle.hk_spec_sound.specs.Circle.{rounded, turned};

use crate::point::Point;

/// A cosine and a sine, in units of 2^15.
#[derive(Drop)]
pub struct Direction {
    pub cos: i64,
    pub sin: i64,
    ghost cos_within: { nat_abs cos ≤ 32768 },
    ghost sin_within: { nat_abs sin ≤ 32768 },
}

impl Direction {
    ghost use Rattle.hk_circle.specs.Points.{parts};

    /// The direction of a point of the first quarter.
    pub fn of(point: Point) -> Direction
        ensures { parts result ≡ (rounded point.x, rounded point.y) }
    {
        Direction {
            cos: rounded(point.x),
            sin: rounded(point.y),
        }
    }

    /// The direction after so many quarter turns, at most 3.
    pub fn turned(self, turns: usize) -> Direction
        requires { turns < 4 }
        ensures { parts result ≡ turned turns (parts self) }
    {
        let Direction { cos, sin } = self;
        match turns {
            0 => Direction { cos, sin },
            1 => Direction {
                cos: -sin,
                sin: cos,
            },
            2 => Direction {
                cos: -cos,
                sin: -sin,
            },
            _ => Direction {
                cos: sin,
                sin: -cos,
            },
        }
    }
}

// A part in units of 2^30 as the nearest number in units of 2^15.
fn rounded(part: u64) -> i64
    requires { part ≤ 2 ^ 30 }
    ensures value { result ≡ rounded part }
    ensures bounded { nat_abs result ≤ 32768 }
{
    ((part + (1 << 14)) >> 15) as i64
}
