// A point of the quarter circle, and the point between two.
ghost use Rattle.std.specs.Prelude.{◌≡◌, ◌<◌, ◌≤◌, ◌+◌, ◌*◌, ◌/◌, ◌^◌};

/// A point of the quarter circle of radius 2^30 about (0, 0), where both parts are at least 0.
#[derive(Clone, Copy)]
pub struct Point {
    pub x: u64,
    pub y: u64,
    ghost x_within: { x ≤ 2 ^ 30 },
    ghost y_within: { y ≤ 2 ^ 30 },
    ghost off_center: { 0 < x + y },
}

/// The circle's radius in the units of its points.
pub const RADIUS: u64 = 1 << 30;

impl Point {
    ghost use Rattle.hk_circle.specs.Points.{pair};
    ghost use Rattle.hk_spec_sound.specs.Circle.{midpoint};

    /// The point between two, moved out to the circle. Each part is rounded to the nearest number.
    pub fn midpoint(self, other: Point) -> Point
        ensures { pair result ≡ midpoint (pair self) (pair other) }
    {
        let x = self.x + other.x;
        let y = self.y + other.y;
        let root = (x * x + y * y).isqrt();
        Point {
            x: moved_out(x, root),
            y: moved_out(y, root),
        }
    }
}

// One part of a point at the distance `root`, moved out to the radius: part * RADIUS / root, rounded.
fn moved_out(part: u64, root: u64) -> u64
    requires some { 0 < root }
    requires within { part ≤ root }
    requires root_small { root < 2 ^ 32 }
    ensures value { result ≡ (part * 2 ^ 30 + root / 2) / root }
    ensures within { result ≤ 2 ^ 30 }
{
    (part * RADIUS + root / 2) / root
}
