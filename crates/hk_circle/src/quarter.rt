// The first quarter of the circle, by halving its angle.
ghost use Rattle.std.specs.Prelude.{◌≡◌, ◌<◌, ◌≤◌, IfOk};
ghost use Rattle.hk_spec_sound.specs.Circle.{quarter, refined, direction};
ghost use Rattle.hk_circle.specs.Points.{pairs, parts};

use crate::direction::Direction;
use crate::point::{Point, RADIUS};
use hk_base::NoMemory;
use std::alloc::Global;

// How often the quarter's angle is halved, and in how many steps it then comes.
const LEVELS: usize = 9;

const STEPS: usize = 512;

/// The 513 points of the first quarter, both ends included.
#[derive(Drop)]
pub struct Quarter {
    points: Vec<Point>,
    ghost exact: { pairs points.items ≡ quarter 9 },
}

impl Quarter {
    /// Builds the quarter. All its memory is taken here.
    pub fn new(alloc: Global) -> Result<Quarter, NoMemory> {
        let mut points = ends(alloc)?;
        for _level in 0..LEVELS {
            points = refined(alloc, &points)?;
        }
        Ok(Quarter { points })
    }

    /// The cosine and the sine of k of 2048 parts of the circle: those of the point in the first quarter, turned by as many
    /// quarters as k has.
    pub fn direction(&self, k: usize) -> Direction
        requires { k < 2048 }
        ensures { parts result ≡ direction (quarter 9) k }
    {
        Direction::of(self.points[k % STEPS]).turned(k / STEPS)
    }
}

// The two ends of the first quarter.
fn ends(alloc: Global) -> Result<Vec<Point>, NoMemory>
    ensures { IfOk result (λ points. pairs points.items ≡ quarter 0) }
{
    let mut points = Vec::new(alloc);
    let first = Point { x: RADIUS, y: 0 };
    let last = Point { x: 0, y: RADIUS };
    if points.push(first).is_err() || points.push(last).is_err() {
        return Err(NoMemory);
    }
    Ok(points)
}

// A midpoint between each two neighbours.
fn refined(alloc: Global, points: &[Point]) -> Result<Vec<Point>, NoMemory>
    ensures { IfOk result (λ finer. pairs finer.items ≡ refined (pairs points.now)) }
{
    let mut finer = Vec::new(alloc);
    for i in 0..points.len() {
        let point = points[i];
        if finer.push(point).is_err() {
            return Err(NoMemory);
        }
        if i + 1 < points.len() && finer.push(point.midpoint(points[i + 1])).is_err() {
            return Err(NoMemory);
        }
    }
    Ok(finer)
}
