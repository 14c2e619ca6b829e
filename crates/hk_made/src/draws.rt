// The generator.
ghost use Rattle.std.specs.Prelude.{◌≡◌, ◌<◌, ◌^◌, IfOk};
ghost use Rattle.hk_spec_made.specs.Input.{next_draw, high_parts};

use hk_base::NoMemory;
use std::alloc::Global;

/// The high parts of so many draws from a seed on. The seed is below 2^31.
pub fn high_parts(alloc: Global, seed: u32, count: usize) -> Result<Vec<u16>, NoMemory>
    requires { seed < 2 ^ 31 }
    ensures { IfOk result (λ highs. highs.items ≡ high_parts seed count) }
{
    let mut highs = Vec::new(alloc);
    let mut state = seed;
    for _draw in 0..count {
        state = next(state);
        if highs.push((state >> 15) as u16).is_err() {
            return Err(NoMemory);
        }
    }
    Ok(highs)
}

// The state after one; it is the value that is drawn.
fn next(state: u32) -> u32
    requires { state < 2 ^ 31 }
    ensures value { result ≡ next_draw state }
    ensures below { result < 2 ^ 31 }
{
    ((1103515245 * u64::from(state) + 12345) % (1 << 31)) as u32
}
