// Whole tables of the circle, and their numbers in the order in which the stages of a transform read them.
ghost use Rattle.std.specs.Prelude.{◌≡◌, ◌<◌, ◌≤◌, ◌+◌, ◌*◌, ◌^◌, ◌++◌, ◌∷◌, [], ℕ, ℤ, nat_abs, length, IfOk};
ghost use Rattle.hk_spec_sound.specs.Circle.{quarter, cos_of, sin_of, hann_of};
ghost use Rattle.hk_spec_sound.specs.Spectrum.{AreBelow};
ghost use Rattle.hk_circle.specs.Tables.{IsTable, HasStages};

use crate::quarter::Quarter;
use hk_base::NoMemory;
use std::alloc::Global;

// A transform of 2048 items has so many stages.
const STAGES: u32 = 11;

/// The cosines, the sines and the window's values of all parts of the circle, in units of 2^15.
#[derive(Drop)]
pub struct Tables {
    pub cosines: Vec<i32>,
    pub sines: Vec<i32>,
    pub window: Vec<i32>,
    ghost cosines_are: { IsTable 2048 (λ k. cos_of (quarter 9) k) cosines.items },
    ghost sines_are: { IsTable 2048 (λ k. sin_of (quarter 9) k) sines.items },
    ghost window_is: { IsTable 2048 (λ n. hann_of (quarter 9) n) window.items },
}

impl Tables {
    /// Fills all three.
    pub fn new(alloc: Global, quarter: &Quarter) -> Result<Tables, NoMemory> {
        let mut cosines = Vec::new(alloc);
        let mut sines = Vec::new(alloc);
        let mut window = Vec::new(alloc);
        for k in 0..2048 {
            let direction = quarter.direction(k);
            put(&mut cosines, direction.cos)?;
            put(&mut sines, direction.sin)?;
            put(&mut window, (32768 - direction.cos).div_euclid(2))?;
        }
        Ok(Tables {
            cosines,
            sines,
            window,
        })
    }
}

/// The numbers of a whole table that the stages of a transform read: those of the stage that joins halves of `half` items
/// from place `half` on. Nothing reads place 0.
pub fn by_stages(alloc: Global, table: &[i32]) -> Result<Vec<i32>, NoMemory>
    requires whole { length table.now ≡ 2048 }
    requires below { AreBelow 32769 table.now }
    ensures stages { IfOk result (λ stages. (f : ℕ → ℤ) → IsTable 2048 f table.now → HasStages 11 f stages.items) }
{
    let mut stages = Vec::new(alloc);
    put(&mut stages, 0)?;
    let mut half = 1;
    for before in 0..STAGES {
        add_stage(&mut stages, table, before, half)?;
        half *= 2;
    }
    Ok(stages)
}

// Adds the numbers of one stage more.
fn add_stage(stages: &mut Vec<i32>, table: &[i32], before: u32, half: usize) -> Result<(), NoMemory>
    requires whole { length table.now ≡ 2048 }
    requires below { AreBelow 32769 table.now }
    requires few { before ≤ 10 }
    requires half { half ≡ 2 ^ before }
    ensures more { IfOk result (λ _. (f : ℕ → ℤ) → IsTable 2048 f table.now → HasStages before f stages.old.items → HasStages (before + 1) f stages.new.items) }
{
    let part = 1024 / half;
    for k in 0..half {
        put(stages, i64::from(table[k * part]))?;
    }
    Ok(())
}

// Puts one number more behind a table.
fn put(table: &mut Vec<i32>, number: i64) -> Result<(), NoMemory>
    requires { nat_abs number ≤ 32768 }
    ensures { IfOk result (λ _. table.new.items ≡ table.old.items ++ number ∷ []) }
{
    if table.push(number as i32).is_err() {
        return Err(NoMemory);
    }
    Ok(())
}
