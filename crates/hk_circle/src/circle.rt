// The circle, as it is read.
ghost use Rattle.std.specs.Prelude.{◌≡◌, ◌<◌, ◌≤◌, ◌^◌, nat_abs, pos, ◌≤ℤ◌};
ghost use Rattle.hk_spec_sound.specs.Circle.{quarter, cos_of, sin_of, hann_of};
ghost use Rattle.hk_circle.specs.Tables.{IsTable, HasStages, TurnsOf};

use crate::quarter::Quarter;
use crate::tables::{Tables, by_stages};
use hk_base::NoMemory;
use std::alloc::Global;

/// The circle in 2048 parts: whole tables, and the cosines and the sines once more in the order in which the stages of a
/// transform read them.
#[derive(Drop)]
pub struct Circle {
    cosines: Vec<i32>,
    sines: Vec<i32>,
    window: Vec<i32>,
    stage_cosines: Vec<i32>,
    stage_sines: Vec<i32>,
    ghost cosines_are: { IsTable 2048 (λ k. cos_of (quarter 9) k) cosines.items },
    ghost sines_are: { IsTable 2048 (λ k. sin_of (quarter 9) k) sines.items },
    ghost window_is: { IsTable 2048 (λ n. hann_of (quarter 9) n) window.items },
    ghost stage_cosines_are: { HasStages 11 (λ k. cos_of (quarter 9) k) stage_cosines.items },
    ghost stage_sines_are: { HasStages 11 (λ k. sin_of (quarter 9) k) stage_sines.items },
}

impl Circle {
    /// Builds the circle. All its memory is taken here.
    pub fn new(alloc: Global) -> Result<Circle, NoMemory> {
        let quarter = Quarter::new(alloc)?;
        let tables = Tables::new(alloc, &quarter)?;
        let stage_cosines = by_stages(alloc, &tables.cosines)?;
        let stage_sines = by_stages(alloc, &tables.sines)?;
        let Tables {
            cosines,
            sines,
            window,
        } = tables;
        Ok(Circle {
            cosines,
            sines,
            window,
            stage_cosines,
            stage_sines,
        })
    }

    /// The cosine of k of 2048 parts of the circle, in units of 2^15.
    pub fn cos(&self, k: usize) -> i64
        requires { k < 2048 }
        ensures value { result ≡ cos_of (quarter 9) k }
        ensures bounded { nat_abs result ≤ 32768 }
    {
        i64::from(self.cosines[k])
    }

    /// The sine of k of 2048 parts of the circle, in units of 2^15.
    pub fn sin(&self, k: usize) -> i64
        requires { k < 2048 }
        ensures value { result ≡ sin_of (quarter 9) k }
        ensures bounded { nat_abs result ≤ 32768 }
    {
        i64::from(self.sines[k])
    }

    /// The window's value at place n of 2048, in units of 2^15: half of what the cosine lacks to 1, rounded down.
    pub fn hann(&self, n: usize) -> i64
        requires { n < 2048 }
        ensures value { result ≡ hann_of (quarter 9) n }
        ensures from { pos 0 ≤ℤ result }
        ensures to { result ≤ℤ pos 32768 }
    {
        i64::from(self.window[n])
    }

    /// The cosines that a transform's stage turns by which joins halves of `half` = 2^`before` items: item k is that of k
    /// times 1024 / half of 2048 parts.
    pub fn stage_cosines(&self, before: u32, half: usize) -> &[i32]
        requires few { before ≤ 10 }
        requires half { half ≡ 2 ^ before }
        ensures { TurnsOf (λ k. cos_of (quarter 9) k) half result.now }
    {
        &self.stage_cosines[half..2 * half]
    }

    /// The sines of the same stage.
    pub fn stage_sines(&self, before: u32, half: usize) -> &[i32]
        requires few { before ≤ 10 }
        requires half { half ≡ 2 ^ before }
        ensures { TurnsOf (λ k. sin_of (quarter 9) k) half result.now }
    {
        &self.stage_sines[half..2 * half]
    }
}
