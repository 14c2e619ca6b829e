// The last samples of the present segment.
ghost use Rattle.std.specs.Prelude.{◌≡◌, ◌<◌, ◌≤◌, ◌+◌, ◌++◌, [], ◌∷◌, ℤ, List, IfOk, IsTrue, false, if◌then◌else◌, length, pos, replicate, slice_get, Some};
ghost use Rattle.hk_spec_sound.specs.Circle.{quarter};
ghost use Rattle.hk_spec_sound.specs.Prints.{windowed};
ghost use Rattle.hk_spec_sound.specs.Ranges.{IsSample};
ghost use Rattle.hk_spec_sound.specs.Spectrum.{complexes, AreBelow};
ghost use Rattle.hk_frames.specs.Recent.{HasLastSamples, completes_frame, frames_of, is_full};

use crate::weight::weighted;
use circular_buffer::HeapCircularBuffer;
use hk_base::NoMemory;
use hk_circle::Circle;
use std::alloc::Global;
use std::marker::Model;

// How many samples a frame has, and how many samples later each next frame begins.
const FRAME_LEN: usize = 2048;

const FRAME_STEP: usize = 64;

/// The last 2048 samples of a segment, and how many more complete the next frame.
#[derive(Drop)]
pub struct Frames {
    last: HeapCircularBuffer<i32>,
    missing: usize,
}

impl Model for Frames {
    ghost use Rattle.std.specs.Prelude.{◌≡◌, ◌≤◌, ◌+◌, length};
    ghost use Rattle.std.specs.List.{All};
    ghost use Rattle.hk_spec_sound.specs.Ranges.{IsSample};
    ghost use Rattle.hk_frames.specs.Recent.{Recent, FRAME_LEN};

    ghost Value = { Recent };

    ghost view = { λ f. record { last = f.last.items; missing = f.missing } };

    ghost invariant = { λ f. (f.last.capacity ≡ FRAME_LEN) × (1 ≤ f.missing) × (f.missing ≤ FRAME_LEN) × (length f.last.items ≤ FRAME_LEN)
        × (FRAME_LEN ≤ length f.last.items + f.missing) × All IsSample f.last.items };
}

impl Frames {
    /// A ring that has taken no sample. It takes all memory that it needs.
    pub fn new(alloc: Global) -> Result<Frames, NoMemory>
        ensures taken { IfOk result (λ frames. HasLastSamples frames []) }
    {
        match HeapCircularBuffer::with_capacity(alloc, FRAME_LEN) {
            Ok(last) => Ok(Frames {
                last,
                missing: FRAME_LEN,
            }),
            Err(_) => Err(NoMemory),
        }
    }

    /// Takes the next sample of the segment, from -32768 to 32767, and answers whether it completes a frame: 2048 samples
    /// came, and the first of the last 2048 stands a multiple of 64 from the segment's first.
    // Not inlined, since most bytes of a front's complete no decimated sample and need nothing of this.
    #[inline(never)]
    pub fn push(&mut self, y: i32) -> bool
        requires { IsSample y }
        ensures taken { (samples : List ℤ) → HasLastSamples self.old samples → HasLastSamples self.new (samples ++ y ∷ []) }
        ensures completes { (samples : List ℤ) → HasLastSamples self.old samples → result ≡ completes_frame (length samples + 1) }
        ensures frame { (samples : List ℤ)
            → HasLastSamples self.old samples
            → frames_of (samples ++ y ∷ []) ≡ frames_of samples ++ (if result then self.new.last ∷ [] else []) }
        ensures full { IsTrue result → IsTrue (is_full self.new) }
        ensures waits { 1 < self.old.missing → result ≡ false }
    {
        self.last.push_back(y);
        self.missing -= 1;
        if self.missing > 0 {
            return false;
        }
        self.missing = FRAME_STEP;
        true
    }

    /// How many samples more complete the next frame, at least one.
    pub fn missing(&self) -> usize
        ensures value { result ≡ self.now.missing }
        ensures some { 1 ≤ result }
    {
        self.missing
    }

    /// Leaves in `into` the last 2048 samples, each weighted by the window's value at its place and rounded.
    pub fn windowed(&self, circle: &Circle, into: &mut [i64; 2048])
        requires full { IsTrue (is_full self.now) }
        ensures windowed { complexes into.new (replicate 2048 (pos 0)) ≡ windowed (quarter 9) self.now.last }
        ensures within { AreBelow 32769 into.new }
    {
        let _ = &self.last;
        for n in 0..FRAME_LEN {
            into[n] = weighted(self.sample(n), circle.hann(n));
        }
    }

    // Sample n of the last 2048, from 0.
    fn sample(&self, n: usize) -> i32
        requires full { IsTrue (is_full self.now) }
        requires inside { n < 2048 }
        ensures sample { slice_get self.now.last n ≡ Some result }
        ensures range { IsSample result }
    {
        match self.last.get(n) {
            Some(sample) => *sample,
            None => unreachable!(),
        }
    }

    /// Begins a new segment: no sample was taken.
    pub fn reset(&mut self)
        ensures taken { HasLastSamples self.new [] }
    {
        self.last.clear();
        self.missing = FRAME_LEN;
    }
}
