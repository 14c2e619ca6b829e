// The signs and the weak bits.
ghost use Rattle.std.specs.Prelude.{◌≡◌, ◌≤◌, count_ones};
ghost use Rattle.hk_spec_sound.specs.Prints.{word_of, print_of};

use hk_base::Print;
use hk_weak::weakest;

/// The print of these differences: bit m of its word is set where difference m is over 0, and its mask has the `k` bits
/// whose differences are least in magnitude, ties to the lower bit.
pub fn print_of(d: &[i128; 32], k: u32) -> Print
    ensures print { result ≡ print_of k d.now }
    ensures few { count_ones result.mask ≤ k }
{
    Print {
        word: word_of(d),
        mask: weakest(d, k),
    }
}

// The word of these differences.
fn word_of(d: &[i128; 32]) -> u32
    ensures { result ≡ word_of d.now }
{
    let mut word = 0;
    for m in (0..32).rev() {
        word = 2 * word + u32::from(d[m] > 0);
    }
    word
}
