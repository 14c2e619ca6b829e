// What is played of a song's word.
ghost use Rattle.std.specs.Prelude.{◌≡◌, ◌<◌, ◌≤◌, ◌+◌, ◌%◌, ◌^◌, ◌++◌, map, sum, OnOk};
ghost use Rattle.std.specs.List.{range_with_len};
ghost use Rattle.hk_spec_made.specs.Input.{played, print_bytes};

use crate::fields::put_u32;
use hk_base::{NoMemory, Print};

/// A print of a word. With flips, a bit is flipped and so many bits from it on are weak, round the word.
pub fn played(flips: u32, word: u32, bit: u32) -> Print
    requires few { flips ≤ 10 }
    requires inside { bit < 32 }
    ensures { result ≡ played flips word bit }
{
    if flips == 0 {
        return Print { word, mask: 0 };
    }
    Print {
        word: word ^ (1 << bit),
        mask: weak_bits(flips, bit),
    }
}

// So many bits from one on, round the word.
fn weak_bits(flips: u32, bit: u32) -> u32
    requires few { flips ≤ 10 }
    requires inside { bit < 32 }
    ensures { result ≡ sum (map (λ i. 2 ^ ((bit + i) % 32)) (range_with_len 0 flips)) }
{
    let mut mask = 0;
    for i in 0..flips {
        mask += 1 << ((bit + i) % 32);
    }
    mask
}

/// Puts a print: its word and its mask.
pub fn put_print(text: &mut Vec<u8>, print: Print) -> Result<(), NoMemory>
    ensures { OnOk result (text.new.items ≡ text.old.items ++ print_bytes print) }
{
    put_u32(text, print.word)?;
    put_u32(text, print.mask)
}
