// The buckets of words.
ghost use Rattle.std.specs.Prelude.{◌≡◌, ◌≤◌, ◌<◌};
ghost use Rattle.hk_spec_matching.specs.Buckets.{bucket_bits};
ghost use Rattle.hk_table.specs.Songs.{bucket_at};

const LEAST_BITS: u32 = 8;

const MOST_BITS: u32 = 20;

// The odd number next to 2^32 divided by the golden ratio, whose multiples spread well (Knuth, volume 3, section 6.4).
const SPREAD: u32 = 2654435761;

/// How many bits a bucket's number has in a table of so many positions: 8 to 20.
pub fn bits(positions: u32) -> u32
    ensures bits { result ≡ bucket_bits positions }
    ensures least { 8 ≤ result }
    ensures most { result ≤ 20 }
{
    for bits in LEAST_BITS..MOST_BITS {
        if positions <= 1 << bits {
            return bits;
        }
    }
    MOST_BITS
}

/// The bucket of a word: the upper bits of its product with a constant, but for so many lower ones.
pub fn of(word: u32, shift: u32) -> u32
    requires { shift < 32 }
    ensures { result ≡ bucket_at shift word }
{
    word.wrapping_mul(SPREAD) >> shift
}
