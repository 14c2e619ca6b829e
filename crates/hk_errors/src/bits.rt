// Words beside words, bit by bit.
ghost use Rattle.std.specs.Prelude.{◌≡◌, ◌≤◌, count_ones, bit_xor};
ghost use Rattle.hk_spec_matching.specs.Matching.{differing_bits};
ghost use Rattle.hk_errors.specs.Limit.{up_to};

const BLOCK_SIZE: usize = 256;

/// How many bits differ between the 256 pairs of words, 8192 at most.
pub fn errors(a: &[u32; 256], b: &[u32; 256]) -> u32
    ensures count { result ≡ differing_bits a.now b.now }
    ensures most { result ≤ 8192 }
{
    let mut errors = 0;
    for j in 0..BLOCK_SIZE {
        errors += differing_bits(a[j], b[j]);
    }
    errors
}

/// How many bits differ between the 256 pairs of words, and None exactly where they are more than the limit.
pub fn within(a: &[u32; 256], b: &[u32; 256], limit: u32) -> Option<u32>
    ensures { result ≡ up_to limit (differing_bits a.now b.now) }
{
    let count = errors(a, b);
    if count <= limit { Some(count) } else { None }
}

// How many bits differ between two words.
fn differing_bits(a: u32, b: u32) -> u32
    ensures count { result ≡ count_ones (bit_xor a b) }
    ensures most { result ≤ 32 }
{
    (a ^ b).count_ones()
}
