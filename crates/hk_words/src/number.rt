// A number in the words.
ghost use Rattle.std.specs.Prelude.{◌≡◌};
ghost use Rattle.std.specs.Char.{is_ascii_digit};
ghost use Rattle.std.specs.List.{list_all};
ghost use Rattle.hk_spec_runs.specs.Words.{number_written};

// A number has at most so many digits.
const MOST_DIGITS: usize = 19;

/// The number that 1 to 19 decimal digits write; leading zeros are allowed.
pub fn read_number(word: &str) -> Option<u64>
    ensures { result ≡ number_written word.now }
{
    if word.len() <= MOST_DIGITS && are_digits(word.as_bytes()) {
        word.parse().ok()
    } else {
        None
    }
}

fn are_digits(bytes: &[u8]) -> bool
    ensures { result ≡ list_all is_ascii_digit bytes.now }
{
    bytes.iter().all(|byte| byte.is_ascii_digit())
}
