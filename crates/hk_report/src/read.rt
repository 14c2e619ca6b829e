// Words, numbers and fields, each at the front of the bytes that are left.
ghost use Rattle.std.specs.Prelude.{◌≡◌, ◌+◌, ◌*◌, ◌<◌, ◌≤◌, ◌∷◌, ◌++◌, ℕ, List, decimal, IfOk, IfErr, MatchOption, ◌⊎◌};
ghost use Rattle.hk_report.specs.LineReading.{IsCut, LeavesWord, LeavesNumber, LeavesField, StopsBefore, Differs};
ghost use Rattle.std.specs.Bool.{MatchBool};

// What is left of the bytes from the first one on that can't stand there.
#[derive(Clone, Copy)]
pub struct Misfit<'a> {
    pub left: &'a [u8],
}

// Whether that byte comes next.
pub fn comes_next(bytes: &[u8], byte: u8) -> bool
    ensures { MatchBool result ((rest : List ℕ) × (bytes.now ≡ byte ∷ rest)) (Differs byte bytes.now) }
{
    match bytes.split_first() {
        Some((first, _)) => *first == byte,
        None => false,
    }
}

// Reads a word, and answers what is left behind it.
pub fn read_word<'a>(bytes: &'a [u8], word: &[u8]) -> Result<&'a [u8], Misfit<'a>>
    ensures found { IfOk result (λ rest. bytes.now ≡ word.now ++ rest.now) }
    ensures misfit { IfErr result (λ misfit. (good : List ℕ) × (bytes.now ≡ good ++ misfit.left.now) × LeavesWord word.now good misfit.left.now) }
{
    let mut rest = bytes;
    for expected in word {
        if !comes_next(rest, *expected) {
            return Err(Misfit { left: rest });
        }
        rest = &rest[1..];
    }
    Ok(rest)
}

// The number with a further digit, where it may have one: `0` may not, nor one that would go past the greatest.
fn with_digit(n: u64, digit: u64, most: u64) -> Option<u64>
    requires { digit < 10 }
    ensures { MatchOption result ((n ≡ 0) ⊎ (most < 10 * n + digit)) (λ m. (m ≡ 10 * n + digit) × (0 < n) × (m ≤ most)) }
{
    if n == 0 {
        return None;
    }
    let longer = n.checked_mul(10)?.checked_add(digit)?;
    if longer <= most { Some(longer) } else { None }
}

fn digit_of(byte: u8) -> Option<u64>
    ensures { MatchOption result (byte < 48 ⊎ 57 < byte) (λ digit. (digit < 10) × (byte ≡ 48 + digit)) }
{
    match byte {
        b'0'..=b'9' => Some((byte - b'0') as u64),
        _ => None,
    }
}

// Reads a number of at most `most`, up to the first byte that is no digit.
fn read_number(bytes: &[u8], most: u64) -> Result<(u64, &[u8]), Misfit<'_>>
    requires { 9 ≤ most }
    ensures number { IfOk result (λ read. read.0 ≤ most) }
    ensures found { IfOk result (λ read. bytes.now ≡ decimal read.0 ++ read.1.now) }
    ensures cut { IfOk result (λ read. IsCut read.1.now) }
    ensures misfit { IfErr result (λ misfit. (good : List ℕ) × (bytes.now ≡ good ++ misfit.left.now) × LeavesNumber most good misfit.left.now) }
{
    let (mut n, mut rest) = match bytes.split_first() {
        Some((byte, after)) => match digit_of(*byte) {
            Some(digit) => (digit, after),
            None => return Err(Misfit { left: bytes }),
        },
        None => return Err(Misfit { left: bytes }),
    };
    while let Some((byte, after)) = rest.split_first() {
        match digit_of(*byte) {
            Some(digit) => match with_digit(n, digit, most) {
                Some(longer) => {
                    n = longer;
                    rest = after;
                }
                None => return Err(Misfit { left: rest }),
            },
            None => return Ok((n, rest)),
        }
    }
    Ok((n, rest))
}

// Reads a word and the number behind it.
pub fn read_field<'a>(
    bytes: &'a [u8],
    word: &[u8],
    most: u64,
) -> Result<(u64, &'a [u8]), Misfit<'a>>
    requires { 9 ≤ most }
    ensures number { IfOk result (λ read. read.0 ≤ most) }
    ensures found { IfOk result (λ read. bytes.now ≡ word.now ++ decimal read.0 ++ read.1.now) }
    ensures cut { IfOk result (λ read. IsCut read.1.now) }
    ensures misfit { IfErr result (λ misfit. (good : List ℕ) × (bytes.now ≡ good ++ misfit.left.now) × LeavesField word.now most good misfit.left.now) }
{
    match read_word(bytes, word) {
        Ok(rest) => match read_number(rest, most) {
            Ok(read) => Ok(read),
            Err(misfit) => Err(misfit),
        },
        Err(misfit) => Err(misfit),
    }
}

// Reads a word with which all is to end.
pub fn read_last<'a>(bytes: &'a [u8], word: &[u8]) -> Result<(), Misfit<'a>>
    ensures found { IfOk result (λ _. bytes.now ≡ word.now) }
    ensures misfit { IfErr result (λ misfit. StopsBefore (λ text. text ≡ word.now) bytes.now misfit.left.now) }
{
    match read_word(bytes, word) {
        Ok(rest) if rest.is_empty() => Ok(()),
        Ok(rest) => Err(Misfit { left: rest }),
        Err(misfit) => Err(misfit),
    }
}
