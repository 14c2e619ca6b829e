// What the text of a replay tells, by bytes that stand for it.
ghost use Rattle.std.specs.Prelude.{◌≡◌, ◌≤◌, ◌==◌, count_by, take_while, not, length};
ghost use Rattle.std.specs.List.{prefix_len};
ghost use Rattle.hk_spec_lines.specs.Make.{tally_of};
ghost use Rattle.hk_replay.specs.Counts.{tally_meant};

/// How many blocks were reported and how many matches they list, how many versions were published, and how many commands were
/// refused for memory.
#[derive(Clone, Copy, Debug, PartialEq, Eq)]
pub struct Counts {
    pub blocks: u64,
    pub matches: u64,
    pub versions: u64,
    pub refusals: u64,
}

/// What is told before the summary. A report has one colon, and a tilde in each of its items; of the replies alone `published`
/// has a b, and `no-memory` a y.
pub fn counts_of(text: &[u8]) -> Counts
    ensures { tally_meant result ≡ tally_of text.now }
{
    let told = before_summary(text);
    Counts {
        blocks: count(told, b':'),
        matches: count(told, b'~'),
        versions: count(told, b'b'),
        refusals: count(told, b'y'),
    }
}

// The text up to the summary, which begins with a T.
fn before_summary(text: &[u8]) -> &[u8]
    ensures { result.now ≡ take_while (λ byte. not (byte == 84)) text.now }
{
    &text[..told_len(text)]
}

fn told_len(text: &[u8]) -> usize
    ensures place { result ≡ prefix_len (λ byte. not (byte == 84)) text.now }
    ensures within { result ≤ length text.now }
{
    text.iter().take_while(|byte| **byte != b'T').count()
}

// How often a byte stands in the text.
fn count(text: &[u8], mark: u8) -> u64
    ensures { result ≡ count_by (λ byte. byte == mark) text.now }
{
    text.iter().filter(|byte| **byte == mark).count() as u64
}
