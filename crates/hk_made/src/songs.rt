// The eight songs, one after the other.
ghost use Rattle.std.specs.Prelude.{◌≡◌, ◌<◌, ◌≤◌, ◌+◌, ◌*◌, length, take, drop, IfOk};
ghost use Rattle.hk_spec_made.specs.Input.{drawn_words, song_length, words_before};

use hk_base::NoMemory;
use std::alloc::Global;

/// How many songs there are.
pub const SONGS: usize = 8;

/// How many words all songs have.
pub const SONG_WORDS: usize = 10800;

/// The words of all songs, from the first high parts.
pub fn song_words(alloc: Global, highs: &[u16]) -> Result<Vec<u32>, NoMemory>
    requires { 2 * 10800 ≤ length highs.now }
    ensures { IfOk result (λ words. words.items ≡ take 10800 (drawn_words highs.now)) }
{
    let mut words = Vec::new(alloc);
    for place in 0..SONG_WORDS {
        let high = u32::from(highs[2 * place]);
        let low = u32::from(highs[2 * place + 1]);
        if words.push(high * 65536 + low).is_err() {
            return Err(NoMemory);
        }
    }
    Ok(words)
}

/// The words of song i, of those of all songs.
pub fn song(words: &[u32], i: usize) -> &[u32]
    requires there { i < 8 }
    requires all { length words.now ≡ 10800 }
    ensures words { result.now ≡ take (song_length i) (drop (words_before i) words.now) }
    ensures length { length result.now ≡ song_length i }
{
    let start = words_before(i);
    &words[start..start + song_length(i)]
}

// How many words song i has.
fn song_length(i: usize) -> usize
    requires { i < 8 }
    ensures { result ≡ song_length i }
{
    1000 + 100 * i
}

// How many words the songs before song i have.
fn words_before(i: usize) -> usize
    requires { i < 8 }
    ensures value { result ≡ words_before i }
    ensures fits { result + song_length i ≤ 10800 }
{
    let mut words = 0;
    for earlier in 0..i {
        words += song_length(earlier);
    }
    words
}
