// Words of recordings and prints, as they are written in rows.
use crate::fault::Fault;
use std::alloc::Global;

/// A number in hexadecimal digits.
pub fn hexadecimal(digits: &str) -> Result<u32, Fault> {
    Ok(u32::from_str_radix(digits, 16)?)
}

/// The words of a list such as `0..256,62*fff`: numbers from the first up to but not including the last, or so many times a word
/// in hexadecimal digits. `0..256^80000000` has these bits flipped in each, and `-` is no word.
pub fn words_of(alloc: Global, list: &str) -> Result<Vec<u32>, Fault> {
    let mut words = Vec::new(alloc);
    if list == "-" {
        return Ok(words);
    }
    for part in list.split(",") {
        if let Some((count, word)) = part.split_once("*") {
            let word = hexadecimal(word)?;
            for _ in 0..count.parse::<u32>()? {
                words.push(word)?;
            }
        } else {
            let (range, flipped) = match part.split_once("^") {
                Some((range, bits)) => (range, hexadecimal(bits)?),
                None => (part, 0),
            };
            let (first, end) = range.split_once("..").ok_or(Fault::Form)?;
            for n in first.parse::<u32>()?..end.parse::<u32>()? {
                words.push(n ^ flipped)?;
            }
        }
    }
    Ok(words)
}
