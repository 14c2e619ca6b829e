// The bytes of streams, item after item.
use crate::fault::Fault;
use crate::samples::{pseudo_random, silence};
use crate::words::{hexadecimal, words_of};
use byteorder::{BigEndian, WriteBytesExt};
use std::alloc::Global;
use std::str::SplitWhitespace;

// The kinds of commands, and those of packets.
const ADD_WORDS: u8 = 1;

const OPEN_SONG: u8 = 2;

const AUDIO: u8 = 3;

const CLOSE: u8 = 4;

const WITHDRAW: u8 = 5;

const PUBLISH: u8 = 6;

const DATA: u8 = 1;

const FENCE: u8 = 2;

const GAP: u8 = 3;

/// The bytes of a line's items, such as `HKS1 00 01 prints 0..256 gap`. `data/README` names all items.
pub fn bytes_of(alloc: Global, line: &str) -> Result<Vec<u8>, Fault> {
    let mut bytes = Vec::new(alloc);
    let mut items = line.split_whitespace();
    for _ in 0..line.len() {
        let Some(item) = items.next() else { break };
        push_item(alloc, &mut bytes, item, &mut items)?;
    }
    Ok(bytes)
}

fn next<'a>(items: &mut SplitWhitespace<'a>) -> Result<&'a str, Fault> {
    items.next().ok_or(Fault::Form)
}

fn number(items: &mut SplitWhitespace<'_>) -> Result<u32, Fault> {
    Ok(next(items)?.parse::<u32>()?)
}

fn push_item(
    alloc: Global,
    out: &mut Vec<u8>,
    item: &str,
    items: &mut SplitWhitespace<'_>,
) -> Result<(), Fault> {
    match item.as_bytes() {
        b"HKO1" | b"HKS1" => out.extend_from_slice(item.as_bytes())?,
        b"text" => out.extend_from_slice(next(items)?.as_bytes())?,
        b"zeros" => {
            let count = next(items)?.parse::<usize>()?;
            out.extend_from_slice(silence(alloc, count)?.as_slice())?;
        }
        b"sound" => {
            let count = next(items)?.parse::<usize>()?;
            out.extend_from_slice(pseudo_random(alloc, count)?.as_slice())?;
        }
        b"cut" => out.truncate(next(items)?.parse::<usize>()?),
        b"add" | b"open" | b"audio" | b"close" | b"withdraw" | b"publish" => {
            push_command(alloc, out, item, items)?
        }
        b"data" | b"prints" | b"weak" | b"fence" | b"gap" => push_packet(alloc, out, item, items)?,
        _ => out.push(u8::try_from(hexadecimal(item)?)?)?,
    }
    Ok(())
}

fn push_command(
    alloc: Global,
    out: &mut Vec<u8>,
    item: &str,
    items: &mut SplitWhitespace<'_>,
) -> Result<(), Fault> {
    match item.as_bytes() {
        b"add" => {
            let id = number(items)?;
            let mut payload = Vec::new(alloc);
            payload.write_u32::<BigEndian>(id)?;
            for word in words_of(alloc, next(items)?)? {
                payload.write_u32::<BigEndian>(word)?;
            }
            push_long(out, ADD_WORDS, payload.as_slice())
        }
        b"open" => {
            let mut payload = Vec::new(alloc);
            payload.write_u32::<BigEndian>(number(items)?)?;
            payload.push(next(items)?.parse::<u8>()?)?;
            payload.push(next(items)?.parse::<u8>()?)?;
            push_long(out, OPEN_SONG, payload.as_slice())
        }
        b"audio" => {
            let sound = source(alloc, items)?;
            let most = next(items)?.parse::<usize>()?;
            if sound.is_empty() {
                return push_long(out, AUDIO, b"");
            }
            for piece in sound.as_slice().chunks(most.max(1)) {
                push_long(out, AUDIO, piece)?;
            }
            Ok(())
        }
        b"withdraw" => push_long(out, WITHDRAW, &number(items)?.to_be_bytes()),
        b"close" => push_long(out, CLOSE, b""),
        _ => push_long(out, PUBLISH, b""),
    }
}

fn push_packet(
    alloc: Global,
    out: &mut Vec<u8>,
    item: &str,
    items: &mut SplitWhitespace<'_>,
) -> Result<(), Fault> {
    match item.as_bytes() {
        b"data" => {
            let payload = source(alloc, items)?;
            let most = next(items)?.parse::<usize>()?;
            if payload.is_empty() {
                return push_short(out, DATA, b"");
            }
            for piece in payload.as_slice().chunks(most.max(1)) {
                push_short(out, DATA, piece)?;
            }
            Ok(())
        }
        b"prints" => {
            let words = words_of(alloc, next(items)?)?;
            push_short(out, DATA, prints_of(alloc, &words, 0, 0)?.as_slice())
        }
        b"weak" => {
            let words = words_of(alloc, next(items)?)?;
            let place = next(items)?.parse::<usize>()?;
            let mask = hexadecimal(next(items)?)?;
            push_short(out, DATA, prints_of(alloc, &words, place, mask)?.as_slice())
        }
        b"fence" => push_short(out, FENCE, &number(items)?.to_be_bytes()),
        _ => push_short(out, GAP, b""),
    }
}

// Bytes of a payload: `zeros 100`, `sound 100` for so many pseudo-random samples, or `words 0..256` as prints.
fn source(alloc: Global, items: &mut SplitWhitespace<'_>) -> Result<Vec<u8>, Fault> {
    match next(items)?.as_bytes() {
        b"zeros" => Ok(silence(alloc, next(items)?.parse::<usize>()?)?),
        b"sound" => Ok(pseudo_random(alloc, next(items)?.parse::<usize>()?)?),
        b"words" => prints_of(alloc, &words_of(alloc, next(items)?)?, 0, 0),
        _ => Err(Fault::Form),
    }
}

// Prints with these words. The one at `place` has this mask, and all others have 0.
fn prints_of(alloc: Global, words: &Vec<u32>, place: usize, mask: u32) -> Result<Vec<u8>, Fault> {
    let mut bytes = Vec::new(alloc);
    for (n, word) in words.iter().enumerate() {
        bytes.write_u32::<BigEndian>(*word)?;
        bytes.write_u32::<BigEndian>(if n == place { mask } else { 0 })?;
    }
    Ok(bytes)
}

// A command: its kind, four bytes of length, and the payload.
fn push_long(out: &mut Vec<u8>, kind: u8, payload: &[u8]) -> Result<(), Fault> {
    out.push(kind)?;
    out.write_u32::<BigEndian>(u32::try_from(payload.len())?)?;
    out.extend_from_slice(payload)?;
    Ok(())
}

// A packet: its kind, two bytes of length, and the payload.
fn push_short(out: &mut Vec<u8>, kind: u8, payload: &[u8]) -> Result<(), Fault> {
    out.push(kind)?;
    push_counted(out, payload)
}

/// Two bytes of length, and these bytes.
pub fn push_counted(out: &mut Vec<u8>, bytes: &[u8]) -> Result<(), Fault> {
    out.write_u16::<BigEndian>(u16::try_from(bytes.len())?)?;
    out.extend_from_slice(bytes)?;
    Ok(())
}
