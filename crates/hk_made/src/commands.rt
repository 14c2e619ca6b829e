// The operator's commands.
ghost use Rattle.std.specs.Prelude.{◌≡◌, ◌<◌, ◌≤◌, ◌+◌, ◌*◌, ◌^◌, ◌++◌, [], length, flat_map, IfOk};
ghost use Rattle.std.specs.Int.{w32, to_be_bytes};
ghost use Rattle.hk_spec_streams.specs.Commands.{ADD_WORDS, PUBLISH};
ghost use Rattle.hk_spec_made.specs.Input.{command_bytes, withdraw_bytes};

use crate::fields::{put_bytes, put_u8, put_u32};
use hk_base::NoMemory;
use std::alloc::Global;

// The kinds of the commands.
const ADD_WORDS_KIND: u8 = 1;

const WITHDRAW_KIND: u8 = 5;

const PUBLISH_KIND: u8 = 6;

// Song i has this id and i more.
const FIRST_ID: u32 = 100;

/// The command that adds song i with its words.
pub fn add(alloc: Global, i: usize, words: &[u32]) -> Result<Vec<u8>, NoMemory>
    requires there { i < 8 }
    requires few { length words.now ≤ 1700 }
    ensures { IfOk result (λ text. text.items ≡ command_bytes ADD_WORDS.number (to_be_bytes w32 (100 + i) ++ flat_map (to_be_bytes w32) words.now)) }
{
    let mut payload = Vec::new(alloc);
    put_u32(&mut payload, FIRST_ID + i as u32)?;
    for word in words {
        put_u32(&mut payload, *word)?;
    }
    command(alloc, ADD_WORDS_KIND, payload.as_slice())
}

/// The command that withdraws song i.
pub fn withdraw(alloc: Global, i: usize) -> Result<Vec<u8>, NoMemory>
    requires { i < 8 }
    ensures { IfOk result (λ text. text.items ≡ withdraw_bytes i) }
{
    let mut payload = Vec::new(alloc);
    put_u32(&mut payload, FIRST_ID + i as u32)?;
    command(alloc, WITHDRAW_KIND, payload.as_slice())
}

/// The command that publishes.
pub fn publish(alloc: Global) -> Result<Vec<u8>, NoMemory>
    ensures { IfOk result (λ text. text.items ≡ command_bytes PUBLISH.number []) }
{
    command(alloc, PUBLISH_KIND, &[])
}

// A command of a kind with its payload.
fn command(alloc: Global, kind: u8, payload: &[u8]) -> Result<Vec<u8>, NoMemory>
    requires { length payload.now < 2 ^ 32 }
    ensures { IfOk result (λ text. text.items ≡ command_bytes kind payload.now) }
{
    let mut text = Vec::new(alloc);
    put_u8(&mut text, kind)?;
    put_u32(&mut text, payload.len() as u32)?;
    put_bytes(&mut text, payload)?;
    Ok(text)
}
