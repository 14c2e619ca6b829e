// The whole input.
ghost use Rattle.std.specs.Prelude.{◌≡◌, ◌<◌, ◌≤◌, ◌^◌, ◌++◌, flat_map, OnOk, IfOk};
ghost use Rattle.std.specs.List.{range_with_len};
ghost use Rattle.hk_spec_made.specs.Input.{make_input, station_record, hello_bytes};

use crate::edits::ROUNDS;
use crate::packets::HELLO;
use crate::programme::Programme;
use crate::records::{put_operator_record, put_station_record};
use hk_base::NoMemory;
use std::alloc::Global;

/// The bytes of the replay that `make` runs, for a seed below 2^31, up to 64 stations and at most 10 weak bits of a print: 48559
/// bytes and 19266 more for each station.
pub fn made_input(alloc: Global, seed: u32, stations: u8, flips: u32) -> Result<Vec<u8>, NoMemory>
    requires seed { seed < 2 ^ 31 }
    requires few_stations { stations ≤ 64 }
    requires few_flips { flips ≤ 10 }
    ensures { IfOk result (λ bytes. bytes.items ≡ make_input seed stations flips) }
{
    let programme = Programme::drawn(alloc, seed, stations, flips)?;
    let mut text = Vec::new(alloc);
    put_operator_record(&mut text, b"HKO1")?;
    put_hellos(&mut text, stations)?;
    for round in 0..ROUNDS.len() {
        programme.put_round(alloc, &mut text, round, ROUNDS[round])?;
    }
    Ok(text)
}

// Puts the hello of each station.
fn put_hellos(text: &mut Vec<u8>, stations: u8) -> Result<(), NoMemory>
    ensures { OnOk result (text.new.items ≡ text.old.items ++ flat_map (λ s. station_record s hello_bytes) (range_with_len 0 stations)) }
{
    for station in 0..stations {
        put_station_record(text, station, &HELLO)?;
    }
    Ok(())
}
