// What the stations play and the operator does.
ghost use Rattle.std.specs.Prelude.{◌≡◌, ◌<◌, ◌≤◌, ◌+◌, ◌*◌, ◌^◌, ◌++◌, length, take, flat_map, OnOk, IfOk};
ghost use Rattle.std.specs.List.{range_with_len};
ghost use Rattle.hk_spec_made.specs.Input.{high_parts, drawn_words, words_before, song_length, drawn_song, add_bytes, operator_record, station_record, data_bytes, gap_bytes, round_records};
ghost use Rattle.hk_made.specs.Edits.{commands_of, EditFits};

use crate::commands::{add, publish, withdraw};
use crate::draws::high_parts;
use crate::edits::{Edit, ROUNDS};
use crate::packets::{GAP_PACKET, PLAYED, ROUND_STEP, data_packet};
use crate::records::{put_operator_record, put_station_record};
use crate::songs::{SONG_WORDS, SONGS, song, song_words};
use hk_base::NoMemory;
use std::alloc::Global;

/// The songs, the draws, and how many stations play with how many flips.
#[derive(Drop)]
pub struct Programme {
    stations: u8,
    flips: u32,
    highs: Vec<u16>,
    words: Vec<u32>,
    ghost few_stations: { stations ≤ 64 },
    ghost few_flips: { flips ≤ 10 },
    ghost all_drawn: { length highs.items ≡ 21600 + 2400 * stations },
    ghost exact: { words.items ≡ take 10800 (drawn_words highs.items) },
}

impl Programme {
    /// Draws songs from a seed below 2^31, and a number for each print of each of up to 64 stations. At most ten bits are weak.
    pub fn drawn(alloc: Global, seed: u32, stations: u8, flips: u32) -> Result<Programme, NoMemory>
        requires seed { seed < 2 ^ 31 }
        requires few_stations { stations ≤ 64 }
        requires few_flips { flips ≤ 10 }
        ensures stations { IfOk result (λ programme. programme.stations ≡ stations) }
        ensures flips { IfOk result (λ programme. programme.flips ≡ flips) }
        ensures highs { IfOk result (λ programme. programme.highs.items ≡ high_parts seed (2 * words_before 8 + 4 * stations * 600)) }
    {
        let prints = ROUNDS.len() * usize::from(stations) * PLAYED;
        let highs = high_parts(alloc, seed, 2 * SONG_WORDS + prints)?;
        let words = song_words(alloc, &highs)?;
        Ok(Programme {
            stations,
            flips,
            highs,
            words,
        })
    }

    /// Puts the records of a round: the operator's commands, what each station plays, and a gap of each station.
    pub fn put_round(
        &self,
        alloc: Global,
        text: &mut Vec<u8>,
        round: usize,
        edit: Edit,
    ) -> Result<(), NoMemory>
        requires there { round < 4 }
        requires fits { EditFits edit }
        ensures { OnOk result (text.new.items ≡ text.old.items ++ round_records self.now.flips self.now.highs.items self.now.stations (round, commands_of self.now.highs.items edit)) }
    {
        self.put_edit(alloc, text, edit)?;
        put_operator_record(text, publish(alloc)?.as_slice())?;
        self.put_played(alloc, text, round)?;
        put_gaps(text, self.stations)
    }

    // Puts the commands of an edit.
    fn put_edit(&self, alloc: Global, text: &mut Vec<u8>, edit: Edit) -> Result<(), NoMemory>
        requires fits { EditFits edit }
        ensures { OnOk result (text.new.items ≡ text.old.items ++ flat_map operator_record (commands_of self.now.highs.items edit)) }
    {
        match edit {
            Edit::Add { first, count } => self.put_songs(alloc, text, first, count),
            Edit::Withdraw { song } => {
                put_operator_record(text, withdraw(alloc, song)?.as_slice())
            }
        }
    }

    // Puts the commands that add so many songs from one on.
    fn put_songs(
        &self,
        alloc: Global,
        text: &mut Vec<u8>,
        first: usize,
        count: usize,
    ) -> Result<(), NoMemory>
        requires { first + count ≤ 8 }
        ensures { OnOk result (text.new.items ≡ text.old.items ++ flat_map (λ i. operator_record (add_bytes self.now.highs.items i)) (range_with_len first count)) }
    {
        for i in 0..count {
            self.put_song(alloc, text, first + i)?;
        }
        Ok(())
    }

    // Puts the command that adds a song.
    fn put_song(&self, alloc: Global, text: &mut Vec<u8>, i: usize) -> Result<(), NoMemory>
        requires { i < 8 }
        ensures { OnOk result (text.new.items ≡ text.old.items ++ operator_record (add_bytes self.now.highs.items i)) }
    {
        let command = add(alloc, i, self.song(i))?;
        put_operator_record(text, command.as_slice())
    }

    // Puts what each station plays in a round.
    fn put_played(&self, alloc: Global, text: &mut Vec<u8>, round: usize) -> Result<(), NoMemory>
        requires { round < 4 }
        ensures { OnOk result (text.new.items ≡ text.old.items
            ++ flat_map (λ s. station_record s (data_bytes self.now.flips self.now.highs.items self.now.stations round s)) (range_with_len 0 self.now.stations)) }
    {
        for station in 0..self.stations {
            let packet = self.played(alloc, round, station)?;
            put_station_record(text, station, packet.as_slice())?;
        }
        Ok(())
    }

    // The packet of what a station plays in a round.
    fn played(&self, alloc: Global, round: usize, station: u8) -> Result<Vec<u8>, NoMemory>
        requires there { round < 4 }
        requires plays { station < self.now.stations }
        ensures bytes { IfOk result (λ packet. packet.items ≡ data_bytes self.now.flips self.now.highs.items self.now.stations round station) }
        ensures size { IfOk result (λ packet. length packet.items ≡ 4803) }
    {
        let station = usize::from(station);
        let number = round * usize::from(self.stations) + station;
        let song = self.song((station + round) % SONGS);
        let draws = &self.highs[2 * SONG_WORDS + number * PLAYED..];
        data_packet(alloc, self.flips, song, ROUND_STEP * round, draws)
    }

    // The words of song i.
    fn song(&self, i: usize) -> &[u32]
        requires { i < 8 }
        ensures words { result.now ≡ drawn_song self.now.highs.items i }
        ensures length { length result.now ≡ song_length i }
    {
        song(&self.words, i)
    }
}

// Puts a gap of each station.
fn put_gaps(text: &mut Vec<u8>, stations: u8) -> Result<(), NoMemory>
    ensures { OnOk result (text.new.items ≡ text.old.items ++ flat_map (λ s. station_record s gap_bytes) (range_with_len 0 stations)) }
{
    for station in 0..stations {
        put_station_record(text, station, &GAP_PACKET)?;
    }
    Ok(())
}
