// The open song: its sound in, its words kept.
ghost use Rattle.std.specs.Prelude.{◌≡◌, ◌≤◌, ◌++◌, [], List, ℕ, Option, None, IfOk};
ghost use Rattle.hk_spec_sound.specs.Limits.{IsInRange, POSITIONS};
ghost use Rattle.hk_spec_runs.specs.OperatorState.{OperatorState, UnfinishedSong, answer, after};
ghost use Rattle.hk_spec_settings.specs.Settings.{Rules};
ghost use Rattle.hk_spec_streams.specs.Operator.{OpenSong, Audio};
ghost use Rattle.hk_operator.specs.WordBuffer.{no_words};
ghost use Rattle.hk_operator.specs.Sound.{IsRecording, IsFixed, sound_in, IsAllowedForm};

use crate::word_buffer::WordBuffer;
use hk_base::{Form, NoMemory, Reason, What};
use hk_front::Front;
use hk_operator_wire::Part;
use std::alloc::Global;

/// The front that hears the open song, the song's id where one is open, and its words.
#[derive(Drop)]
pub struct Recorder {
    pub front: Front,
    pub song: Option<u32>,
    pub words: WordBuffer,
}

// The number where it is 1 to `most`, and else the nearer of them.
fn bounded(number: u8, most: u8) -> u8
    requires some { 1 ≤ most }
    ensures least { 1 ≤ result }
    ensures most { result ≤ most }
    ensures same { 1 ≤ number → number ≤ most → result ≡ number }
{
    if number < 1 {
        1
    } else if most < number {
        most
    } else {
        number
    }
}

impl Recorder {
    /// No open song, with room for so many words of one. No bit of a print is weak, since the words alone are kept.
    pub fn new(alloc: Global, room: u32) -> Result<Recorder, NoMemory>
        requires { IsInRange POSITIONS room }
        ensures song { IfOk result (λ r. r.song ≡ None) }
        ensures words { IfOk result (λ r. r.words ≡ no_words room) }
    {
        Ok(Recorder {
            front: Front::new(alloc, 0)?,
            song: None,
            words: WordBuffer::new(alloc, room)?,
        })
    }

    /// Hears what a byte brings, where it is sound and a song is open.
    pub fn take(&mut self, part: Part)
        ensures hears { (rules : Rules) (song : Option UnfinishedSong) (sound : List ℕ) → IsFixed rules → IsRecording rules self.old song sound → IsRecording rules self.new song (sound ++ sound_in part) }
        ensures room { self.new.words.room ≡ self.old.words.room }
    {
        if let Part::Byte(byte) = part {
            self.hear(byte);
        }
    }

    // Hears a byte where a song is open.
    fn hear(&mut self, byte: u8)
        ensures hears { (rules : Rules) (song : Option UnfinishedSong) (sound : List ℕ) → IsFixed rules → IsRecording rules self.old song sound → IsRecording rules self.new song (sound ++ sound_in (Part.Byte byte)) }
        ensures room { self.new.words.room ≡ self.old.words.room }
    {
        if self.song.is_none() {
            return;
        }
        if let Some(print) = self.front.push(byte) {
            self.words.push(print.word);
        }
    }

    /// Opens a song, or tells that one is open.
    pub fn open(&mut self, id: u32, form: Form) -> What
        ensures answer { (rules : Rules) (state : OperatorState) → IsRecording rules self.old state.song [] → result ≡ answer rules state (OpenSong id form) }
        ensures song { (rules : Rules) (state : OperatorState) → IsFixed rules → IsAllowedForm form → IsRecording rules self.old state.song []
            → IsRecording rules self.new (after rules state (OpenSong id form) result).song [] }
        ensures room { self.new.words.room ≡ self.old.words.room }
    {
        if self.song.is_some() {
            return What::Refused(Reason::SongOpen);
        }
        self.front
            .start(bounded(form.channels, 2), bounded(form.factor, 8));
        self.words.clear();
        self.song = Some(id);
        What::Done
    }

    /// What is answered to sound: whether a song is open.
    pub fn audio(&self) -> What
        ensures answer { (rules : Rules) (state : OperatorState) (sound : List ℕ) → IsRecording rules self.now state.song sound → result ≡ answer rules state (Audio sound) }
        ensures song { (rules : Rules) (state : OperatorState) (sound : List ℕ) → IsRecording rules self.now state.song sound
            → IsRecording rules self.now (after rules state (Audio sound) result).song [] }
    {
        if self.song.is_some() {
            What::Done
        } else {
            What::Refused(Reason::NoSongOpen)
        }
    }
}
