// The reader of an input.
ghost use Rattle.std.specs.Prelude.{◌≡◌, ◌≤◌, ◌∷◌, ◌++◌, [], ℕ, List, length, map, IfSome, Some, None, Err};
ghost use Rattle.hk_base.specs.declared.plain.Trouble.{Trouble};
ghost use Rattle.hk_spec_streams.specs.Records.{ForStation, arrivals};

use crate::part::{Owner, Part, after, arrival, is_faulty, record_begin};
use hk_base::Trouble;

/// What a byte of an input is.
#[derive(Clone, Copy, Debug, PartialEq, Eq)]
pub enum Came {
    /// Part of a record's head.
    Head,
    /// A byte of this station's stream.
    Station { number: u8, byte: u8 },
    /// A byte of the operator's stream.
    Operator(u8),
    /// The input's first fault.
    Bad(Trouble),
}

/// Bytes of one station's stream that come next in an input, whatever they are.
#[derive(Clone, Copy, Debug, PartialEq, Eq)]
pub struct Stretch {
    /// Whose bytes they are.
    pub number: u8,
    /// How many they are: all but the last one of the open record, and no more than the input may have.
    pub len: u64,
}

/// Reads an input of records for so many stations, byte after byte, up to its first fault, which it keeps.
#[derive(Drop)]
pub struct RecordReader {
    stations: u8,
    limit: u64,
    taken: u64,
    begun: u64,
    part: Part,
    fault: Option<Trouble>,
}

impl RecordReader {
    ghost use Rattle.hk_records.specs.Part.{IsFor};
    ghost use Rattle.hk_records.specs.Reader.{HasRead, EndsWith, IsGood, came_at, trouble_met, input_limit, stations_of, bytes_ahead};

    /// Nothing is read yet. An input of over `limit` bytes is too long.
    pub fn new(stations: u8, limit: u64) -> RecordReader
        ensures reads { HasRead result [] }
        ensures stations { stations_of result ≡ stations }
        ensures limit { input_limit result ≡ limit }
    {
        RecordReader {
            stations,
            limit,
            taken: 0,
            begun: 0,
            part: Part::Letter,
            fault: None,
        }
    }

    /// What the next byte is. After `Bad` each push answers that fault and changes nothing.
    pub fn push(&mut self, byte: u8) -> Came
        ensures came { (text : List ℕ) → HasRead self.old text → result ≡ came_at (stations_of self.old) (input_limit self.old) (text ++ byte ∷ []) }
        ensures reads { (text : List ℕ) → HasRead self.old text → IsGood result → HasRead self.new (text ++ byte ∷ []) }
        ensures known { (text : List ℕ) → HasRead self.old text → IsFor (stations_of self.old) result }
        ensures stations { stations_of self.new ≡ stations_of self.old }
        ensures limit { input_limit self.new ≡ input_limit self.old }
        ensures fault { (trouble : Trouble) → result ≡ Came.Bad trouble → trouble_met self.new ≡ Some trouble }
        ensures same_fault { (trouble : Trouble) → trouble_met self.old ≡ Some trouble → result ≡ Came.Bad trouble }
        ensures fault_changes_nothing { (trouble : Trouble) → trouble_met self.old ≡ Some trouble → self.new ≡ self.old }
    {
        if let Some(fault) = self.fault {
            return Came::Bad(fault);
        }
        if self.taken >= self.limit {
            return self.fail(Trouble::TooLong(self.limit));
        }
        let part = self.part;
        let begun = record_begin(part, self.taken, self.begun);
        if is_faulty(self.stations, part, byte) {
            return self.fail(Trouble::BadRecord(begun));
        }
        self.taken += 1;
        self.begun = begun;
        self.part = after(self.stations, part, byte);
        arrival(part, byte)
    }

    /// The bytes of a station's stream that come next, where a station's record is open. None elsewhere, and after a fault.
    pub fn stretch(&self) -> Option<Stretch>
        ensures len { IfSome result (λ stretch. stretch.len ≡ bytes_ahead self.now) }
        ensures arrive { IfSome result (λ stretch. (text bytes : List ℕ) → HasRead self.now text → length bytes ≤ stretch.len
            → arrivals (text ++ bytes) ≡ arrivals text ++ map (ForStation stretch.number) bytes) }
        ensures none { result ≡ None → trouble_met self.now ≡ None → bytes_ahead self.now ≡ 0 }
        ensures fault { (trouble : Trouble) → trouble_met self.now ≡ Some trouble → result ≡ None }
    {
        if self.fault.is_some() {
            return None;
        }
        let Part::Body(owner, left) = self.part else {
            return None;
        };
        let Owner::Station(number) = owner else {
            return None;
        };
        let inside = u64::from(left.saturating_sub(1));
        let room = self.limit.saturating_sub(self.taken);
        Some(Stretch {
            number,
            len: inside.min(room),
        })
    }

    /// Reads so many bytes of the stretch at once, whatever they are.
    pub fn skip(&mut self, count: u64)
        requires { count ≤ bytes_ahead self.old }
        ensures reads { (text bytes : List ℕ) → HasRead self.old text → length bytes ≡ count → HasRead self.new (text ++ bytes) }
        ensures stations { stations_of self.new ≡ stations_of self.old }
        ensures limit { input_limit self.new ≡ input_limit self.old }
        ensures fault_stays { trouble_met self.new ≡ trouble_met self.old }
    {
        if let Part::Body(owner, left) = self.part {
            self.taken += count;
            self.part = Part::Body(owner, left - count as u16);
        }
    }

    // Keeps the input's first fault.
    fn fail(&mut self, fault: Trouble) -> Came
        ensures told { result ≡ Came.Bad fault }
        ensures kept { trouble_met self.new ≡ Some fault }
        ensures stations { stations_of self.new ≡ stations_of self.old }
        ensures limit { input_limit self.new ≡ input_limit self.old }
    {
        self.fault = Some(fault);
        Came::Bad(fault)
    }

    /// How the input ends here: in order, inside a record, or with the fault that was met.
    pub fn finish(&self) -> Result<(), Trouble>
        ensures ends { (text : List ℕ) → HasRead self.now text → EndsWith (stations_of self.now) (input_limit self.now) text result }
        ensures fault { (trouble : Trouble) → trouble_met self.now ≡ Some trouble → result ≡ Err trouble }
    {
        if let Some(fault) = self.fault {
            return Err(fault);
        }
        match self.part {
            Part::Letter => Ok(()),
            _ => Err(Trouble::BadRecord(self.begun)),
        }
    }
}
