// The wire of a station's stream.
ghost use Rattle.std.specs.Prelude.{◌≡◌, ◌≤◌, ◌<◌, ◌+◌, ◌++◌, if◌then◌else◌, ℕ, List, [], ◌∷◌, length, Some, None};
ghost use Rattle.std.specs.Result.{result_err};
ghost use Rattle.hk_base.specs.declared.plain.WireFault.{WireFault};
ghost use Rattle.hk_spec_streams.specs.Station.{station_wrong, station_seen};
ghost use Rattle.hk_wire.specs.Held.{count_of};
ghost use Rattle.hk_wire.specs.Kept.{bytes_taken, fault_kept};

use crate::item::Item;
use crate::reader::Reader;
use hk_base::WireFault;
use hk_wire::Passage;

/// A station's stream as far as it was taken. It keeps its place, its last packet and its fault, and no history.
#[derive(Debug, Drop)]
pub struct Wire {
    passage: Passage,
    reader: Reader,
    ghost begun: { fault_kept passage ≡ None → count_of reader.packet ≤ bytes_taken passage },
}

impl Wire {
    ghost use Rattle.hk_station_wire.specs.Taken.{HasTaken, limit_of, count_taken, fault_met};
    ghost use Rattle.hk_station_wire.specs.Items.{item_at, is_fault, HasForm};
    ghost use Rattle.hk_station_wire.specs.Sounding.{AreSound, SoundAhead};

    /// A wire that has taken nothing, and takes at most `limit` bytes.
    pub fn new(limit: u64) -> Wire
        ensures nothing_taken { HasTaken result [] }
        ensures limit { limit_of result ≡ limit }
        ensures none { count_taken result ≡ 0 }
    {
        Wire {
            passage: Passage::new(limit),
            reader: Reader::new(),
        }
    }

    /// Takes the stream's next byte, and answers with what it brings. After a fault each push answers that fault and
    /// changes nothing.
    pub fn push(&mut self, byte: u8) -> Item
        ensures item { (text : List ℕ) → HasTaken self.old text → result ≡ item_at (limit_of self.old) (text ++ byte ∷ []) }
        ensures taken { (text : List ℕ) → HasTaken self.old text → HasTaken self.new (text ++ byte ∷ []) }
        ensures limit_stays { limit_of self.new ≡ limit_of self.old }
        ensures counts { count_taken self.new ≡ count_taken self.old + (if is_fault result then 0 else 1) }
        ensures room { count_taken self.new ≤ limit_of self.new }
        ensures form { HasForm result }
        ensures same_fault { (fault : WireFault) → fault_met self.old ≡ Some fault → result ≡ Item.Fault fault }
        ensures fault_changes_nothing { (fault : WireFault) → fault_met self.old ≡ Some fault → self.new ≡ self.old }
    {
        let place = match self.passage.next_place() {
            Ok(place) => place,
            Err(fault) => return Item::Fault(fault),
        };
        match self.reader.take(place, byte) {
            Ok(item) => {
                self.passage.advance();
                item
            }
            Err(fault) => {
                self.passage.fail(fault);
                Item::Fault(fault)
            }
        }
    }

    /// How many bytes of sound come next whatever they are: within their packet, of which twelve have come, and within the
    /// limit. None after a fault.
    pub fn stretch(&self) -> u64
        ensures room { count_taken self.now + result ≤ limit_of self.now }
        ensures going { 0 < result → fault_met self.now ≡ None }
        ensures sound { (text bytes : List ℕ) → HasTaken self.now text → length bytes ≤ result → AreSound (limit_of self.now) text bytes }
        ensures ahead { (count : ℕ) (text : List ℕ) → HasTaken self.now text → 0 < count → count ≤ result → SoundAhead (limit_of self.now) text count }
    {
        self.reader.sound_ahead().min(self.passage.room())
    }

    /// Takes so many bytes of sound at once, whatever they are.
    pub fn skip(&mut self, count: u64)
        requires going { fault_met self.old ≡ None }
        requires room { count_taken self.old + count ≤ limit_of self.old }
        ensures taken { (text bytes : List ℕ) → HasTaken self.old text → SoundAhead (limit_of self.old) text (length bytes)
            → length bytes ≡ count → HasTaken self.new (text ++ bytes) }
        ensures limit_stays { limit_of self.new ≡ limit_of self.old }
        ensures counts { count_taken self.new ≡ count_taken self.old + count }
    {
        self.passage.advance_by(count);
        self.reader.skip(count);
    }

    /// Whether the stream may end here: Ok at a packet's border behind the hello, and else the fault that was met, or
    /// Cut with the number of bytes. Changes nothing.
    pub fn finish(&mut self) -> Result<(), WireFault>
        ensures outcome { (text : List ℕ) → HasTaken self.old text → result_err result ≡ station_wrong (limit_of self.old) text }
        ensures changes_nothing { self.new ≡ self.old }
    {
        let may_end = self.reader.is_at_start(self.passage.taken());
        self.passage.finish(may_end)
    }

    /// How many bytes were taken before the fault, or in all.
    pub fn taken(&self) -> u64
        ensures count { result ≡ count_taken self.now }
        ensures seen { (text : List ℕ) → HasTaken self.now text → result ≡ length (station_seen (limit_of self.now) text) }
    {
        self.passage.taken()
    }
}
