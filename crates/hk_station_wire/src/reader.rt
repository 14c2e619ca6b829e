// What a station's bytes bring, as long as no fault is met.
ghost use Rattle.std.specs.Prelude.{◌≡◌, ◌≤◌, ◌<◌, ◌+◌, ◌-◌, ◌^◌, ◌++◌, ℕ, List, [], ◌∷◌, length, take, false, None, IfOk, IsTrue};
ghost use Rattle.hk_spec_streams.specs.Station.{station_grammar, station_fault, station_length_fits, factors_for};
ghost use Rattle.hk_spec_streams.specs.Pieces.{is_one_of};
ghost use Rattle.hk_spec_streams.specs.Grammar.{ends_at_start};
ghost use Rattle.hk_wire.specs.Held.{gathered, length_size};
ghost use Rattle.hk_wire.specs.declared.packet.LengthSize.TheVariants.{Two};

use crate::item::Item;
use hk_base::{Form, Print, WireFault};
use hk_limits::{Range, allows_channels, allows_factor};
use hk_wire::{Gathered, LastPacket, LengthSize};

pub const HELLO_SIZE: u64 = 6;

// How many bytes a packet's kind and length are.
const HEAD_SIZE: u64 = 3;

const DATA: u8 = 1;

const FENCE: u8 = 2;

const GAP: u8 = 3;

const PRINT_SIZE: usize = 8;

/// What the hello told, the last packet, and what the last segment has beyond its whole prints.
#[derive(Debug, Drop)]
pub struct Reader {
    told: Form,
    packet: LastPacket,
    group: Gathered,
    ghost short_lengths: { length_size packet ≡ Two },
    ghost few_channels: { told.channels ≤ 2 },
}

impl Reader {
    ghost use Rattle.hk_station_wire.specs.Taken.{StandsAfter, TellsItem, HasByte, packet_count};
    ghost use Rattle.hk_station_wire.specs.Sounding.{SoundAhead};
    ghost use Rattle.hk_station_wire.specs.Items.{is_fault, HasForm};

    pub fn new() -> Reader
        ensures stands { StandsAfter result [] }
        ensures none { packet_count result ≡ 0 }
    {
        Reader {
            told: Form {
                channels: 0,
                factor: 0,
            },
            packet: LastPacket::new(LengthSize::Two),
            group: Gathered::new(),
        }
    }

    /// Takes the byte at this place: what it brings, or the fault that it meets.
    pub fn take(&mut self, place: u64, byte: u8) -> Result<Item, WireFault>
        requires room { place < 2 ^ 64 - 1 }
        requires within { packet_count self.old ≤ place }
        ensures good { IfOk result (λ item. is_fault item ≡ false) }
        ensures form { IfOk result HasForm }
        ensures brings { (limit : ℕ) (text : List ℕ) → place ≡ length text → place < limit → StandsAfter self.old text
            → TellsItem result self.new limit (text ++ byte ∷ []) }
        ensures within { packet_count self.new ≤ place + 1 }
    {
        if place < HELLO_SIZE {
            self.take_hello(place, byte)
        } else {
            self.packet.push(byte);
            self.take_packet(place, byte)
        }
    }

    /// How many bytes of sound come next whatever they are: those that their packet lacks, once its first twelve have come.
    pub fn sound_ahead(&self) -> u64
        ensures { (limit count : ℕ) (text : List ℕ) → StandsAfter self.now text → station_fault limit text ≡ None
            → 0 < count → count ≤ result → length text + count ≤ limit → SoundAhead limit text count }
    {
        if self.told.channels == 0 || self.packet.kind() != DATA || self.packet.count() < 12 {
            return 0;
        }
        let size = HEAD_SIZE + u64::from(self.packet.length());
        size.saturating_sub(self.packet.count())
    }

    /// Takes so many bytes of sound at once.
    pub fn skip(&mut self, count: u64)
        requires { packet_count self.old + count < 2 ^ 64 }
        ensures stands { (limit : ℕ) (text bytes : List ℕ) → StandsAfter self.old text → SoundAhead limit text (length bytes)
            → length bytes ≡ count → StandsAfter self.new (text ++ bytes) }
        ensures within { packet_count self.new ≡ packet_count self.old + count }
    {
        self.packet.skip(count);
    }

    /// Whether a packet may begin at this place.
    pub fn is_at_start(&self, place: u64) -> bool
        ensures { (text : List ℕ) → place ≡ length text → StandsAfter self.now text → result ≡ ends_at_start station_grammar text }
    {
        HELLO_SIZE <= place && self.packet.is_over()
    }

    fn take_hello(&mut self, place: u64, byte: u8) -> Result<Item, WireFault>
        requires { place < 6 }
        ensures good { IfOk result (λ item. is_fault item ≡ false) }
        ensures form { IfOk result HasForm }
        ensures same_packet { packet_count self.new ≡ packet_count self.old }
        ensures brings { (limit : ℕ) (text : List ℕ) → place ≡ length text → place < limit → StandsAfter self.old text
            → TellsItem result self.new limit (text ++ byte ∷ []) }
    {
        if !hello_allows(place, self.told.channels, byte) {
            return Err(WireFault::BadHello(place));
        }
        match place {
            4 => self.told.channels = byte,
            5 => {
                self.told.factor = byte;
                return Ok(Item::Hello(self.told));
            }
            _ => {}
        }
        Ok(Item::Nothing)
    }

    // The same behind the hello, where the last packet has the byte already.
    fn take_packet(&mut self, place: u64, byte: u8) -> Result<Item, WireFault>
        requires { 6 ≤ place }
        ensures good { IfOk result (λ item. is_fault item ≡ false) }
        ensures form { IfOk result HasForm }
        ensures same_packet { packet_count self.new ≡ packet_count self.old }
        ensures brings { (limit : ℕ) (text : List ℕ) → place ≡ length text → place < limit → HasByte self.old text byte
            → TellsItem result self.new limit (text ++ byte ∷ []) }
    {
        let count = self.packet.count();
        let kind = self.packet.kind();
        if let Some(fault) = head_fault(place, count, kind, self.packet.length()) {
            return Err(fault);
        }
        match part_of(kind, count) {
            Part::Data if self.told.channels != 0 => Ok(Item::Byte(byte)),
            Part::Data => take_print(&mut self.group, place, byte),
            Part::FenceEnd => Ok(Item::Fence(self.packet.number(3))),
            Part::GapBegin => {
                self.group = Gathered::new();
                Ok(Item::Nothing)
            }
            Part::GapEnd => Ok(Item::Gap),
            Part::Other => Ok(Item::Nothing),
        }
    }
}

// What a byte is in its packet.
#[derive(Clone, Copy, Debug, PartialEq, Eq)]
enum Part {
    Data,
    FenceEnd,
    GapBegin,
    GapEnd,
    Other,
}

ghost use Rattle.hk_station_wire.specs.Items.{is_fault, HasForm};
ghost use Rattle.hk_spec_streams.specs.Station.{hello_allows};
ghost use Rattle.hk_station_wire.specs.Steps.{is_kind, head_fault, part_of, left_of_print, print_outcome};

fn hello_allows(place: u64, channels: u8, byte: u8) -> bool
    requires { place < 6 }
    ensures allows { result ≡ hello_allows place channels byte }
    ensures channels { IsTrue result → place ≡ 4 → byte ≤ 2 }
    ensures factor { IsTrue result → place ≡ 5 → (1 ≤ byte) × (byte ≤ 8) }
{
    match place {
        0 => byte == b'H',
        1 => byte == b'K',
        2 => byte == b'S',
        3 => byte == b'1',
        4 => byte == 0 || allows_channels(byte.into()),
        _ => factor_allowed(channels, byte),
    }
}

fn factor_allowed(channels: u8, byte: u8) -> bool
    ensures allowed { result ≡ is_one_of (factors_for channels) byte }
    ensures range { IsTrue result → (1 ≤ byte) × (byte ≤ 8) }
{
    match channels {
        0 => byte == 1,
        _ => allows_factor(byte.into()),
    }
}

fn is_kind(kind: u8) -> bool
    ensures { result ≡ is_kind kind }
{
    kind == DATA || kind == FENCE || kind == GAP
}

fn length_fits(kind: u8, length: u32) -> bool
    ensures { result ≡ station_length_fits kind length }
{
    kind == DATA || (kind == FENCE && length == 4) || (kind == GAP && length == 0)
}

fn head_fault(place: u64, count: u64, kind: u8, packet_length: u32) -> Option<WireFault>
    requires { 6 ≤ place }
    ensures { result ≡ head_fault 3 place count kind packet_length }
{
    match count {
        1 if !is_kind(kind) => Some(WireFault::BadKind(place)),
        HEAD_SIZE if !length_fits(kind, packet_length) => Some(WireFault::BadLength(
            place - (HEAD_SIZE - 2),
        )),
        _ => None,
    }
}

fn part_of(kind: u8, count: u64) -> Part
    ensures { result ≡ part_of 3 kind count }
{
    match kind {
        DATA if count > HEAD_SIZE => Part::Data,
        FENCE if count == HEAD_SIZE + 4 => Part::FenceEnd,
        GAP if count == 1 => Part::GapBegin,
        GAP if count == HEAD_SIZE => Part::GapEnd,
        _ => Part::Other,
    }
}

// Takes the next byte of the prints of a segment.
fn take_print(group: &mut Gathered, place: u64, byte: u8) -> Result<Item, WireFault>
    ensures good { IfOk result (λ item. is_fault item ≡ false) }
    ensures form { IfOk result HasForm }
    ensures left { gathered group.new ≡ left_of_print (take 12 (gathered group.old ++ byte ∷ [])) }
    ensures outcome { result ≡ print_outcome place (take 12 (gathered group.old ++ byte ∷ [])) }
{
    group.push(byte);
    if group.len() < PRINT_SIZE {
        return Ok(Item::Nothing);
    }
    let print = Print {
        word: group.number(0),
        mask: group.number(4),
    };
    *group = Gathered::new();
    if u64::from(print.mask.count_ones()) > Range::FLIPS.most {
        return Err(WireFault::BadMask(place));
    }
    Ok(Item::Print(print))
}
