// How far a record has come.
ghost use Rattle.std.specs.Prelude.{◌≡◌, ◌+◌, ◌∷◌, ◌++◌, [], ℕ, List, length, false};
ghost use Rattle.std.specs.Int.{w16, from_be_bytes};
ghost use Rattle.hk_base.specs.declared.plain.Trouble.{Trouble};
ghost use Rattle.hk_records.specs.Part.{IsFor, HasOwner, IsOneOf, IsPart, IsPartUnlessWhole, came_behind, has_bad_head, head_bytes};

use crate::reader::Came;
use byteorder::{BigEndian, ByteOrder};

/// Whose bytes a record has.
#[derive(Clone, Copy, Debug, PartialEq, Eq)]
pub enum Owner {
    Operator,
    Station(u8),
}

/// What comes next in an input, and what is known of the open record.
#[derive(Clone, Copy, Debug, PartialEq, Eq)]
pub enum Part {
    /// A record's letter: none is open.
    Letter,
    /// A station's number.
    Number,
    /// The length's high byte.
    High(Owner),
    /// The length's low byte, after this high byte.
    Low(Owner, u8),
    /// So many bytes of the owner's stream, at least one.
    Body(Owner, u16),
}

// Where the record begins that the next byte belongs to: where the open one does, or here.
pub fn record_begin(part: Part, taken: u64, begun: u64) -> u64
    ensures { (bytes : List ℕ) → IsPart part bytes → ((bytes ≡ [] → ⊥) → begun + length bytes ≡ taken) → result + length bytes ≡ taken }
{
    match part {
        Part::Letter => taken,
        _ => begun,
    }
}

// Whether the byte is no letter of a record, or no station's number.
pub fn is_faulty(stations: u8, part: Part, byte: u8) -> bool
    ensures { (bytes : List ℕ) → IsPart part bytes → result ≡ has_bad_head stations (bytes ++ byte ∷ []) }
{
    match part {
        Part::Letter => byte != b'S' && byte != b'O',
        Part::Number => byte >= stations,
        _ => false,
    }
}

// What the byte is: a byte of the open record's stream, or part of its head.
pub fn arrival(part: Part, byte: u8) -> Came
    ensures known { (stations : ℕ) → HasOwner stations part → IsFor stations result }
    ensures good { (trouble : Trouble) → result ≡ Came.Bad trouble → ⊥ }
    ensures arrived { (bytes : List ℕ) → IsPart part bytes → result ≡ came_behind bytes byte }
{
    match part {
        Part::Body(Owner::Operator, _) => Came::Operator(byte),
        Part::Body(Owner::Station(number), _) => Came::Station { number, byte },
        _ => Came::Head,
    }
}

// What comes after a byte that has no fault.
pub fn after(stations: u8, part: Part, byte: u8) -> Part
    ensures known { (bytes : List ℕ) → IsPart part bytes → has_bad_head stations (bytes ++ byte ∷ []) ≡ false → HasOwner stations part → HasOwner stations result }
    ensures rest { (bytes : List ℕ) → IsPart part bytes → has_bad_head stations (bytes ++ byte ∷ []) ≡ false →
        IsPartUnlessWhole result (bytes ++ byte ∷ []) }
{
    match part {
        Part::Letter if byte == b'S' => Part::Number,
        Part::Letter => Part::High(Owner::Operator),
        Part::Number => Part::High(Owner::Station(byte)),
        Part::High(owner) => Part::Low(owner, byte),
        Part::Low(owner, high) => body(owner, BigEndian::read_u16(&[high, byte])),
        Part::Body(owner, left) => body(owner, left.saturating_sub(1)),
    }
}

// The rest of a record with so many bytes left.
fn body(owner: Owner, left: u16) -> Part
    ensures known { (stations : ℕ) → IsOneOf stations owner → HasOwner stations result }
    ensures rest { (high low : ℕ) (payload : List ℕ) → length payload + left ≡ from_be_bytes w16 (high ∷ low ∷ []) →
        IsPartUnlessWhole result (head_bytes owner ++ high ∷ low ∷ payload) }
{
    if left == 0 {
        Part::Letter
    } else {
        Part::Body(owner, left)
    }
}
