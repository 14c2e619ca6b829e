// What the first bytes of a command say, and what its last byte brings.
ghost use Rattle.std.specs.Prelude.{◌≡◌, ◌<◌, ◌≤◌};
ghost use Rattle.hk_operator_wire.specs.Kinds.{row_meant};
ghost use Rattle.hk_operator_wire.specs.Items.{row_brought, brought_by};
ghost use Rattle.hk_operator_wire.specs.Heads.{hello_allows, has_bad_form, head_fault};

use crate::item::Part;
use crate::kind::{Content, Row, row_of};
use hk_base::{Form, WireFault};
use hk_limits::{allows_channels, allows_factor};

/// A command's kind, how many of its bytes came, its length, and the bytes of a form; what didn't come counts as 0.
#[derive(Clone, Copy, Debug)]
pub struct CommandHead {
    pub kind: u8,
    pub count: u64,
    pub length: u32,
    pub channels: u8,
    pub factor: u8,
}

pub fn hello_allows(place: u64, byte: u8) -> bool
    requires { place < 4 }
    ensures { result ≡ hello_allows place byte }
{
    match place {
        0 => byte == b'H',
        1 => byte == b'K',
        2 => byte == b'O',
        _ => byte == b'1',
    }
}

// Whether the last byte belongs to a form, and isn't allowed there.
fn has_bad_form(row: Row, head: CommandHead) -> bool
    ensures { result ≡ has_bad_form (row_meant row) head }
{
    row.content.is_form()
        && match head.count {
            10 => !allows_channels(head.channels.into()),
            11 => !allows_factor(head.factor.into()),
            _ => false,
        }
}

/// What is wrong with a command whose last byte that came stands at this place.
pub fn head_fault(place: u64, head: CommandHead) -> Option<WireFault>
    requires { 3 ≤ place }
    ensures { result ≡ head_fault place head }
{
    let Some(row) = row_of(head.kind) else {
        return match head.count {
            1 => Some(WireFault::BadKind(place)),
            5 => Some(WireFault::BadLength(place - 3)),
            _ => None,
        };
    };
    if head.count == 5 && !row.lengths.allow(head.length) {
        Some(WireFault::BadLength(place - 3))
    } else if has_bad_form(row, head) {
        Some(WireFault::BadFormat(place))
    } else {
        None
    }
}

/// What the command's last byte that came brings; `number` is the last four bytes.
pub fn brought_by(head: CommandHead, number: u32, byte: u8) -> Part
    ensures { result ≡ brought_by head number byte }
{
    if head.count == 5 {
        return Part::Begin(head.kind);
    }
    match row_of(head.kind) {
        Some(row) => row_brought(row, head, number, byte),
        None => Part::Nothing,
    }
}

// The same behind the kind's length.
fn row_brought(row: Row, head: CommandHead, number: u32, byte: u8) -> Part
    ensures { result ≡ row_brought (row_meant row) head number byte }
{
    if row.has_id && head.count == 9 {
        return Part::Id(number);
    }
    let payload = head.count.saturating_sub(5);
    match row.content {
        Content::Words if payload > 4 && payload % 4 == 0 => Part::Word(number),
        Content::SoundForm if payload == 6 => Part::Form(Form {
            channels: head.channels,
            factor: head.factor,
        }),
        Content::Sound if payload > 0 => Part::Byte(byte),
        _ => Part::Nothing,
    }
}
