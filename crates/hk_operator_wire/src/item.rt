// What a byte of an operator's stream brings.
ghost use Rattle.std.specs.Prelude.{◌≡◌};
ghost use Rattle.hk_operator_wire.specs.Items.{joined, part_of, ends};

use hk_base::{Form, WireFault};

/// What a byte of an operator's stream brings: `Begin` with the kind's number at the last length byte of a command, `Id` at
/// the fourth payload byte, `Word` at each further four of added words, `Form` at the sixth of an open song, and `Byte` for
/// each byte of sound. A byte that ends its command brings `Both`, so `Complete` and a lone `Form` never come.
#[derive(Clone, Copy, Debug, PartialEq, Eq)]
pub enum OpItem {
    Nothing,
    Begin(u8),
    Id(u32),
    Word(u32),
    Form(Form),
    Byte(u8),
    Complete,
    Both(OpLast),
    Fault(WireFault),
}

/// What a byte brings that also ends its command.
#[derive(Clone, Copy, Debug, PartialEq, Eq)]
pub enum OpLast {
    BeginComplete(u8),
    IdComplete(u32),
    WordComplete(u32),
    FormComplete(Form),
    ByteComplete(u8),
}

/// What a byte brings, whether or not it ends its command.
#[derive(Clone, Copy, Debug, PartialEq, Eq)]
pub enum Part {
    Nothing,
    Begin(u8),
    Id(u32),
    Word(u32),
    Form(Form),
    Byte(u8),
}

impl OpItem {
    /// The item of a byte that brings this, and may end its command.
    pub fn joined(part: Part, ends: bool) -> OpItem
        ensures { result ≡ joined part ends }
    {
        match part {
            Part::Nothing if ends => OpItem::Complete,
            Part::Begin(kind) if ends => OpItem::Both(OpLast::BeginComplete(kind)),
            Part::Id(id) if ends => OpItem::Both(OpLast::IdComplete(id)),
            Part::Word(word) if ends => OpItem::Both(OpLast::WordComplete(word)),
            Part::Form(form) if ends => OpItem::Both(OpLast::FormComplete(form)),
            Part::Byte(byte) if ends => OpItem::Both(OpLast::ByteComplete(byte)),
            Part::Nothing => OpItem::Nothing,
            Part::Begin(kind) => OpItem::Begin(kind),
            Part::Id(id) => OpItem::Id(id),
            Part::Word(word) => OpItem::Word(word),
            Part::Form(form) => OpItem::Form(form),
            Part::Byte(byte) => OpItem::Byte(byte),
        }
    }

    /// What the byte brings, whether or not it ends its command; nothing at a fault.
    pub fn part(self) -> Part
        ensures { result ≡ part_of self }
    {
        match self {
            OpItem::Begin(kind) | OpItem::Both(OpLast::BeginComplete(kind)) => Part::Begin(kind),
            OpItem::Id(id) | OpItem::Both(OpLast::IdComplete(id)) => Part::Id(id),
            OpItem::Word(word) | OpItem::Both(OpLast::WordComplete(word)) => Part::Word(word),
            OpItem::Form(form) | OpItem::Both(OpLast::FormComplete(form)) => Part::Form(form),
            OpItem::Byte(byte) | OpItem::Both(OpLast::ByteComplete(byte)) => Part::Byte(byte),
            OpItem::Nothing | OpItem::Complete | OpItem::Fault(_) => Part::Nothing,
        }
    }

    /// Whether the byte ends its command.
    pub fn ends(self) -> bool
        ensures { result ≡ ends self }
    {
        matches!(self, OpItem::Both(_) | OpItem::Complete)
    }
}
