// The kinds of command, one row a kind.
ghost use Rattle.std.specs.Prelude.{◌≡◌, option_map};
ghost use Rattle.hk_spec_streams.specs.Commands.{row_of, length_fits, is_form};
ghost use Rattle.hk_spec_streams.specs.Commands as kinds;
ghost use Rattle.hk_operator_wire.specs.Kinds.{kind_meant, lengths_meant, content_meant, row_meant};

/// The kinds of command.
#[derive(Clone, Copy, Debug, PartialEq, Eq)]
pub enum Kind {
    AddWords,
    OpenSong,
    Audio,
    Close,
    Withdraw,
    Publish,
}

/// The lengths that a payload may have: this one, so many bytes and any number of words of four bytes, or any.
#[derive(Clone, Copy, Debug)]
pub enum Lengths {
    Exactly(u32),
    WordsFrom(u32),
    Any,
}

/// What a payload brings behind its id, or from its first byte on where it has none.
#[derive(Clone, Copy, Debug)]
pub enum Content {
    Words,
    SoundForm,
    Sound,
    Nothing,
}

/// A kind: its number on the wire, the lengths of its payload, whether the payload begins with an id, and what it brings.
#[derive(Clone, Copy, Debug)]
pub struct Row {
    pub kind: Kind,
    pub number: u8,
    pub lengths: Lengths,
    pub has_id: bool,
    pub content: Content,
}

static KINDS: [Row; 6] = [
    Row {
        kind: Kind::AddWords,
        number: 1,
        lengths: Lengths::WordsFrom(4),
        has_id: true,
        content: Content::Words,
    },
    Row {
        kind: Kind::OpenSong,
        number: 2,
        lengths: Lengths::Exactly(6),
        has_id: true,
        content: Content::SoundForm,
    },
    Row {
        kind: Kind::Audio,
        number: 3,
        lengths: Lengths::Any,
        has_id: false,
        content: Content::Sound,
    },
    Row {
        kind: Kind::Close,
        number: 4,
        lengths: Lengths::Exactly(0),
        has_id: false,
        content: Content::Nothing,
    },
    Row {
        kind: Kind::Withdraw,
        number: 5,
        lengths: Lengths::Exactly(4),
        has_id: true,
        content: Content::Nothing,
    },
    Row {
        kind: Kind::Publish,
        number: 6,
        lengths: Lengths::Exactly(0),
        has_id: false,
        content: Content::Nothing,
    },
];

/// The row with this number.
pub fn row_of(number: u8) -> Option<Row>
    ensures { option_map row_meant result ≡ row_of number }
{
    for row in &KINDS {
        if row.number == number {
            return Some(*row);
        }
    }
    None
}

impl Kind {
    /// The kind with this number.
    pub fn numbered(number: u8) -> Option<Kind>
        ensures { option_map kind_meant result ≡ option_map (λ (row : kinds.Row). row.kind) (row_of number) }
    {
        match row_of(number) {
            Some(row) => Some(row.kind),
            None => None,
        }
    }
}

impl Lengths {
    /// Whether a payload may have this length.
    pub fn allow(&self, length: u32) -> bool
        ensures { result ≡ length_fits (lengths_meant self.now) length }
    {
        match *self {
            Lengths::Exactly(only) => length == only,
            Lengths::WordsFrom(least) => least <= length && length % 4 == 0,
            Lengths::Any => true,
        }
    }
}

impl Content {
    /// Whether a form is brought.
    pub fn is_form(&self) -> bool
        ensures { result ≡ is_form (content_meant self.now) }
    {
        match self {
            Content::SoundForm => true,
            _ => false,
        }
    }
}
