// Why an edit is refused.
use thiserror::Error;

/// Why an edit is refused, over published and staged edits, with its numbers.
#[derive(Clone, Copy, Debug, PartialEq, Eq, Error)]
pub enum Refused {
    /// A song with this id is there.
    #[error("a song with the id {0} is there")]
    Duplicate(u32),
    /// The song has so few words.
    #[error("a song has 256 words at least, and this one has {0}")]
    Short(u64),
    /// No song with this id is there.
    #[error("no song has the id {0}")]
    Unknown(u32),
    /// So many songs are there as there may be.
    #[error("there may be {0} songs, and they are there")]
    SongsFull(u32),
    /// So many words are free, and so many are wanted.
    #[error("{0} words are free, and {1} are wanted")]
    PositionsFull(u32, u64),
    /// So many versions were published as there may be.
    #[error("there may be {0} versions, and they were published")]
    VersionsFull(u32),
}
