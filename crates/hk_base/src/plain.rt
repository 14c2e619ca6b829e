// Plain values. They have no model: contracts see their fields and variants.

/// Memory was refused.
#[derive(Clone, Copy, Debug, PartialEq, Eq)]
pub struct NoMemory;

/// A device failed.
#[derive(Clone, Copy, Debug, PartialEq, Eq)]
pub struct Failed;

/// How a program ends.
#[derive(Clone, Copy, Debug, PartialEq, Eq)]
pub struct Status {
    pub code: u8,
}

/// A sub-fingerprint, and the bits of it that may well be wrong.
#[derive(Clone, Copy, Debug, PartialEq, Eq)]
pub struct Print {
    pub word: u32,
    pub mask: u32,
}

/// What a stream carries: prints where `channels` is 0, and else sound.
#[derive(Clone, Copy, Debug, PartialEq, Eq)]
pub struct Form {
    pub channels: u8,
    pub factor: u8,
}

/// A start in a song that a block matches, with the bits that differ. Matches are ordered by id, then start, then errors.
#[derive(Clone, Copy, Debug, PartialEq, Eq, PartialOrd, Ord)]
pub struct Match {
    pub id: u32,
    pub start: u32,
    pub errors: u32,
}

/// What a read gave.
#[derive(Clone, Copy, Debug, PartialEq, Eq)]
pub enum Got {
    Bytes(usize),
    End,
    Failed,
}

/// What is wrong with a stream, with its place in the stream's bytes.
#[derive(Clone, Copy, Debug, PartialEq, Eq)]
pub enum WireFault {
    BadHello(u64),
    BadKind(u64),
    BadLength(u64),
    BadMask(u64),
    BadFormat(u64),
    Cut(u64),
    TooLong(u64),
}

/// How a station ended. `FenceAhead` has the version that a fence asked for, and the one that its look found.
#[derive(Clone, Copy, Debug, PartialEq, Eq)]
pub enum End {
    Ended,
    Wire(WireFault),
    FenceAhead(u32, u32),
    ReadFault,
    SinkFault,
    GateFault,
}

/// How the operator ended.
#[derive(Clone, Copy, Debug, PartialEq, Eq)]
pub enum OpEnd {
    Ended,
    Wire(WireFault),
    ReadFault,
    SinkFault,
}

/// Why a replay or a print stopped.
#[derive(Clone, Copy, Debug, PartialEq, Eq)]
pub enum Trouble {
    ReadFault,
    BadRecord(u64),
    TooLong(u64),
}

/// What a report line says before its list.
#[derive(Clone, Copy, Debug, PartialEq, Eq)]
pub struct Head {
    pub station: u8,
    pub block: u64,
    pub segment: u64,
    pub first: u64,
    pub version: u32,
}

/// Why a command is refused.
#[derive(Clone, Copy, Debug, PartialEq, Eq)]
pub enum Reason {
    Duplicate,
    Short,
    Unknown,
    SongsFull,
    PositionsFull,
    VersionsFull,
    SongOpen,
    NoSongOpen,
    NoMemory,
}

/// The answer to a command.
#[derive(Clone, Copy, Debug, PartialEq, Eq)]
pub enum What {
    Done,
    Published(u32),
    Refused(Reason),
}

/// The answer to a command, with the command's number, from 1.
#[derive(Clone, Copy, Debug, PartialEq, Eq)]
pub struct Reply {
    pub number: u64,
    pub what: What,
}
