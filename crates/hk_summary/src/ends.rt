// How the streams of a run ended.
use hk_base::{End, OpEnd};

/// A station by its number: its whole lines, the version of its last look, and its end.
#[derive(Clone, Copy, Debug, PartialEq, Eq)]
pub struct StationEnd {
    pub number: u8,
    pub blocks: u64,
    pub version: u32,
    pub end: End,
}

/// The operator: the commands that were answered, the versions that were published, and the end.
#[derive(Clone, Copy, Debug, PartialEq, Eq)]
pub struct OperatorEnd {
    pub commands: u64,
    pub published: u32,
    pub end: OpEnd,
}
