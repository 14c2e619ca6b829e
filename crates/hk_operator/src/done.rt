// What a byte did.
use hk_base::{OpEnd, Reply};

/// What a byte of the operator's stream did: nothing that is answered yet, a command that is answered, a publish with its
/// number, which the caller does and answers, or the stream's end by a fault.
#[derive(Clone, Copy, Debug, PartialEq, Eq)]
pub enum Done {
    More,
    Reply(Reply),
    Publish(u64),
    Over(OpEnd),
}
