// Reply lines.
ghost use Rattle.std.specs.Prelude.{◌≡◌, ◌++◌};
ghost use Rattle.hk_base.specs.Writing.{Writes};
ghost use Rattle.hk_spec_lines.specs.Lines.{reply_line, reason_text, what_text};
ghost use Rattle.hk_report.specs.Pieces.{piece_text};

use crate::pieces::{Piece, write_pieces};
use hk_base::{Failed, Reason, Reply, Sink, What};

fn reason_word(reason: Reason) -> &'static [u8]
    ensures { result.now ≡ reason_text reason }
{
    match reason {
        Reason::Duplicate => b"duplicate",
        Reason::Short => b"short",
        Reason::Unknown => b"unknown",
        Reason::SongsFull => b"songs-full",
        Reason::PositionsFull => b"positions-full",
        Reason::VersionsFull => b"versions-full",
        Reason::SongOpen => b"song-open",
        Reason::NoSongOpen => b"no-song-open",
        Reason::NoMemory => b"no-memory",
    }
}

// The last two pieces of an answer.
fn what_pieces(what: &What) -> (Piece<'static>, Piece<'static>)
    ensures { piece_text result.0 ++ piece_text result.1 ≡ what_text what.now }
{
    match what {
        What::Done => (Piece::Text(b"ok"), Piece::Text(b"")),
        What::Published(version) => (
            Piece::Numbered(b"published", *version as u64),
            Piece::Text(b""),
        ),
        What::Refused(reason) => (Piece::Text(b"refused "), Piece::Text(reason_word(*reason))),
    }
}

/// Appends the line of a reply: the command's number and the answer. `Failed` leaves a proper front of the line, and
/// the sink's count of faults higher.
#[tactic(auto, unfolding(hk_spec_lines::specs::Lines::reply_line))]
pub fn write_reply<K: Sink>(sink: &mut K, reply: &Reply) -> Result<(), Failed>
    ensures { Writes K.Sink (reply_line reply.now.number reply.now.what) result sink.old sink.new }
{
    let (answer, reason) = what_pieces(&reply.what);
    write_pieces(
        sink,
        &[
            Piece::Numbered(b"O", reply.number),
            Piece::Text(b" "),
            answer,
            reason,
            Piece::Text(b"\n"),
        ],
    )
}
