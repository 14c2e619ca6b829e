// The line of a made input.
ghost use Rattle.hk_base.specs.Writing.{Writes};
ghost use Rattle.hk_spec_lines.specs.Make.{made_line};

use crate::pieces::{Piece, write_pieces};
use hk_base::{Failed, Sink};

/// Appends the line of `make`: the blocks that were reported, the matches that they list, and the versions that were
/// published. `Failed` leaves a proper front of the line, and the sink's count of faults higher.
#[tactic(auto, unfolding(hk_spec_lines::specs::Make::made_line))]
pub fn write_made<K: Sink>(
    sink: &mut K,
    blocks: u64,
    matches: u64,
    versions: u64,
) -> Result<(), Failed>
    ensures { Writes K.Sink (made_line blocks matches versions) result sink.old sink.new }
{
    write_pieces(
        sink,
        &[
            Piece::Numbered(b"M blocks", blocks),
            Piece::Numbered(b" matches", matches),
            Piece::Numbered(b" versions", versions),
            Piece::Text(b"\n"),
        ],
    )
}
