// Report lines.
ghost use Rattle.std.specs.Prelude.{◌≡◌, ◌++◌};
ghost use Rattle.hk_base.specs.Writing.{Writes};
ghost use Rattle.hk_spec_lines.specs.Lines.{line, list_text, match_text};
ghost use Rattle.hk_report.specs.Pieces.{further_items};

use crate::head::write_head;
use crate::pieces::{Piece, write_pieces};
use hk_base::{Failed, Head, Match, Sink};

// Writes an item behind a separator.
fn write_item<K: Sink>(sink: &mut K, separator: &[u8], item: &Match) -> Result<(), Failed>
    ensures { Writes K.Sink (separator.now ++ match_text item.now) result sink.old sink.new }
{
    write_pieces(
        sink,
        &[
            Piece::Text(separator),
            Piece::Number(item.id as u64),
            Piece::Text(b"@"),
            Piece::Number(item.start as u64),
            Piece::Text(b"~"),
            Piece::Number(item.errors as u64),
        ],
    )
}

fn write_further<K: Sink>(sink: &mut K, items: &[Match]) -> Result<(), Failed>
    ensures { Writes K.Sink (further_items items.now) result sink.old sink.new }
{
    for item in items {
        match write_item(sink, b" ", item) {
            Ok(()) => {}
            Err(failed) => return Err(failed),
        }
    }
    Ok(())
}

fn write_list<K: Sink>(sink: &mut K, items: &[Match]) -> Result<(), Failed>
    ensures { Writes K.Sink (list_text items.now) result sink.old sink.new }
{
    match items.split_first() {
        None => write_pieces(sink, &[Piece::Text(b"none")]),
        Some((first, further)) => {
            match write_item(sink, b"", first) {
                Ok(()) => {}
                Err(failed) => return Err(failed),
            }
            write_further(sink, further)
        }
    }
}

fn write_parts<K: Sink>(sink: &mut K, head: &Head, matches: &[Match]) -> Result<(), Failed>
    ensures { Writes K.Sink (line head.now matches.now) result sink.old sink.new }
{
    match write_head(sink, head) {
        Ok(()) => {}
        Err(failed) => return Err(failed),
    }
    match write_list(sink, matches) {
        Ok(()) => {}
        Err(failed) => return Err(failed),
    }
    write_pieces(sink, &[Piece::Text(b"\n")])
}

/// Appends the report line of a look: its head, and the list of its matches in the order given. `Failed` leaves a
/// proper front of the line, and the sink's count of faults higher.
pub fn write_line<K: Sink>(sink: &mut K, head: &Head, matches: &[Match]) -> Result<(), Failed>
    ensures { Writes K.Sink (line head.now matches.now) result sink.old sink.new }
{
    write_parts(sink, head, matches)
}
