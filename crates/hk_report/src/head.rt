// What a report line has before its list: written, and read back.
ghost use Rattle.std.specs.Prelude.{◌≡◌, ◌++◌, IfOk, IfErr};
ghost use Rattle.hk_base.specs.Writing.{Writes};
ghost use Rattle.hk_spec_lines.specs.Lines.{head_text, HeadFits};
ghost use Rattle.hk_report.specs.Reports.{IsReport};
ghost use Rattle.hk_report.specs.LineReading.{StopsBefore};

use crate::pieces::{Piece, write_pieces};
use crate::read::{Misfit, read_field, read_word};
use hk_base::{Failed, Head, Sink};

// Writes it.
pub fn write_head<K: Sink>(sink: &mut K, head: &Head) -> Result<(), Failed>
    ensures { Writes K.Sink (head_text head.now) result sink.old sink.new }
{
    write_pieces(
        sink,
        &[
            Piece::Numbered(b"S", head.station as u64),
            Piece::Numbered(b" B", head.block),
            Piece::Numbered(b" G", head.segment),
            Piece::Numbered(b" W", head.first),
            Piece::Numbered(b" V", head.version as u64),
            Piece::Text(b": "),
        ],
    )
}

// Reads it, and answers what is left behind it.
pub fn read_head(bytes: &[u8]) -> Result<(Head, &[u8]), Misfit<'_>>
    ensures fits { IfOk result (λ read. HeadFits read.0) }
    ensures found { IfOk result (λ read. bytes.now ≡ head_text read.0 ++ read.1.now) }
    ensures misfit { IfErr result (λ misfit. StopsBefore IsReport bytes.now misfit.left.now) }
{
    let (station, rest) = read_field(bytes, b"S ", u8::MAX as u64)?;
    let (block, rest) = read_field(rest, b" B ", u64::MAX)?;
    let (segment, rest) = read_field(rest, b" G ", u64::MAX)?;
    let (first, rest) = read_field(rest, b" W ", u64::MAX)?;
    let (version, rest) = read_field(rest, b" V ", u32::MAX as u64)?;
    let rest = read_word(rest, b": ")?;
    let head = Head {
        station: station as u8,
        block,
        segment,
        first,
        version: version as u32,
    };
    Ok((head, rest))
}
