// The lines of a run's end.
ghost use Rattle.std.specs.Prelude.{◌≡◌};
ghost use Rattle.hk_base.specs.Writing.{Writes};
ghost use Rattle.hk_spec_lines.specs.Lines.{station_line, operator_line, mismatch_line, trouble_line, fault_text, end_text, operator_end_text, trouble_text};
ghost use Rattle.hk_report.specs.Pieces.{piece_text};

use crate::pieces::{Piece, write_pieces};
use hk_base::{End, Failed, OpEnd, Sink, Trouble, WireFault};

fn fault_piece(fault: &WireFault) -> Piece<'static>
    ensures { piece_text result ≡ fault_text fault.now }
{
    match fault {
        WireFault::BadHello(place) => Piece::Numbered(b"bad-hello", *place),
        WireFault::BadKind(place) => Piece::Numbered(b"bad-kind", *place),
        WireFault::BadLength(place) => Piece::Numbered(b"bad-length", *place),
        WireFault::BadMask(place) => Piece::Numbered(b"bad-mask", *place),
        WireFault::BadFormat(place) => Piece::Numbered(b"bad-format", *place),
        WireFault::Cut(place) => Piece::Numbered(b"cut", *place),
        WireFault::TooLong(limit) => Piece::Numbered(b"too-long", *limit),
    }
}

fn end_piece(end: &End) -> Piece<'static>
    ensures { piece_text result ≡ end_text end.now }
{
    match end {
        End::Ended => Piece::Text(b"ended"),
        End::Wire(fault) => fault_piece(fault),
        End::FenceAhead(asked, found) => {
            Piece::NumberedTwice(b"fence-ahead", *asked as u64, *found as u64)
        }
        End::ReadFault => Piece::Text(b"read-fault"),
        End::SinkFault => Piece::Text(b"sink-fault"),
        End::GateFault => Piece::Text(b"gate-fault"),
    }
}

fn operator_end_piece(end: &OpEnd) -> Piece<'static>
    ensures { piece_text result ≡ operator_end_text end.now }
{
    match end {
        OpEnd::Ended => Piece::Text(b"ended"),
        OpEnd::Wire(fault) => fault_piece(fault),
        OpEnd::ReadFault => Piece::Text(b"read-fault"),
        OpEnd::SinkFault => Piece::Text(b"sink-fault"),
    }
}

fn trouble_piece(trouble: &Trouble) -> Piece<'static>
    ensures { piece_text result ≡ trouble_text trouble.now }
{
    match trouble {
        Trouble::ReadFault => Piece::Text(b"read-fault"),
        Trouble::BadRecord(place) => Piece::Numbered(b"bad-record", *place),
        Trouble::TooLong(limit) => Piece::Numbered(b"too-long", *limit),
    }
}

/// Appends the summary line of a station: its whole lines, the version of its last look, and how it ended. `Failed`
/// leaves a proper front of the line, and the sink's count of faults higher.
#[tactic(auto, unfolding(hk_spec_lines::specs::Lines::station_line))]
pub fn write_station<K: Sink>(
    sink: &mut K,
    station: u8,
    blocks: u64,
    version: u32,
    end: &End,
) -> Result<(), Failed>
    ensures { Writes K.Sink (station_line station blocks version end.now) result sink.old sink.new }
{
    write_pieces(
        sink,
        &[
            Piece::NumberedTwice(b"T S", station as u64, blocks),
            Piece::Text(b" "),
            Piece::Number(version as u64),
            Piece::Text(b" "),
            end_piece(end),
            Piece::Text(b"\n"),
        ],
    )
}

/// Appends the summary line of the operator: the commands that were answered, the versions that were published, and
/// how it ended. `Failed` leaves a proper front of the line, and the sink's count of faults higher.
#[tactic(auto, unfolding(hk_spec_lines::specs::Lines::operator_line))]
pub fn write_operator<K: Sink>(
    sink: &mut K,
    commands: u64,
    version: u32,
    end: &OpEnd,
) -> Result<(), Failed>
    ensures { Writes K.Sink (operator_line commands version end.now) result sink.old sink.new }
{
    write_pieces(
        sink,
        &[
            Piece::NumberedTwice(b"T O", commands, version as u64),
            Piece::Text(b" "),
            operator_end_piece(end),
            Piece::Text(b"\n"),
        ],
    )
}

/// Appends the line of a mismatch: the version that the station saw last, and that of the desk. `Failed` leaves a
/// proper front of the line, and the sink's count of faults higher.
#[tactic(auto, unfolding(hk_spec_lines::specs::Lines::mismatch_line))]
pub fn write_mismatch<K: Sink>(
    sink: &mut K,
    station: u8,
    seen: u32,
    desk: u32,
) -> Result<(), Failed>
    ensures { Writes K.Sink (mismatch_line station seen desk) result sink.old sink.new }
{
    write_pieces(
        sink,
        &[
            Piece::NumberedTwice(b"T M", station as u64, seen as u64),
            Piece::Text(b" "),
            Piece::Number(desk as u64),
            Piece::Text(b"\n"),
        ],
    )
}

/// Appends the line of what stopped a replay or a print. `Failed` leaves a proper front of the line, and the sink's
/// count of faults higher.
#[tactic(auto, unfolding(hk_spec_lines::specs::Lines::trouble_line))]
pub fn write_trouble<K: Sink>(sink: &mut K, trouble: &Trouble) -> Result<(), Failed>
    ensures { Writes K.Sink (trouble_line trouble.now) result sink.old sink.new }
{
    write_pieces(
        sink,
        &[
            Piece::Text(b"R "),
            trouble_piece(trouble),
            Piece::Text(b"\n"),
        ],
    )
}
