// The whole input, piece after piece.
ghost use Rattle.std.specs.Prelude.{◌≡◌, [], Some};
ghost use Rattle.hk_base.specs.Devices.{Counts, IsNothing};
ghost use Rattle.hk_player.specs.Endings.{Between};
ghost use Rattle.hk_player.specs.Pieces.{WasPlayed, HasLeft, HasTorn, IfLeft};

use crate::piece::{Played, play_piece};
use crate::player::Player;
use hk_base::{Got, Sink, Source, Steps, Trouble};
use std::sync::ledger::Ledger;

// How many bytes are read at once.
const PIECE_SIZE: usize = 4096;

/// Why an input is read no further.
#[derive(Clone, Copy, Debug, PartialEq, Eq)]
pub enum Stop {
    End,
    Stopped(Trouble),
    ReadFault,
    SinkFault,
}

/// Plays the input to its end, or to the first byte at which it can't go on.
pub fn play_input<P: Player, S: Source, K: Sink, L: Ledger>(
    player: &mut P,
    input: &mut S,
    out: &mut K,
    steps: &mut Steps<L>,
) -> Stop
    requires new { P.has_played player.old [] [] }
    requires nothing_printed { (P.task player.old).text [] [] ≡ [] }
    ensures task_stays { P.task player.new ≡ P.task player.old }
    ensures end { result ≡ Stop.End → IsNothing (S.left input.new)
        × Between S.Source K.Sink input.old input.new out.old out.new (WasPlayed (P.has_played player.new) (P.task player.old)) }
    ensures read_fault { result ≡ Stop.ReadFault →
        Between S.Source K.Sink input.old input.new out.old out.new (WasPlayed (P.has_played player.new) (P.task player.old)) }
    ensures stopped { IfLeft result (λ trouble.
        Between S.Source K.Sink input.old input.new out.old out.new (HasLeft (P.task player.old) trouble)) }
    ensures torn { result ≡ Stop.SinkFault → Between S.Source K.Sink input.old input.new out.old out.new (HasTorn (P.task player.old)) }
    ensures met { IfLeft result (λ trouble. P.fault player.new ≡ Some trouble) }
    ensures reads { Counts (result ≡ Stop.ReadFault) (S.faults input.old) (S.faults input.new) }
    ensures writes { Counts (result ≡ Stop.SinkFault) (K.faults out.old) (K.faults out.new) }
{
    let mut buffer = [0u8; PIECE_SIZE];
    for _turn in 0..u64::MAX {
        let count = match input.read(&mut buffer) {
            Got::Bytes(count) => count,
            Got::End => return Stop::End,
            Got::Failed => return Stop::ReadFault,
        };
        match play_piece(player, &buffer[..count], out, steps) {
            Played::All => {}
            Played::Stopped(trouble) => return Stop::Stopped(trouble),
            Played::SinkFault => return Stop::SinkFault,
        }
    }
    Stop::End
}
