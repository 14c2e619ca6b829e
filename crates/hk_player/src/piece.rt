// Pieces of the input, each byte that completes something by itself.
ghost use Rattle.std.specs.Prelude.{◌≡◌, ◌++◌, ℕ, List, Some};
ghost use Rattle.hk_base.specs.Devices.{Counts};
ghost use Rattle.hk_player.specs.Playing.{Adds};
ghost use Rattle.hk_player.specs.Pieces.{StopsAt, IsTorn, IfPlayed};

use crate::player::{Player, Taken};
use hk_base::{Sink, Steps, Trouble};
use std::sync::ledger::Ledger;

/// What a player makes of a piece of the input.
#[derive(Clone, Copy, Debug, PartialEq, Eq)]
pub enum Played {
    All,
    Stopped(Trouble),
    SinkFault,
}

/// Plays a piece of the input, up to the first byte that meets a fault or at which writing fails.
pub fn play_piece<P: Player, K: Sink, L: Ledger>(
    player: &mut P,
    piece: &[u8],
    out: &mut K,
    steps: &mut Steps<L>,
) -> Played
    ensures task_stays { P.task player.new ≡ P.task player.old }
    ensures all { result ≡ Played.All → (refused text : List ℕ) → P.has_played player.old refused text
        → (refused' : List ℕ) × P.has_played player.new refused' (text ++ piece.now)
        × Adds (P.task player.old) refused text refused' (text ++ piece.now) (K.written out.old) (K.written out.new) }
    ensures stopped { IfPlayed result (λ trouble. (refused text : List ℕ) → P.has_played player.old refused text
        → StopsAt (P.task player.old) refused text (text ++ piece.now) trouble (K.written out.old) (K.written out.new)) }
    ensures torn { result ≡ Played.SinkFault → (refused text : List ℕ) → P.has_played player.old refused text
        → IsTorn (P.task player.old) refused text (text ++ piece.now) (K.written out.old) (K.written out.new) }
    ensures met { IfPlayed result (λ trouble. P.fault player.new ≡ Some trouble) }
    ensures faults { Counts (result ≡ Played.SinkFault) (K.faults out.old) (K.faults out.new) }
{
    let mut at = 0;
    for _turn in 0..piece.len() {
        at += player.listen(&piece[at..]);
        if at == piece.len() {
            return Played::All;
        }
        match player.take(piece[at], out, steps) {
            Taken::Going => at += 1,
            Taken::Stopped(trouble) => return Played::Stopped(trouble),
            Taken::SinkFault => return Played::SinkFault,
        }
    }
    Played::All
}
