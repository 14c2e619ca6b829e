// Laws of a station's log, for whoever hears many pieces.
ghost use Rattle.hk_station.specs.SinceStart.{PiecesJoin, TornJoins, LogSinceStart, TornSinceStart};

use hk_base::Sink;
use hk_block::Looker;

/// Pieces that a station heard one after another are one piece that it heard, and so where a write failed in the last.
pub fn pieces_join<V: Looker, K: Sink>()
    ensures heard { PiecesJoin V.Looker K.Sink }
    ensures torn { TornJoins V.Looker K.Sink }
{}

/// What a station has written since it was new is the log of the blocks of the bytes that it used, which are those that
/// the definitions name. Where a write failed, that holds of the lines before it, and of these with its line.
pub fn log_since_start<V: Looker, K: Sink>()
    ensures heard { LogSinceStart V.Looker K.Sink }
    ensures torn { TornSinceStart V.Looker K.Sink }
{}
