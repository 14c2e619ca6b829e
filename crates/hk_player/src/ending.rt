// How an input ends: its last lines, or what is wrong with it.
ghost use Rattle.std.specs.Prelude.{◌≡◌, []};
ghost use Rattle.hk_player.specs.Endings.{Does};

use crate::input::{Stop, play_input};
use crate::player::{Finished, Player};
use hk_base::{Sink, Source, Steps, Trouble};
use hk_report::write_trouble;
use std::sync::ledger::Ledger;

/// How an input that was played has ended: all of it is as it should be, with every stream in order or not; or it has a
/// fault; or reading or writing failed.
#[derive(Clone, Copy, Debug, PartialEq, Eq)]
pub enum Ending {
    Whole(bool),
    Stopped,
    ReadFault,
    SinkFault,
}

/// Plays the whole input, and writes its last lines or what stopped it.
pub fn play<P: Player, S: Source, K: Sink, L: Ledger>(
    player: &mut P,
    input: &mut S,
    out: &mut K,
    steps: &mut Steps<L>,
) -> Ending
    requires new { P.has_played player.old [] [] }
    requires nothing_printed { (P.task player.old).text [] [] ≡ [] }
    ensures does { Does S.Source K.Sink (P.task player.old) result input.old input.new out.old out.new }
{
    match play_input(player, input, out, steps) {
        Stop::End => match player.finish(out) {
            Finished::Whole(in_order) => Ending::Whole(in_order),
            Finished::Torn => Ending::SinkFault,
            Finished::Wrong(trouble) => match write_trouble(out, &trouble) {
                Ok(()) => Ending::Stopped,
                Err(_) => Ending::SinkFault,
            },
        },
        Stop::Stopped(trouble) => match write_trouble(out, &trouble) {
            Ok(()) => Ending::Stopped,
            Err(_) => Ending::SinkFault,
        },
        Stop::ReadFault => match write_trouble(out, &Trouble::ReadFault) {
            Ok(()) => Ending::ReadFault,
            Err(_) => Ending::SinkFault,
        },
        Stop::SinkFault => Ending::SinkFault,
    }
}
