// What an order does with an input and a sink.
ghost use Rattle.std.specs.Prelude.{◌≡◌, false};
ghost use Rattle.hk_spec_runs.specs.Outcome.{task_of};
ghost use Rattle.hk_words.specs.Orders.{order_meant, OrderFits};
ghost use Rattle.hk_replay.specs.Orders.{CarriesOut};

use crate::making::make;
use crate::printing::print;
use crate::replaying::replay;
use hk_base::{NoMemory, Sink, Source};
use hk_player::Ending;
use hk_words::Order;
use std::alloc::Global;

/// Carries an order out. Want of memory leaves the input and the sink as they were; to make an input reads nothing.
pub fn carry_out<S: Source, K: Sink>(
    alloc: Global,
    order: &Order,
    input: &mut S,
    out: &mut K,
) -> Result<Ending, NoMemory>
    requires fits { OrderFits order.now }
    ensures does { CarriesOut S.Source K.Sink (task_of (order_meant order.now)) result input.old input.new out.old out.new }
    ensures make_unread { (task_of (order_meant order.now)).reads ≡ false → input.new ≡ input.old }
{
    match order {
        Order::Replay(rules) => replay(alloc, rules, input, out),
        Order::Print(rules) => print(alloc, rules, input, out),
        Order::Make { seed, rules } => make(alloc, *seed, rules, out),
    }
}
