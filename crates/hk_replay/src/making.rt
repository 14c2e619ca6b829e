// The replay of an input that is made.
ghost use Rattle.std.specs.Prelude.{◌≡◌, ℕ, List, IfOk};
ghost use Rattle.hk_spec_sound.specs.Limits.{IsInRange, SEED};
ghost use Rattle.hk_spec_lines.specs.Make.{made_line};
ghost use Rattle.hk_spec_made.specs.Input.{make_input};
ghost use Rattle.hk_spec_runs.specs.Make.{make_line};
ghost use Rattle.hk_spec_runs.specs.Replay as runs;
ghost use Rattle.hk_words.specs.Rules.{rules_meant, RulesFit};
ghost use Rattle.hk_replay.specs.Orders.{HasMade};

use crate::counts::{Counts, counts_of};
use crate::replaying::replay;
use crate::text::Text;
use hk_base::{MemorySource, NoMemory, Sink};
use hk_made::made_input;
use hk_player::Ending;
use hk_report::write_made;
use hk_words::RunRules;
use std::alloc::Global;

/// Replays the input that is made from a seed, and writes the line of its numbers. Want of memory, also in a command of that
/// input, leaves the sink as it was.
pub fn make<K: Sink>(
    alloc: Global,
    seed: u32,
    rules: &RunRules,
    out: &mut K,
) -> Result<Ending, NoMemory>
    requires seed { IsInRange SEED seed }
    requires fits { RulesFit rules.now }
    ensures made { HasMade K.Sink (make_line (rules_meant rules.now) seed) result out.old out.new }
{
    let counts = made_counts(alloc, seed, rules)?;
    match write_made(out, counts.blocks, counts.matches, counts.versions) {
        Ok(()) => Ok(Ending::Whole(true)),
        Err(_) => Ok(Ending::SinkFault),
    }
}

// The numbers of the line.
fn made_counts(alloc: Global, seed: u32, rules: &RunRules) -> Result<Counts, NoMemory>
    requires seed { IsInRange SEED seed }
    requires fits { RulesFit rules.now }
    ensures { IfOk result (λ counts. make_line (rules_meant rules.now) seed ≡ made_line counts.blocks counts.matches counts.versions) }
{
    let text = made_text(alloc, seed, rules)?;
    let counts = counts_of(text.bytes());
    if counts.refusals > 0 {
        return Err(NoMemory);
    }
    Ok(counts)
}

// The text of the made input's replay. That input has no fault and none of its reads fails; what is left is want of memory.
fn made_text(alloc: Global, seed: u32, rules: &RunRules) -> Result<Text, NoMemory>
    requires seed { IsInRange SEED seed }
    requires fits { RulesFit rules.now }
    ensures { IfOk result (λ text. (refused : List ℕ)
        × (text.bytes.items ≡ runs.replay (rules_meant rules.now) (make_input seed rules.now.stations rules.now.flips) refused)) }
{
    let bytes = made_input(alloc, seed, rules.stations, rules.flips)?;
    let mut input = MemorySource::new(bytes, Vec::new(alloc), Vec::new(alloc));
    let mut text = Text::new(alloc);
    match replay(alloc, rules, &mut input, &mut text)? {
        Ending::Whole(_) => Ok(text),
        Ending::Stopped | Ending::ReadFault | Ending::SinkFault => Err(NoMemory),
    }
}
