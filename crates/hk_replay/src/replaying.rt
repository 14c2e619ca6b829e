// The replay of records.
ghost use Rattle.std.specs.Prelude.{◌≡◌, ◌<◌, []};
ghost use Rattle.hk_spec_runs.specs.Outcome.{task_of};
ghost use Rattle.hk_spec_runs.specs.Words.{Replay};
ghost use Rattle.hk_words.specs.Rules.{rules_meant, RulesFit};
ghost use Rattle.hk_run.specs.Playing.{HasPlayed};
ghost use Rattle.hk_player.specs.Endings.{Does};
ghost use Rattle.hk_replay.specs.Orders.{CarriesOut};

use hk_base::{NoMemory, Sink, Source, Steps};
use hk_player::{Ending, play};
use hk_run::Run;
use hk_words::RunRules;
use std::alloc::Global;
use std::marker::Brand;
use std::sync::ledger::{Blank, Ledger};

/// Replays the input by these rules.
pub fn replay<S: Source, K: Sink>(
    alloc: Global,
    rules: &RunRules,
    input: &mut S,
    out: &mut K,
) -> Result<Ending, NoMemory>
    requires fits { RulesFit rules.now }
    ensures does { CarriesOut S.Source K.Sink (task_of (Replay (rules_meant rules.now))) result input.old input.new out.old out.new }
{
    let run = Run::new(alloc, rules)?;
    let ending = replay_counted::<S, K, Brand>(run, input, out, Blank::new(1));
    Ok(ending)
}

// Replays the input by a new run, and counts the steps of its looks in a ledger of their own.
fn replay_counted<S: Source, K: Sink, L: Ledger>(
    run: Run,
    input: &mut S,
    out: &mut K,
    blank: Blank,
) -> Ending
    requires name { blank.name ≡ L.name }
    requires parts { blank.parts ≡ L.parts }
    requires some { 0 < L.parts }
    requires new { HasPlayed (rules_meant run.rules) run [] [] }
    ensures does { Does S.Source K.Sink (task_of (Replay (rules_meant run.rules))) result input.old input.new out.old out.new }
{
    let mut run = run;
    let mut steps = Steps::new(blank);
    play::<Run, S, K, L>(&mut run, input, out, &mut steps)
}
