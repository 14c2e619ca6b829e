// The printing of sound.
ghost use Rattle.std.specs.Prelude.{◌≡◌, ◌<◌, []};
ghost use Rattle.hk_spec_runs.specs.Outcome.{task_of};
ghost use Rattle.hk_spec_runs.specs.Words.{Print};
ghost use Rattle.hk_words.specs.Rules.{printing_meant, PrintingFits};
ghost use Rattle.hk_printer.specs.Printed.{HasPrinted, printing_of};
ghost use Rattle.hk_player.specs.Endings.{Does};
ghost use Rattle.hk_replay.specs.Orders.{CarriesOut};

use hk_base::{NoMemory, Sink, Source, Steps};
use hk_player::{Ending, play};
use hk_printer::Printer;
use hk_words::PrintRules;
use std::alloc::Global;
use std::marker::Brand;
use std::sync::ledger::{Blank, Ledger};

/// Prints the input's sound.
pub fn print<S: Source, K: Sink>(
    alloc: Global,
    rules: &PrintRules,
    input: &mut S,
    out: &mut K,
) -> Result<Ending, NoMemory>
    requires fits { PrintingFits rules.now }
    ensures does { CarriesOut S.Source K.Sink (task_of (Print (printing_meant rules.now))) result input.old input.new out.old out.new }
{
    let printer = Printer::new(
        alloc,
        rules.channels,
        rules.factor,
        rules.flips,
        rules.bytes,
    )?;
    let ending = print_counted::<S, K, Brand>(printer, input, out, Blank::new(1));
    Ok(ending)
}

// Prints the input's sound by a new printer.
fn print_counted<S: Source, K: Sink, L: Ledger>(
    printer: Printer,
    input: &mut S,
    out: &mut K,
    blank: Blank,
) -> Ending
    requires name { blank.name ≡ L.name }
    requires parts { blank.parts ≡ L.parts }
    requires some { 0 < L.parts }
    requires new { HasPrinted printer [] }
    ensures does { Does S.Source K.Sink (task_of (Print (printing_of printer))) result input.old input.new out.old out.new }
{
    let mut printer = printer;
    let mut steps = Steps::new(blank);
    play::<Printer, S, K, L>(&mut printer, input, out, &mut steps)
}
