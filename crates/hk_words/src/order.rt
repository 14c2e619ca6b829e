// What the words ask for.
ghost use Rattle.std.specs.Prelude.{◌≡◌, ℕ, List, ◌∷◌, codes, Some, option_map, IfSome};
ghost use Rattle.hk_spec_runs.specs.Words.{number_written, order_for, make_for, order_of};
ghost use Rattle.hk_words.specs.Options.{word_texts};
ghost use Rattle.hk_words.specs.Orders.{order_meant, OrderFits};

use crate::choice::Verb;
use crate::number::read_number;
use crate::options::are_options;
use crate::rules::{MADE_STATIONS, PrintRules, RunRules, STATIONS, print_rules, run_rules};
use hk_limits::Range;

/// What is to be done.
#[derive(Clone, Copy, Debug, PartialEq, Eq)]
pub enum Order {
    /// Replay an input.
    Replay(RunRules),
    /// Print sound as sub-fingerprints.
    Print(PrintRules),
    /// Make an input from a seed and replay it.
    Make { seed: u32, rules: RunRules },
}

/// What the words behind the program's name ask for; None exactly where they are no command.
pub fn read_words(words: &Vec<String>) -> Option<Order>
    ensures order { option_map order_meant result ≡ order_of (word_texts words.now.items) }
    ensures ranges { IfSome result OrderFits }
{
    match words.as_slice() {
        [] => None,
        [command, further @ ..] => read_command(command.as_str(), further),
    }
}

// The order of a command with the words behind it.
fn read_command(command: &str, words: &[String]) -> Option<Order>
    ensures order { option_map order_meant result ≡ order_of (command.now ∷ word_texts words.now) }
    ensures ranges { IfSome result OrderFits }
{
    if command == "make" {
        read_make(words)
    } else if command == "replay" {
        read_replay(words)
    } else if command == "print" {
        read_print(words)
    } else {
        None
    }
}

fn read_replay(words: &[String]) -> Option<Order>
    ensures order { option_map order_meant result ≡ order_for (codes "replay") (word_texts words.now) }
    ensures ranges { IfSome result OrderFits }
{
    if are_options(words, Verb::Replay) {
        Some(Order::Replay(run_rules(words, &STATIONS)))
    } else {
        None
    }
}

fn read_print(words: &[String]) -> Option<Order>
    ensures order { option_map order_meant result ≡ order_for (codes "print") (word_texts words.now) }
    ensures ranges { IfSome result OrderFits }
{
    if are_options(words, Verb::Print) {
        Some(Order::Print(print_rules(words)))
    } else {
        None
    }
}

// The seed stands before the options.
fn read_make(words: &[String]) -> Option<Order>
    ensures order { option_map order_meant result ≡ make_for (word_texts words.now) }
    ensures ranges { IfSome result OrderFits }
{
    match words {
        [] => None,
        [seed, further @ ..] => made(read_number(seed.as_str())?, further),
    }
}

// The order to make an input from a seed.
fn made(seed: u64, words: &[String]) -> Option<Order>
    ensures order { (text : List ℕ) → number_written text ≡ Some seed → option_map order_meant result ≡ make_for (text ∷ word_texts words.now) }
    ensures ranges { IfSome result OrderFits }
{
    if Range::SEED.holds(seed) && are_options(words, Verb::Make) {
        Some(Order::Make {
            seed: seed as u32,
            rules: run_rules(words, &MADE_STATIONS),
        })
    } else {
        None
    }
}
