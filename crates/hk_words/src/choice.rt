// What an option is.
ghost use Rattle.std.specs.Prelude.{◌≡◌, false};
ghost use Rattle.std.specs.Option.{option_map_or};
ghost use Rattle.hk_spec_runs.specs.Options.{fits, is_taken};
ghost use Rattle.hk_spec_runs.specs.Words.{number_written};
ghost use Rattle.hk_words.specs.Choices.{values_meant, verb_meant, choice_of, gives};

use crate::number::read_number;
use hk_limits::{Range, allows_channels, allows_factor};

/// The values that an option may have.
#[derive(Clone, Copy)]
pub enum Values {
    /// Those of a range.
    Within(Range),
    /// The channels that sound may have.
    Channels,
    /// The factors by which sound may be decimated.
    Factors,
}

/// The value of an option that isn't given.
#[derive(Clone, Copy)]
pub enum Default {
    Number(u64),
    /// The value of the option with this name, and a number where that isn't given either.
    ValueOf(&'static str, u64),
}

/// A command.
#[derive(Clone, Copy)]
pub enum Verb {
    Replay,
    Print,
    Make,
}

/// An option of the command line, and whether each command takes it.
#[derive(Clone, Copy)]
pub struct Choice {
    pub name: &'static str,
    pub values: Values,
    pub default: Default,
    pub replay: bool,
    pub print: bool,
    pub make: bool,
}

impl Values {
    /// Whether a value is one of these.
    pub fn hold(&self, value: u64) -> bool
        ensures { result ≡ fits (values_meant self.now) value }
    {
        match self {
            Values::Within(range) => range.holds(value),
            Values::Channels => allows_channels(value),
            Values::Factors => allows_factor(value),
        }
    }
}

impl Choice {
    /// Whether a command takes the option.
    pub fn is_taken(&self, verb: Verb) -> bool
        ensures { result ≡ is_taken (verb_meant verb) (choice_of self.now) }
    {
        match verb {
            Verb::Replay => self.replay,
            Verb::Print => self.print,
            Verb::Make => self.make,
        }
    }

    // Whether the word is a number that the option may have.
    fn allows(&self, word: &str) -> bool
        ensures { result ≡ option_map_or (fits (choice_of self.now).values) (number_written word.now) false }
    {
        match read_number(word) {
            Some(value) => self.values.hold(value),
            None => false,
        }
    }

    /// Whether the words are the name of an option that a command takes, and a number that it may have.
    #[tactic(auto, unfolding(crate::specs::Choices::gives))]
    pub fn is_given(&self, verb: Verb, name: &str, number: &str) -> bool
        ensures { result ≡ gives (verb_meant verb) name.now number.now self.now }
    {
        self.is_taken(verb) && self.name == name && self.allows(number)
    }
}
