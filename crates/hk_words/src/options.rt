// Options in the words: two words each, a name and a number.
ghost use Rattle.std.specs.Prelude.{◌≡◌, ◌≤◌, true, map, filter, option_copied};
ghost use Rattle.hk_spec_runs.specs.Options.{fits, is_taken};
ghost use Rattle.hk_spec_runs.specs.Words.{is_given, given_or, default_of, value_of};
ghost use Rattle.hk_words.specs.Choices.{verb_meant, default_meant, choice_of, highest};
ghost use Rattle.hk_words.specs.Options.{taken_by, word_texts, pairs_of, behind, are_options, value_fits};

use crate::choice::{Choice, Default, Verb};
use crate::number::read_number;
use crate::rules::OPTIONS;

/// Whether the words are options that a command takes, each with a value that it may have, and none twice.
pub fn are_options(words: &[String], verb: Verb) -> bool
    ensures { result ≡ are_options (taken_by (verb_meant verb)) (word_texts words.now) }
{
    let mut rest = words;
    while let [name, number, further @ ..] = rest {
        if !is_option(verb, name.as_str(), number.as_str())
            || number_behind(further, name.as_str()).is_some()
        {
            return false;
        }
        rest = further;
    }
    rest.is_empty()
}

/// The option's value: the number behind its name, or its default.
pub fn value(words: &[String], choice: &Choice) -> u64
    requires fits { value_fits (word_texts words.now) (choice_of choice.now) ≡ true }
    ensures value { result ≡ value_of (pairs_of (word_texts words.now)) (choice_of choice.now) }
    ensures fits { fits (choice_of choice.now).values result ≡ true }
    ensures most { result ≤ highest (choice_of choice.now).values }
{
    given_or(words, choice.name, choice.default.value(words))
}

impl Default {
    // The value where the option isn't given.
    fn value(&self, words: &[String]) -> u64
        ensures { result ≡ default_of (pairs_of (word_texts words.now)) (default_meant self.now) }
    {
        match *self {
            Default::Number(number) => number,
            Default::ValueOf(name, number) => given_or(words, name, number),
        }
    }
}

// The number behind a name, and else this one.
fn given_or(words: &[String], name: &str, number: u64) -> u64
    ensures { result ≡ given_or (pairs_of (word_texts words.now)) name.now number }
{
    match number_behind(words, name) {
        Some(given) => read_number(given).unwrap_or(0),
        None => number,
    }
}

// Whether a name and a number are an option that a command takes, with a value that it may have.
fn is_option(verb: Verb, name: &str, number: &str) -> bool
    ensures { result ≡ is_given (taken_by (verb_meant verb)) (name.now, number.now) }
{
    is_given(&OPTIONS, verb, name, number)
}

// Whether a name and a number are one of these options, where a command takes it, with a value that it may have.
fn is_given(options: &[Choice], verb: Verb, name: &str, number: &str) -> bool
    ensures { result ≡ is_given (filter (is_taken (verb_meant verb)) (map choice_of options.now)) (name.now, number.now) }
{
    options
        .iter()
        .any(|choice| choice.is_given(verb, name, number))
}

// The number's word of the first option with this name.
fn number_behind<'a>(words: &'a [String], name: &str) -> Option<&'a str>
    ensures { option_copied result ≡ behind (word_texts words.now) name.now }
{
    let mut rest = words;
    while let [next, number, further @ ..] = rest {
        if name == next.as_str() {
            return Some(number.as_str());
        }
        rest = further;
    }
    None
}
