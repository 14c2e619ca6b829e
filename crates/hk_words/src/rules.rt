// The options, one row an option, and what they set.
ghost use Rattle.std.specs.Prelude.{◌≡◌};
ghost use Rattle.hk_spec_sound.specs.Limits as limits;
ghost use Rattle.hk_spec_runs.specs.Options.{Within};
ghost use Rattle.hk_spec_runs.specs.Words.{rules_of, printing_of};
ghost use Rattle.hk_words.specs.Choices.{choice_of};
ghost use Rattle.hk_words.specs.Options.{word_texts, pairs_of};
ghost use Rattle.hk_words.specs.Rules.{rules_meant, printing_meant, RulesFit, PrintingFits, RunValuesFit, PrintValuesFit};

use crate::choice::{Choice, Default, Values};
use crate::options::value;
use hk_limits::Range;

pub const STATIONS: Choice = Choice {
    name: "--stations",
    values: Values::Within(Range::STATIONS),
    default: Default::Number(1),
    replay: true,
    print: false,
    make: false,
};

/// The same for `make`.
pub const MADE_STATIONS: Choice = Choice {
    default: Default::Number(4),
    replay: false,
    make: true,
    ..STATIONS
};

pub const FLIPS: Choice = Choice {
    name: "--flips",
    values: Values::Within(Range::FLIPS),
    default: Default::Number(4),
    print: true,
    make: true,
    ..STATIONS
};

pub const HOP: Choice = Choice {
    name: "--hop",
    values: Values::Within(Range::HOP),
    default: Default::Number(64),
    make: true,
    ..STATIONS
};

pub const SONGS: Choice = Choice {
    name: "--songs",
    values: Values::Within(Range::SONGS),
    default: Default::Number(1000),
    ..STATIONS
};

pub const POSITIONS: Choice = Choice {
    name: "--positions",
    values: Values::Within(Range::POSITIONS),
    default: Default::Number(1048576),
    ..STATIONS
};

pub const VERSIONS: Choice = Choice {
    name: "--versions",
    values: Values::Within(Range::VERSIONS),
    default: Default::Number(1000000),
    ..STATIONS
};

pub const BYTES: Choice = Choice {
    name: "--bytes",
    values: Values::Within(Range::BYTES),
    default: Default::Number(1000000000000),
    print: true,
    ..STATIONS
};

pub const CHANNELS: Choice = Choice {
    name: "--channels",
    values: Values::Channels,
    default: Default::Number(1),
    replay: false,
    print: true,
    ..STATIONS
};

pub const FACTOR: Choice = Choice {
    name: "--factor",
    values: Values::Factors,
    default: Default::Number(8),
    replay: false,
    print: true,
    ..STATIONS
};

/// The options of all commands.
pub const OPTIONS: [Choice; 10] = [
    STATIONS,
    MADE_STATIONS,
    FLIPS,
    HOP,
    SONGS,
    POSITIONS,
    VERSIONS,
    BYTES,
    CHANNELS,
    FACTOR,
];

/// What a run is set to: its number of stations, the bits of a print that may be weak, prints from a block to the next, and
/// the limits of songs, of words of all songs, of versions, and of a stream's bytes.
#[derive(Clone, Copy, Debug, PartialEq, Eq)]
pub struct RunRules {
    pub stations: u8,
    pub flips: u32,
    pub hop: u32,
    pub songs: u32,
    pub positions: u32,
    pub versions: u32,
    pub bytes: u64,
}

/// Sound that is to be printed: 1 or 2 channels of 5512.5 Hz times the factor, the bits of a print that may be weak, and the
/// limit of bytes.
#[derive(Clone, Copy, Debug, PartialEq, Eq)]
pub struct PrintRules {
    pub channels: u8,
    pub factor: u8,
    pub flips: u32,
    pub bytes: u64,
}

/// The rules that the options set, with this option for the stations.
pub fn run_rules(words: &[String], stations: &Choice) -> RunRules
    requires range { (choice_of stations.now).values ≡ Within limits.STATIONS }
    requires fits { RunValuesFit (word_texts words.now) (choice_of stations.now) }
    ensures rules { rules_meant result ≡ rules_of (choice_of stations.now) (pairs_of (word_texts words.now)) }
    ensures ranges { RulesFit result }
{
    RunRules {
        stations: value(words, stations) as u8,
        flips: value(words, &FLIPS) as u32,
        hop: value(words, &HOP) as u32,
        songs: value(words, &SONGS) as u32,
        positions: value(words, &POSITIONS) as u32,
        versions: value(words, &VERSIONS) as u32,
        bytes: value(words, &BYTES),
    }
}

/// What the options set of sound that is to be printed.
pub fn print_rules(words: &[String]) -> PrintRules
    requires { PrintValuesFit (word_texts words.now) }
    ensures rules { printing_meant result ≡ printing_of (pairs_of (word_texts words.now)) }
    ensures ranges { PrintingFits result }
{
    PrintRules {
        channels: value(words, &CHANNELS) as u8,
        factor: value(words, &FACTOR) as u8,
        flips: value(words, &FLIPS) as u32,
        bytes: value(words, &BYTES),
    }
}
