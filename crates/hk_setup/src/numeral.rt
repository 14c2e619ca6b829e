// The options of the command.
ghost use Rattle.std.specs.Prelude.{◌≡◌, ◌≤◌, IfOk};
ghost use Rattle.clap.specs.Words.{app_of, with_rule, found_of, rows_of};
ghost use Rattle.hk_spec_monitor.specs.Setup.{command, text_rule, number_rule, number_in};
ghost use Rattle.hk_setup.specs.Numerals.{numeral_of, HasPassed};

use clap::builder::ValueParser;
use clap::{Arg, ArgAction, ArgMatches, Command};
use hk_limits::Range;
use std::alloc::{AllocError, Global};

/// An option that is a number, and its value where it isn't given.
#[derive(Clone, Copy)]
pub struct Numeral {
    pub name: &'static str,
    pub values: Range,
    pub default: u64,
}

pub const STATIONS: Numeral = Numeral {
    name: "stations",
    values: Range::STATIONS,
    default: 1,
};

pub const WORKERS: Numeral = Numeral {
    name: "workers",
    values: Range { least: 1, most: 16 },
    default: 2,
};

pub const FLIPS: Numeral = Numeral {
    name: "flips",
    values: Range::FLIPS,
    default: 4,
};

pub const HOP: Numeral = Numeral {
    name: "hop",
    values: Range::HOP,
    default: 64,
};

pub const SONGS: Numeral = Numeral {
    name: "songs",
    values: Range::SONGS,
    default: 1000,
};

pub const POSITIONS: Numeral = Numeral {
    name: "positions",
    values: Range::POSITIONS,
    default: 1048576,
};

pub const VERSIONS: Numeral = Numeral {
    name: "versions",
    values: Range::VERSIONS,
    default: 1000000,
};

pub const BYTES: Numeral = Numeral {
    name: "bytes",
    values: Range::BYTES,
    default: 1000000000000,
};

pub const STATION_PORT: Numeral = Numeral {
    name: "station-port",
    values: Range {
        least: 1,
        most: 65535,
    },
    default: 7701,
};

pub const OPERATOR_PORT: Numeral = Numeral {
    name: "operator-port",
    values: Range {
        least: 1,
        most: 65535,
    },
    default: 7702,
};

impl Numeral {
    // Adds the option to a command.
    fn added_to<'a>(&self, alloc: Global, command: Command<'a>) -> Result<Command<'a>, AllocError>
        ensures { IfOk result (λ c. app_of c ≡ with_rule (app_of command.entry) (number_rule (numeral_of self.now))) }
    {
        let option = Arg::new(alloc, self.name)
            .long(self.name)
            .action(ArgAction::Set)
            .value_parser(ValueParser::unsigned(self.values.least, self.values.most));
        command.arg(option)
    }

    /// Its value among what was found, or its default.
    pub fn read(&self, found: &ArgMatches) -> u64
        requires passed { HasPassed (rows_of (found_of found.now)) (numeral_of self.now) }
        requires default { (self.now.values.least ≤ self.now.default) × (self.now.default ≤ self.now.values.most) }
        ensures value { result ≡ number_in (rows_of (found_of found.now)) (numeral_of self.now) }
        ensures least { self.now.values.least ≤ result }
        ensures most { result ≤ self.now.values.most }
    {
        match found.get_str(self.name) {
            Some(text) => match text.parse::<u64>() {
                Ok(value) => value,
                Err(_) => unreachable!(),
            },
            None => self.default,
        }
    }
}

// Adds an option with a text to a command.
fn with_text<'a>(
    alloc: Global,
    command: Command<'a>,
    name: &'a str,
) -> Result<Command<'a>, AllocError>
    ensures { IfOk result (λ c. app_of c ≡ with_rule (app_of command.entry) (text_rule name.entry.now)) }
{
    command.arg(Arg::new(alloc, name).long(name).action(ArgAction::Set))
}

/// The monitor's command: these options, and no flag for help or the version.
pub fn monitor_command<'a>(alloc: Global) -> Result<Command<'a>, AllocError>
    ensures { IfOk result (λ c. app_of c ≡ command) }
{
    let command = Command::new(alloc, "hkmon")
        .disable_help_flag(true)
        .disable_version_flag(true);
    let command = STATIONS.added_to(alloc, command)?;
    let command = WORKERS.added_to(alloc, command)?;
    let command = FLIPS.added_to(alloc, command)?;
    let command = HOP.added_to(alloc, command)?;
    let command = SONGS.added_to(alloc, command)?;
    let command = POSITIONS.added_to(alloc, command)?;
    let command = VERSIONS.added_to(alloc, command)?;
    let command = BYTES.added_to(alloc, command)?;
    let command = STATION_PORT.added_to(alloc, command)?;
    let command = OPERATOR_PORT.added_to(alloc, command)?;
    let command = with_text(alloc, command, "address")?;
    with_text(alloc, command, "logs")
}
