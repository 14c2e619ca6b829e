// The plan that the words ask for.
ghost use Rattle.std.specs.Prelude.{◌≡◌, ◌∷◌, map, string_bytes, codes, true, false, Some, None, IfOk};
ghost use Rattle.clap.specs.Words.{app_of, found_of, rows_of};
ghost use Rattle.clap.specs.declared.error.kind.ErrorKind.TheVariants as kinds;
ghost use Rattle.hk_outside.specs.Doors.{plan_of};
ghost use Rattle.hk_spec_monitor.specs.Setup.{command, setup_asked, setup_in, text_in};
ghost use Rattle.hk_setup.specs.Numerals.{HavePassed};
ghost use Rattle.hk_setup.specs.Plans.{setup_of_plan, PlanFits};
ghost use Rattle.hk_setup.specs.Reading.{IfUsage, is_taken, rows_taken};
ghost use Rattle.hk_setup.specs.declared.reading.WordsFault.TheVariants as faults;

use crate::Plan;
use crate::numeral::{
    BYTES, FLIPS, HOP, OPERATOR_PORT, POSITIONS, SONGS, STATION_PORT, STATIONS, VERSIONS, WORKERS,
    monitor_command,
};
use clap::error::ErrorKind;
use clap::{ArgMatches, Command};
use std::alloc::{AllocError, Global};

/// Why the words give no plan.
#[derive(Clone, Copy, Debug, PartialEq, Eq)]
pub enum WordsFault {
    /// They are no command.
    Usage,
    NoMemory,
}

/// The plan that the words behind the program's name ask for. `Usage` comes only where they are no command.
pub fn read_plan(alloc: Global, words: &Vec<String>) -> Result<Plan, WordsFault>
    ensures plan { IfOk result (λ plan. setup_asked words.now.items ≡ Some (setup_of_plan (plan_of plan))) }
    ensures ranges { IfOk result PlanFits }
    ensures usage { IfUsage result (setup_asked words.now.items ≡ None) }
{
    match behind_name(alloc, words) {
        Ok(texts) => plan_in(alloc, texts.as_slice()),
        Err(_) => Err(WordsFault::NoMemory),
    }
}

// The plan that the command finds in words, of which the first is the program's name.
fn plan_in(alloc: Global, words: &[&str]) -> Result<Plan, WordsFault>
    ensures taken { IfOk result (λ plan. is_taken (map (λ text. text.now) words.now) ≡ true) }
    ensures plan { IfOk result (λ plan. setup_in (rows_taken (map (λ text. text.now) words.now)) ≡ setup_of_plan (plan_of plan)) }
    ensures ranges { IfOk result PlanFits }
    ensures usage { IfUsage result (is_taken (map (λ text. text.now) words.now) ≡ false) }
{
    let found = found_in(alloc, words)?;
    match plan_found(alloc, &found) {
        Ok(plan) => Ok(plan),
        Err(_) => Err(WordsFault::NoMemory),
    }
}

// The words with the program's name before them.
fn behind_name<'a>(alloc: Global, words: &'a [String]) -> Result<Vec<&'a str>, AllocError>
    ensures { IfOk result (λ texts. map (λ text. text.now) texts.items ≡ codes "hkmon" ∷ map string_bytes words.now) }
{
    let mut texts = Vec::new(alloc);
    texts.push("hkmon")?;
    for word in words {
        texts.push(word.as_str())?;
    }
    Ok(texts)
}

// What the command finds in words, of which the first is the program's name.
fn found_in<'a>(alloc: Global, words: &'a [&'a str]) -> Result<ArgMatches<'a>, WordsFault>
    ensures taken { IfOk result (λ found. is_taken (map (λ text. text.now) words.now) ≡ true) }
    ensures rows { IfOk result (λ found. rows_of (found_of found) ≡ rows_taken (map (λ text. text.now) words.now)) }
    ensures usage { IfUsage result (is_taken (map (λ text. text.now) words.now) ≡ false) }
{
    match monitor_command(alloc) {
        Ok(monitor) => found_by(monitor, words),
        Err(_) => Err(WordsFault::NoMemory),
    }
}

fn found_by<'a>(monitor: Command<'a>, words: &'a [&'a str]) -> Result<ArgMatches<'a>, WordsFault>
    requires { app_of monitor ≡ command }
    ensures taken { IfOk result (λ found. is_taken (map (λ text. text.now) words.now) ≡ true) }
    ensures rows { IfOk result (λ found. rows_of (found_of found) ≡ rows_taken (map (λ text. text.now) words.now)) }
    ensures usage { IfUsage result (is_taken (map (λ text. text.now) words.now) ≡ false) }
{
    match monitor.try_get_matches_from(words) {
        Ok(found) => Ok(found),
        Err(e) => Err(refusal_of(e.kind())),
    }
}

fn refusal_of(kind: ErrorKind) -> WordsFault
    ensures { result ≡ faults.Usage → kind ≡ kinds.OutOfMemory → ⊥ }
{
    match kind {
        ErrorKind::OutOfMemory => WordsFault::NoMemory,
        _ => WordsFault::Usage,
    }
}

// The plan of what was found, each number of which passed its option's test.
fn plan_found(alloc: Global, found: &ArgMatches) -> Result<Plan, AllocError>
    requires passed { HavePassed (rows_of (found_of found.now)) }
    ensures plan { IfOk result (λ plan. setup_in (rows_of (found_of found.now)) ≡ setup_of_plan (plan_of plan)) }
    ensures ranges { IfOk result PlanFits }
{
    let address = text_found(alloc, found, "address", "127.0.0.1")?;
    let logs = text_found(alloc, found, "logs", "station")?;
    Ok(Plan {
        stations: STATIONS.read(found) as u8,
        workers: WORKERS.read(found) as u8,
        flips: FLIPS.read(found) as u32,
        hop: HOP.read(found) as u32,
        songs: SONGS.read(found) as u32,
        positions: POSITIONS.read(found) as u32,
        versions: VERSIONS.read(found) as u32,
        bytes: BYTES.read(found),
        address,
        station_port: STATION_PORT.read(found) as u16,
        operator_port: OPERATOR_PORT.read(found) as u16,
        logs,
    })
}

// The text of an option among what was found, or another.
fn text_found(
    alloc: Global,
    found: &ArgMatches,
    name: &str,
    default: &str,
) -> Result<String, AllocError>
    ensures { IfOk result (λ text. string_bytes text ≡ text_in (rows_of (found_of found.now)) name.now default.now) }
{
    match found.get_str(name) {
        Some(text) => String::from_str(alloc, text),
        None => String::from_str(alloc, default),
    }
}
