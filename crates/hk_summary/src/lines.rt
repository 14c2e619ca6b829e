// The lines of the summary.
ghost use Rattle.std.specs.Prelude.{◌≡◌, option_copied};
ghost use Rattle.hk_base.specs.Writing.{Writes};
ghost use Rattle.hk_summary.specs.Ends.{station_lines, summary_text, rest_text, ahead_of};

use crate::{OperatorEnd, StationEnd};
use hk_base::{Failed, Sink};
use hk_report::{write_mismatch, write_operator, write_station};

// A line for each station.
fn write_stations<K: Sink>(stations: &[StationEnd], out: &mut K) -> Result<(), Failed>
    ensures { Writes K.Sink (station_lines stations.now) result out.old out.new }
{
    for station in stations {
        match write_station(
            out,
            station.number,
            station.blocks,
            station.version,
            &station.end,
        ) {
            Ok(()) => {}
            Err(failed) => return Err(failed),
        }
    }
    Ok(())
}

/// The first station whose version is over so many.
pub fn ahead_of(published: u32, stations: &[StationEnd]) -> Option<&StationEnd>
    ensures { option_copied result ≡ ahead_of published stations.now }
{
    stations.iter().find(|station| published < station.version)
}

/// The lines of the stations, the operator's, and that of a station whose version is over what was published.
pub fn write_lines<K: Sink>(
    stations: &[StationEnd],
    operator: &OperatorEnd,
    out: &mut K,
) -> Result<(), Failed>
    ensures { Writes K.Sink (summary_text stations.now operator.now) result out.old out.new }
{
    match write_stations(stations, out) {
        Ok(()) => {}
        Err(failed) => return Err(failed),
    }
    let ahead = ahead_of(operator.published, stations).copied();
    write_rest(ahead, operator, out)
}

// The operator's line, and that of a station.
fn write_rest<K: Sink>(
    station: Option<StationEnd>,
    operator: &OperatorEnd,
    out: &mut K,
) -> Result<(), Failed>
    ensures { Writes K.Sink (rest_text station operator.now) result out.old out.new }
{
    match write_operator(out, operator.commands, operator.published, &operator.end) {
        Ok(()) => {}
        Err(failed) => return Err(failed),
    }
    match station {
        None => Ok(()),
        Some(station) => {
            write_mismatch(out, station.number, station.version, operator.published)
        }
    }
}
