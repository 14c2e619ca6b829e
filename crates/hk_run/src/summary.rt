// The stations' part of the summary.
ghost use Rattle.std.specs.Prelude.{◌≡◌, List, OnOk, OnErr, IfOk};
ghost use Rattle.hk_base.specs.Devices.{Rose};
ghost use Rattle.hk_base.specs.Writing.{HasWritten, HasFailed};
ghost use Rattle.hk_spec_settings.specs.Settings.{Rules};
ghost use Rattle.hk_spec_runs.specs.Replay.{Listener};
ghost use Rattle.hk_run.specs.Holding.{AreHearing, ForListeners};
ghost use Rattle.hk_station.specs.Hearing.{ForEach, station_number};
ghost use Rattle.hk_run.specs.Course.{listener_line, station_lines, is_ended, is_in_order, all_ended};

use hk_base::{End, Failed, Sink};
use hk_report::write_station;
use hk_station::Station;

// Ends a station and writes its line. Answers whether it ended in order.
fn write_end<K: Sink>(station: &mut Station, out: &mut K) -> Result<bool, Failed>
    ensures whole { OnOk result (ForEach station.old (λ rules l. HasWritten K.Sink (listener_line rules (station_number station.old, l)) out.old out.new)) }
    ensures ended { IfOk result (λ ended. ForEach station.old (λ rules l. ended ≡ is_in_order rules l)) }
    ensures torn { OnErr result (ForEach station.old (λ rules l. HasFailed K.Sink (listener_line rules (station_number station.old, l)) out.old out.new)) }
    ensures cause { OnErr result (Rose (K.faults out.old) (K.faults out.new)) }
    ensures counts_failures { OnOk result (K.faults out.new ≡ K.faults out.old) }
{
    let blocks = station.blocks();
    let version = station.version();
    let going = station.end().is_none();
    let end = station.finish();
    match write_station(out, station.number(), blocks, version, &end) {
        Ok(()) => Ok(going & is_ended(end)),
        Err(failed) => Err(failed),
    }
}

fn is_ended(end: End) -> bool
    ensures { result ≡ is_ended end }
{
    matches!(end, End::Ended)
}

/// Ends the stations one after another and writes a line for each. Answers whether all of them ended in order.
pub fn write_stations<K: Sink>(stations: &mut [Station], out: &mut K) -> Result<bool, Failed>
    ensures whole { OnOk result (ForListeners stations.old (λ rules listeners. HasWritten K.Sink (station_lines rules listeners) out.old out.new)) }
    ensures ended { IfOk result (λ ended. ForListeners stations.old (λ rules listeners. ended ≡ all_ended rules listeners)) }
    ensures torn { OnErr result (ForListeners stations.old (λ rules listeners. HasFailed K.Sink (station_lines rules listeners) out.old out.new)) }
    ensures cause { OnErr result (Rose (K.faults out.old) (K.faults out.new)) }
    ensures counts_failures { OnOk result (K.faults out.new ≡ K.faults out.old) }
{
    let mut all_ended = true;
    for station in stations.iter_mut() {
        match write_end(station, out) {
            Ok(ended) => all_ended = all_ended & ended,
            Err(failed) => return Err(failed),
        }
    }
    Ok(all_ended)
}
