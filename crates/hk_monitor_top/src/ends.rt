// What is told of the ends of stations.
ghost use Rattle.std.specs.Prelude.{◌≡◌, ◌≤◌, [], length, true, is_some, vec_capacity, Some};
ghost use Rattle.std.specs.List.{All};
ghost use Rattle.hk_spec_settings.specs.Settings.{Rules};
ghost use Rattle.hk_spec_monitor.specs.Run.{Obeyed, whole_replies};
ghost use Rattle.hk_station.specs.Hearing.{kept_end};
ghost use Rattle.hk_publish.specs.Holding.{Holding};
ghost use Rattle.hk_clerk.specs.Clerks.{HasObeyedAll};
ghost use Rattle.hk_clerk.specs.declared.office.Office.{Office};
ghost use Rattle.hk_monitor_top.specs.Ends.{TellsEnd, TellEnds};

use hk_base::{Sink, Source};
use hk_clerk::Office;
use hk_station::Station;
use hk_summary::{OperatorEnd, StationEnd};

// What is told of a station that is over.
fn end_of(station: &Station) -> StationEnd
    requires over { is_some (kept_end station.now) ≡ true }
    ensures { TellsEnd station.now result }
{
    let Some(end) = station.end() else {
        unreachable!()
    };
    StationEnd {
        number: station.number(),
        blocks: station.blocks(),
        version: station.version(),
        end,
    }
}

/// Tells the ends of stations that are over, in their order. Takes no memory.
pub fn tell_ends(stations: &[Station], ends: &mut Vec<StationEnd>)
    requires over { All (λ station. is_some (kept_end station) ≡ true) stations.now }
    requires none { ends.old.items ≡ [] }
    requires room { length stations.now ≤ vec_capacity ends.old }
    ensures { TellEnds stations.now ends.new.items }
{
    for station in stations {
        ends.push_reserved(end_of(station));
    }
}

/// What is told of the end of an operator whose clerk has ended, where so many versions were published.
pub fn tell_operator<C: Source, P: Sink>(clerk: &Office<C, P>, published: u32) -> OperatorEnd
    requires ended { is_some clerk.now.end ≡ true }
    ensures end { clerk.now.end ≡ Some result.end }
    ensures published { result.published ≡ published }
    ensures commands { (rules : Rules) (old : Office C P) (desk : Holding) (o : Obeyed) → HasObeyedAll C.Source P.Sink rules old clerk.now desk o
        → result.commands ≡ length (whole_replies o) }
{
    let Some(end) = clerk.end else { unreachable!() };
    OperatorEnd {
        commands: clerk.whole_replies(),
        published,
        end,
    }
}
