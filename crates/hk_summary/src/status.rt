// The status of a run.
ghost use Rattle.std.specs.Prelude.{◌≡◌};
ghost use Rattle.std.specs.List.{list_all};
ghost use Rattle.hk_spec_monitor.specs.Summary.{is_ended, operator_is_ended};
ghost use Rattle.hk_summary.specs.Ends.{are_ended, code_of};

use crate::lines::ahead_of;
use crate::{OperatorEnd, StationEnd};
use hk_base::{End, OpEnd, Status};

/// Every stream ended in order.
pub const ENDED: u8 = 0;

/// Some stream ended otherwise.
pub const IN_DISORDER: u8 = 3;

/// The summary couldn't be written.
pub const WRITE_FAULT: u8 = 6;

/// A station saw more than was published.
pub const MISMATCH: u8 = 9;

fn is_ended(end: End) -> bool
    ensures { result ≡ is_ended end }
{
    matches!(end, End::Ended)
}

fn operator_is_ended(end: OpEnd) -> bool
    ensures { result ≡ operator_is_ended end }
{
    matches!(end, OpEnd::Ended)
}

fn stations_ended(stations: &[StationEnd]) -> bool
    ensures { result ≡ list_all (λ station. is_ended station.end) stations.now }
{
    stations.iter().all(|station| is_ended(station.end))
}

fn are_ended(stations: &[StationEnd], operator: &OperatorEnd) -> bool
    ensures { result ≡ are_ended stations.now operator.now }
{
    stations_ended(stations) && operator_is_ended(operator.end)
}

/// The status, by whether the summary was written whole.
pub fn status_of(stations: &[StationEnd], operator: &OperatorEnd, whole: bool) -> Status
    ensures { result.code ≡ code_of stations.now operator.now whole }
{
    let code = if ahead_of(operator.published, stations).is_some() {
        MISMATCH
    } else if !whole {
        WRITE_FAULT
    } else if are_ended(stations, operator) {
        ENDED
    } else {
        IN_DISORDER
    };
    Status { code }
}
