// The summary of a run.
ghost use Rattle.hk_spec_monitor.specs.Run.{Run};
ghost use Rattle.hk_spec_monitor.specs.Summary.{Concludes};
ghost use Rattle.hk_summary.specs.Ends.{Tells};

use crate::lines::write_lines;
use crate::status::status_of;
use crate::{OperatorEnd, StationEnd};
use hk_base::{Sink, Status};

/// Writes the summary of a run whose stations, by their numbers, and operator ended so, and answers the run's status.
pub fn write_summary<K: Sink>(
    stations: &[StationEnd],
    operator: &OperatorEnd,
    out: &mut K,
) -> Status
    ensures { (run : Run) → Tells stations.now operator.now run → Concludes result.code (K.written out.old) (K.written out.new) (K.faults out.old) (K.faults out.new) run }
{
    match write_lines(stations, operator, out) {
        Ok(()) => status_of(stations, operator, true),
        Err(_) => status_of(stations, operator, false),
    }
}
