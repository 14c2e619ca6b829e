// A run of what stands in rows.
ghost use Rattle.std.specs.Prelude.{◌≡◌, ◌≤◌, [], length, vec_capacity, None};
ghost use Rattle.std.specs.List.{All};
ghost use Rattle.hk_spec_settings.specs.Settings.{Rules};
ghost use Rattle.hk_spec_runs.specs.OperatorState.{new_state};
ghost use Rattle.hk_spec_runs.specs.Listening.{unheard};
ghost use Rattle.hk_station.specs.Hearing.{IsHearing, kept_end};
ghost use Rattle.hk_operator.specs.Obeying.{IsObeying, new_stream};
ghost use Rattle.hk_publish.specs.Holding.{shelf_of};
ghost use Rattle.hk_monitor_top.specs.Ready.{IsNewStart};
ghost use Rattle.hk_monitor_top.specs.Numbered.{AreFull, RanInRows};

use crate::ready::Rows;
use hk_monitor::{Clerk, run_monitor};
use hk_outside::Door;
use hk_publish::{Desk, Reading};
use hk_seating::{seat_all, unseat_all};
use std::sync::Wait;
use std::thread::Threads;

/// The rows of a run over what a door hands out.
pub type RunRows<D, R> = Rows<<D as Door>::Link, <D as Door>::Log, <D as Door>::Gate, Reading<R>>;

/// Seats the stations, runs the crew with the clerk until all streams are over, and puts all back in rows.
pub fn run_rows<D: Door, R: Threads + Wait + Clone + Send + Sync + Drop>(
    rt: &R,
    count: u8,
    rows: &mut RunRows<D, R>,
    desk: &mut Desk,
    clerk: &mut Clerk<D>,
)
    requires full { AreFull count desk.old.limits.positions rows.old }
    requires going { All (λ station. kept_end station ≡ None) rows.old.stations.items }
    requires start { IsNewStart desk.old.limits desk.old rows.old.readings.items }
    requires new { (rules : Rules) × All (λ station. IsHearing rules station unheard) rows.old.stations.items × IsObeying rules clerk.old.operator (shelf_of desk.old) new_stream new_state }
    ensures ran { (rules : Rules) → All (λ station. IsHearing rules station unheard) rows.old.stations.items → IsObeying rules clerk.old.operator (shelf_of desk.old) new_stream new_state
        → RanInRows D.Link.Link D.Log.Sink D.Gate.faults D.Calls.Source D.Replies.Sink rules rows.old rows.new clerk.old clerk.new desk.new }
    ensures ends { rows.new.ends ≡ rows.old.ends }
    ensures home { desk.new.home ≡ desk.old.home }
    ensures limits { desk.new.limits ≡ desk.old.limits }
{
    seat_all(
        &mut rows.crew,
        &mut rows.gates,
        &mut rows.benches,
        &mut rows.pairs,
        &mut rows.stations,
        &mut rows.readings,
    );
    let _mismatch = run_monitor::<D, R>(rt, &mut rows.crew, desk, clerk);
    unseat_all(
        &mut rows.crew,
        count,
        &mut rows.pairs,
        &mut rows.stations,
        &mut rows.readings,
        &mut rows.gates,
    );
}
