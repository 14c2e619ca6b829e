// A run of the crew.
ghost use Rattle.std.specs.Prelude.{◌≡◌, length, All, OnOk, IfErr};
ghost use Rattle.hk_spec_settings.specs.Settings.{Rules};
ghost use Rattle.hk_spec_runs.specs.OperatorState.{new_state};
ghost use Rattle.hk_spec_runs.specs.Listening.{unheard};
ghost use Rattle.hk_station.specs.Hearing.{IsHearing};
ghost use Rattle.hk_operator.specs.Obeying.{IsObeying, new_stream};
ghost use Rattle.hk_publish.specs.Holding.{new_holding, shelf_of};
ghost use Rattle.hk_loop.specs.Rows.{Each};
ghost use Rattle.hk_monitor.specs.Seats.{HasSeenAll};
ghost use Rattle.hk_monitor.specs.Crew.{MayBegin, EachSeat, NoneIsOver, IsFirstOver, HasRun};

use crate::closing::close_all;
use crate::over::first_over;
use crate::{Clerk, Mismatch, Worker};
use hk_crew::run_beside;
use hk_outside::Door;
use hk_publish::{Desk, Reading};
use hk_served::what_a_served_seat_did;
use std::sync::Wait;
use std::thread::Threads;

/// Runs the workers in threads, and the operator's clerk beside them, over a desk and new readings of one `start`. Once all are
/// done each reading learns what the desk has published, and looks once more. A mismatch comes exactly where a station's version
/// is over the desk's, and names the least number of such a station.
pub fn run_monitor<D: Door, R: Threads + Wait + Clone + Send + Sync + Drop>(
    rt: &R,
    crew: &mut Vec<Worker<D, R>>,
    desk: &mut Desk,
    clerk: &mut Clerk<D>,
) -> Result<(), Mismatch>
    requires unpublished { desk.old ≡ new_holding desk.old.home desk.old.limits }
    requires crew { All (MayBegin desk.old) crew.old.items }
    ensures ran { (rules : Rules) → EachSeat (λ seat. IsHearing rules seat.station unheard) crew.old.items → IsObeying rules clerk.old.operator (shelf_of desk.old) new_stream new_state
        → HasRun D.Link.Link D.Log.Sink D.Gate.faults D.Calls.Source D.Replies.Sink rules crew.old.items crew.new.items clerk.old clerk.new desk.new }
    ensures readings { Each (λ old new. Each (λ first now. HasSeenAll desk.new first.view now.view) old.seats.items new.seats.items) crew.old.items crew.new.items }
    ensures rooms { Each (λ old new. new.scratch.room ≡ old.scratch.room) crew.old.items crew.new.items }
    ensures home { desk.new.home ≡ desk.old.home }
    ensures limits { desk.new.limits ≡ desk.old.limits }
    ensures within { OnOk result (NoneIsOver (length desk.new.published) crew.new.items) }
    ensures mismatch { IfErr result (IsFirstOver (length desk.new.published) crew.new.items) }
{
    run_beside(rt, crew.as_mut_slice(), desk, clerk);
    what_a_served_seat_did::<D::Link, D::Log, Reading<R>>();
    close_all(crew, desk);
    match first_over(crew, desk.version()) {
        None => Ok(()),
        Some(mismatch) => Err(mismatch),
    }
}
