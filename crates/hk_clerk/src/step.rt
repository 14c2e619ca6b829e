// A byte of the operator's stream.
ghost use Rattle.std.specs.Prelude.{◌≡◌, ◌++◌, ◌∷◌, [], ℕ, List};
ghost use Rattle.hk_base.specs.declared.plain.What.{What};
ghost use Rattle.hk_spec_settings.specs.Settings.{Rules};
ghost use Rattle.hk_publish.specs.Holding.{shelf_of};
ghost use Rattle.hk_operator.specs.Answering.{HasPublished};
ghost use Rattle.hk_clerk.specs.Course.{HasDone, StepLeaves, journal_after};

use hk_base::{OpEnd, Reason, Reply, What};
use hk_catalogue::StageFault;
use hk_operator::{Done, Operator};
use hk_publish::Desk;
use std::sync::Wait;

/// What a byte of the operator's stream came to: nothing that is answered, the reply to the command that it ends, or the
/// stream's end by a fault.
#[derive(Clone, Copy, Debug, PartialEq, Eq)]
pub enum Step {
    Quiet,
    Reply(Reply),
    Over(OpEnd),
}

/// Obeys a byte of the operator's stream at the desk, and publishes there where it ends a publish.
pub fn obey<R: Wait>(operator: &mut Operator, byte: u8, desk: &mut Desk, rt: &R) -> Step
    ensures leaves { (rules : Rules) (taken : List ℕ) (told : List What) → HasDone rules taken told operator.old desk.old
        → StepLeaves rules (taken ++ byte ∷ []) told operator.new desk.new result }
    ensures home { desk.new.home ≡ desk.old.home }
    ensures limits { desk.new.limits ≡ desk.old.limits }
{
    match operator.push(byte, desk) {
        Done::More => Step::Quiet,
        Done::Over(end) => Step::Over(end),
        Done::Reply(reply) => Step::Reply(reply),
        Done::Publish(number) => Step::Reply(Reply {
            number,
            what: publish(desk, rt),
        }),
    }
}

// Publishes what is staged, as one batch, and tells the new version, or why none was published.
fn publish<R: Wait>(desk: &mut Desk, rt: &R) -> What
    ensures told { HasPublished (shelf_of desk.old) (shelf_of desk.new) result }
    ensures journal { desk.new.published ≡ journal_after desk.old.published desk.old.staged result }
    ensures home { desk.new.home ≡ desk.old.home }
    ensures limits { desk.new.limits ≡ desk.old.limits }
{
    match desk.publish(rt) {
        Ok(version) => What::Published(version),
        Err(StageFault::Refused(_)) => What::Refused(Reason::VersionsFull),
        Err(StageFault::NoMemory) => What::Refused(Reason::NoMemory),
    }
}
