// A piece of the operator's calls.
ghost use Rattle.std.specs.Prelude.{◌≡◌, ◌++◌, ℕ, List, Option};
ghost use Rattle.hk_base.specs.Devices.{Counts};
ghost use Rattle.hk_base.specs.declared.plain.What.{What};
ghost use Rattle.hk_spec_settings.specs.Settings.{Rules};
ghost use Rattle.hk_clerk.specs.Course.{HasAnswered, PieceLeaves};

use crate::step::{Step, obey};
use hk_base::{OpEnd, Sink};
use hk_operator::Operator;
use hk_publish::Desk;
use hk_report::write_reply;
use std::sync::Wait;

/// What became of the operator's stream: it goes on, it is over, or a reply couldn't be written whole.
#[derive(Clone, Copy, Debug, PartialEq, Eq)]
pub enum Progress {
    Going,
    Over(OpEnd),
    Torn,
}

/// Obeys a piece of the operator's stream, byte after byte, and writes the reply to each command before the next byte. What lies
/// behind the byte that ends the stream, or whose reply is torn, is left.
pub fn obey_piece<P: Sink, R: Wait>(
    operator: &mut Operator,
    piece: &[u8],
    desk: &mut Desk,
    replies: &mut P,
    rt: &R,
) -> Progress
    ensures answers { (rules : Rules) (start : Option (List ℕ)) (taken : List ℕ) (told : List What)
        → HasAnswered rules start taken told operator.old desk.old (P.written replies.old)
        → PieceLeaves rules start (taken ++ piece.now) operator.new desk.new (P.written replies.new) result }
    ensures faults { Counts (result ≡ Progress.Torn) (P.faults replies.old) (P.faults replies.new) }
    ensures home { desk.new.home ≡ desk.old.home }
    ensures limits { desk.new.limits ≡ desk.old.limits }
{
    for byte in piece {
        match obey(operator, *byte, desk, rt) {
            Step::Quiet => {}
            Step::Over(end) => return Progress::Over(end),
            Step::Reply(reply) => match write_reply(replies, &reply) {
                Ok(()) => {}
                Err(_) => return Progress::Torn,
            },
        }
    }
    Progress::Going
}
