// The office.
ghost use Rattle.std.specs.Prelude.{◌≡◌, length, false};
ghost use Rattle.std.specs.Option.{option_map_or};
ghost use Rattle.hk_spec_settings.specs.Settings.{Rules};
ghost use Rattle.hk_spec_monitor.specs.Run.{Obeyed, whole_replies, is_reply_torn};
ghost use Rattle.hk_publish.specs.Holding.{Holding};
ghost use Rattle.hk_clerk.specs.declared.office.Office.{Office};
ghost use Rattle.hk_clerk.specs.Clerks.{HasAttended, HasObeyedAll};

use crate::piece::{Progress, obey_piece};
use hk_base::{Got, OpEnd, Sink, Source};
use hk_crew::Attend;
use hk_operator::Operator;
use hk_publish::Desk;
use std::sync::Wait;

// How many bytes are read at once.
const PIECE_SIZE: usize = 4096;

/// Who serves the operator: the operator's stream as far as it was obeyed, where its bytes come from, where the replies go, and
/// how it ended, once it has.
#[derive(Drop)]
pub struct Office<C: Source, P: Sink> {
    pub operator: Operator,
    pub calls: C,
    pub replies: P,
    pub end: Option<OpEnd>,
}

// Whether the last reply is torn.
fn is_torn(end: Option<OpEnd>) -> bool
    ensures { result ≡ option_map_or is_reply_torn end false }
{
    matches!(end, Some(OpEnd::SinkFault))
}

impl<C: Source, P: Sink> Office<C, P> {
    /// How many replies were written whole, once it has served the operator: of all commands that were done, all replies but
    /// a torn one.
    pub fn whole_replies(&self) -> u64
        ensures { (rules : Rules) (old : Office C P) (desk : Holding) (o : Obeyed) → HasObeyedAll C.Source P.Sink rules old self.now desk o
            → result ≡ length (whole_replies o) }
    {
        let commands = self.operator.commands();
        if is_torn(self.end) {
            commands.saturating_sub(1)
        } else {
            commands
        }
    }
}

impl<C: Source, P: Sink> Attend<Desk> for Office<C, P> {
    ghost may_attend = { λ office desk. Unit };

    ghost has_attended = { HasAttended C.Source P.Sink };

    fn attend<R: Wait>(&mut self, desk: &mut Desk, rt: &R) {
        let mut piece = [0; PIECE_SIZE];
        for _ in rt.forever() {
            let count = match self.calls.read(&mut piece) {
                Got::Bytes(count) => count,
                Got::End => {
                    self.end = Some(self.operator.finish());
                    return;
                }
                Got::Failed => {
                    self.end = Some(OpEnd::ReadFault);
                    return;
                }
            };
            match obey_piece(
                &mut self.operator,
                &piece[..count],
                desk,
                &mut self.replies,
                rt,
            ) {
                Progress::Going => {}
                Progress::Over(end) => {
                    self.end = Some(end);
                    return;
                }
                Progress::Torn => {
                    self.end = Some(OpEnd::SinkFault);
                    return;
                }
            }
        }
        unreachable!()
    }
}
