// The operator.
ghost use Rattle.std.specs.Prelude.{◌≡◌, ◌+◌, ℕ, [], ◌∷◌, length, IfOk, is_some, true, None};
ghost use Rattle.hk_spec_sound.specs.Limits.{IsInRange, POSITIONS};
ghost use Rattle.hk_spec_streams.specs.Operator.{Command, Close, commands};
ghost use Rattle.hk_spec_runs.specs.OperatorState.{OperatorState, IsReply, after};
ghost use Rattle.hk_spec_settings.specs.Settings.{Rules};
ghost use Rattle.hk_spec_runs.specs.Replay.{OperatorStream, operator_end_of};
ghost use Rattle.hk_block.specs.Looker.{ShelfView};
ghost use Rattle.hk_operator.specs.OnShelf.{IsOnShelf, StaysPublished};
ghost use Rattle.hk_operator.specs.Draft.{Drafts};
ghost use Rattle.hk_operator.specs.Sound.{IsFixed, sound_of};

use crate::done::Done;
use crate::draft::Draft;
use crate::recorder::Recorder;
use crate::staging;
use hk_base::{NoMemory, OpEnd, Reason, Reply, What};
use hk_catalogue::Shelf;
use hk_operator_wire::{Kind, OpItem, OpWire};
use std::alloc::Global;

/// An operator's stream as far as it was obeyed: its wire, the open command, the open song, and the number of commands.
#[derive(Drop)]
pub struct Operator {
    alloc: Global,
    wire: OpWire,
    draft: Draft,
    recorder: Recorder,
    commands: u64,
}

fn reply(number: u64, what: What) -> Done
    ensures { result ≡ Done.Reply (record { number = number; what = what }) }
{
    Done::Reply(Reply { number, what })
}

impl Operator {
    ghost use Rattle.hk_operator.specs.Obeying.{IsObeying, IsAtCommand, stream_after, new_stream, new_commands, end_in, IsAnswered, next_number, counted};

    /// An operator that has taken nothing, for streams of at most `limit` bytes, and a shelf of `positions` words. It takes
    /// room for as many words of a command and of an open song, so that collecting them takes no memory.
    pub fn new(alloc: Global, limit: u64, positions: u32) -> Result<Operator, NoMemory>
        requires { IsInRange POSITIONS positions }
        ensures { IfOk result (λ operator. (rules : Rules) (view : ShelfView) (state : OperatorState) → IsFixed rules → rules.bytes ≡ limit → rules.limits.positions ≡ positions
            → state.song ≡ None → IsOnShelf rules view state → IsObeying rules operator view new_stream state) }
    {
        Ok(Operator {
            alloc,
            wire: OpWire::new(limit),
            draft: Draft::new(alloc, positions)?,
            recorder: Recorder::new(alloc, positions)?,
            commands: 0,
        })
    }

    /// Takes the stream's next byte. The last byte of a command stages its edit and gives its reply, or hands a publish to
    /// the caller. After a fault each push answers that fault and changes nothing.
    pub fn push<S: Shelf>(&mut self, byte: u8, shelf: &mut S) -> Done
        ensures over { (rules : Rules) (operator_stream : OperatorStream) (state : OperatorState) → IsObeying rules self.old (S.shelf shelf.old) operator_stream state
            → end_in result ≡ (stream_after rules operator_stream byte).end }
        ensures answered { (rules : Rules) (operator_stream : OperatorStream) (state : OperatorState) → IsObeying rules self.old (S.shelf shelf.old) operator_stream state
            → IsAnswered rules state (length (commands operator_stream.used) + 1) (new_commands rules operator_stream byte) result
            (IsObeying rules self.new (S.shelf shelf.new) (stream_after rules operator_stream byte)) }
        ensures over_stays { (rules : Rules) (operator_stream : OperatorStream) (state : OperatorState) → IsObeying rules self.old (S.shelf shelf.old) operator_stream state
            → is_some operator_stream.end ≡ true → (self.new ≡ self.old) × (shelf.new ≡ shelf.old) }
        ensures published { StaysPublished (S.shelf shelf.old) (S.shelf shelf.new) }
    {
        let item = self.wire.push(byte);
        if let OpItem::Fault(fault) = item {
            return Done::Over(OpEnd::Wire(fault));
        }
        let part = item.part();
        self.draft.take(part);
        self.recorder.take(part);
        if item.ends() {
            self.complete(shelf)
        } else {
            Done::More
        }
    }

    // Obeys the command, which is whole. Its large locals stay out of what is called for each byte.
    #[inline(never)]
    fn complete<S: Shelf>(&mut self, shelf: &mut S) -> Done
        ensures answered { (rules : Rules) (state : OperatorState) (command : Command) → IsAtCommand rules self.old (S.shelf shelf.old) state (sound_of command)
            → Drafts self.old.draft command
            → IsAnswered rules state (next_number self.old) (command ∷ []) result (λ now. IsAtCommand rules self.new (S.shelf shelf.new) now []) }
        ensures kept { self.new ≡ counted self.old self.new.recorder }
        ensures published { StaysPublished (S.shelf shelf.old) (S.shelf shelf.new) }
    {
        let number = self.commands.saturating_add(1);
        self.commands = number;
        let id = self.draft.id;
        match Kind::numbered(self.draft.kind) {
            Some(Kind::AddWords) => reply(
                number,
                staging::add(self.alloc, id, &self.draft.words, shelf),
            ),
            Some(Kind::OpenSong) => reply(number, self.recorder.open(id, self.draft.form)),
            Some(Kind::Audio) => reply(number, self.recorder.audio()),
            Some(Kind::Close) => reply(number, self.close(shelf)),
            Some(Kind::Withdraw) => reply(number, staging::withdraw(id, shelf)),
            Some(Kind::Publish) => Done::Publish(number),
            None => Done::More,
        }
    }

    // Stages the open song, which is open no more.
    fn close<S: Shelf>(&mut self, shelf: &mut S) -> What
        ensures decided { (rules : Rules) (state : OperatorState) → IsAtCommand rules self.old (S.shelf shelf.old) state []
            → IsReply rules state Close result × IsAtCommand rules self.new (S.shelf shelf.new) (after rules state Close result) [] }
        ensures kept { self.new ≡ record self.old { recorder = self.new.recorder } }
        ensures published { StaysPublished (S.shelf shelf.old) (S.shelf shelf.new) }
    {
        match self.recorder.song.take() {
            Some(id) => staging::add(self.alloc, id, &self.recorder.words, shelf),
            None => What::Refused(Reason::NoSongOpen),
        }
    }

    /// How the stream ends here: by the fault that it met, with Ended where no byte came or the last command is whole, and
    /// else with Cut. Changes nothing.
    pub fn finish(&mut self) -> OpEnd
        ensures end { (rules : Rules) (view : ShelfView) (operator_stream : OperatorStream) (state : OperatorState) → IsObeying rules self.old view operator_stream state
            → result ≡ operator_end_of rules operator_stream }
        ensures changes_nothing { self.new ≡ self.old }
    {
        match self.wire.finish() {
            Ok(()) => OpEnd::Ended,
            Err(fault) => OpEnd::Wire(fault),
        }
    }

    /// How many commands were answered, publishes too.
    pub fn commands(&self) -> u64
        ensures { (rules : Rules) (view : ShelfView) (operator_stream : OperatorStream) (state : OperatorState) → IsObeying rules self.now view operator_stream state
            → result ≡ length (commands operator_stream.used) }
    {
        self.commands
    }
}
