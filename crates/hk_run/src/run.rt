// A run: stations and operator over one catalogue.
ghost use Rattle.std.specs.Prelude.{◌≡◌, ◌≤◌, ◌<◌, ◌+◌, ◌⊎◌, ◌∷◌, [], None, ℕ, List, IfOk, IfSome, length, take};
ghost use Rattle.hk_base.specs.Devices.{Counts};
ghost use Rattle.hk_spec_streams.specs.Operator.{Command, Publish, commands};
ghost use Rattle.hk_spec_streams.specs.Records.{ForStation};
ghost use Rattle.hk_spec_runs.specs.OperatorState.{IsReply, after};
ghost use Rattle.hk_spec_runs.specs.Replay.{arrived};
ghost use Rattle.hk_operator.specs.Obeying.{stream_after, new_commands};
ghost use Rattle.hk_words.specs.Rules.{rules_meant, RulesFit};
ghost use Rattle.hk_run.specs.Course.{heard_by, operator_ended, taken_of};

use crate::opening::open_stations;
use crate::summary::write_stations;
use hk_base::{End, NoMemory, OpEnd, Reason, Reply, Sink, Steps, What};
use hk_block::Scratch;
use hk_operator::{Done, Operator};
use hk_player::{Finished, Player, Taken};
use hk_probe::Alone;
use hk_records::{Came, RecordReader};
use hk_report::{write_operator, write_reply};
use hk_station::{Progress, Station};
use hk_words::RunRules;
use std::alloc::Global;
use std::sync::ledger::Ledger;

/// Stations and an operator over one catalogue, as far as the input was played.
#[derive(Drop)]
pub struct Run {
    rules: RunRules,
    reader: RecordReader,
    stations: Vec<Station>,
    operator: Operator,
    catalogue: Alone,
    scratch: Scratch,
    ghost room: { catalogue.limits.positions ≤ scratch.room },
}

// What a station's progress is to the run, which goes on where a station is over.
fn taken_of(progress: Progress) -> Taken
    ensures { result ≡ taken_of progress }
{
    match progress {
        Progress::Over(End::SinkFault) => Taken::SinkFault,
        Progress::Going | Progress::Over(_) => Taken::Going,
    }
}

fn is_in_order(end: OpEnd) -> bool
    ensures { result ≡ operator_ended end }
{
    matches!(end, OpEnd::Ended)
}

impl Run {
    ghost use Rattle.hk_run.specs.Playing.{HasPlayed};
    ghost use Rattle.hk_run.specs.Holding.{ForHeld, Holds, with_stream, with_state};
    ghost use Rattle.hk_run.specs.Playing.{AddsScene, AddsSceneFront};

    /// A run before its first byte. It takes all memory that its streams and looks need.
    pub fn new(alloc: Global, rules: &RunRules) -> Result<Run, NoMemory>
        requires fits { RulesFit rules.now }
        ensures new { IfOk result (λ run. HasPlayed (rules_meant rules.now) run [] []) }
        ensures set { IfOk result (λ run. run.rules ≡ rules.now) }
    {
        let stations = open_stations(alloc, rules)?;
        let operator = Operator::new(alloc, rules.bytes, rules.positions)?;
        let catalogue = Alone::new(alloc, rules.songs, rules.positions, rules.versions)?;
        let scratch = Scratch::new(alloc, rules.positions)?;
        Ok(Run {
            rules: *rules,
            reader: RecordReader::new(rules.stations, rules.bytes),
            stations,
            operator,
            catalogue,
            scratch,
        })
    }

    // A byte of a station's stream. A station that is over, or isn't there, skips it.
    fn hear<K: Sink, L: Ledger>(
        &mut self,
        number: u8,
        byte: u8,
        out: &mut K,
        steps: &mut Steps<L>,
    ) -> Taken
        ensures never_stops { (result ≡ Taken.Going) ⊎ (result ≡ Taken.SinkFault) }
        ensures going { result ≡ Taken.Going → ForHeld self.old (λ rules scene. (refused : List ℕ) →
            Holds rules self.new (arrived rules refused scene (ForStation number byte))
            × AddsScene scene (arrived rules refused scene (ForStation number byte)) (K.written out.old) (K.written out.new)) }
        ensures torn { result ≡ Taken.SinkFault → ForHeld self.old (λ rules scene. (refused : List ℕ) →
            AddsSceneFront scene (arrived rules refused scene (ForStation number byte)) (K.written out.old) (K.written out.new)) }
        ensures faults { Counts (result ≡ Taken.SinkFault) (K.faults out.old) (K.faults out.new) }
        ensures reader_stays { self.new.reader ≡ self.old.reader }
        ensures rules_stay { self.new.rules ≡ self.old.rules }
    {
        if number as usize >= self.stations.len() {
            return Taken::Going;
        }
        let station = &mut self.stations[number as usize];
        if station.end().is_some() {
            return Taken::Going;
        }
        taken_of(station.hear(byte, &mut self.catalogue, &mut self.scratch, out, steps))
    }

    // A piece of a station's stream: the station takes a front of it that completes nothing, and none once it is over.
    fn attend(&mut self, number: u8, piece: &[u8]) -> usize
        ensures within { result ≤ length piece.now }
        ensures holds { ForHeld self.old (λ rules scene. (refused : List ℕ) → Holds rules self.new (heard_by rules refused scene number (take result piece.now))) }
        ensures prints_nothing { ForHeld self.old (λ rules scene. (refused : List ℕ) →
            (heard_by rules refused scene number (take result piece.now)).printed ≡ scene.printed) }
        ensures reader_stays { self.new.reader ≡ self.old.reader }
        ensures rules_stay { self.new.rules ≡ self.old.rules }
    {
        if number as usize >= self.stations.len() {
            return 0;
        }
        if self.stations[number as usize].end().is_some() {
            return 0;
        }
        let station = &mut self.stations[number as usize];
        station.listen(piece)
    }

    // A byte of the operator's stream: the reply to the command that it ends.
    fn obey(&mut self, byte: u8) -> Option<Reply>
        ensures quiet { result ≡ None → ForHeld self.old (λ rules scene. (new_commands rules scene.operator_stream byte ≡ [])
            × Holds rules self.new (with_stream scene (stream_after rules scene.operator_stream byte))) }
        ensures replies { IfSome result (λ reply. ForHeld self.old (λ rules scene. (command : Command) × (new_commands rules scene.operator_stream byte ≡ command ∷ [])
            × (reply.number ≡ length (commands scene.operator_stream.used) + 1) × IsReply rules scene.state command reply.what
            × Holds rules self.new (with_state (with_stream scene (stream_after rules scene.operator_stream byte)) (after rules scene.state command reply.what)))) }
        ensures reader_stays { self.new.reader ≡ self.old.reader }
        ensures rules_stay { self.new.rules ≡ self.old.rules }
    {
        match self.operator.push(byte, &mut self.catalogue) {
            Done::More | Done::Over(_) => None,
            Done::Reply(reply) => Some(reply),
            Done::Publish(number) => Some(Reply {
                number,
                what: self.publish(),
            }),
        }
    }

    // Publishes what is staged, or tells that no version is left.
    fn publish(&mut self) -> What
        ensures published { ForHeld self.old (λ rules scene. IsReply rules scene.state Publish result
            × Holds rules self.new (with_state scene (after rules scene.state Publish result))) }
        ensures reader_stays { self.new.reader ≡ self.old.reader }
        ensures rules_stay { self.new.rules ≡ self.old.rules }
    {
        match self.catalogue.publish() {
            Ok(version) => What::Published(version),
            Err(_) => What::Refused(Reason::VersionsFull),
        }
    }
}

impl Player for Run {
    ghost use Rattle.hk_spec_runs.specs.Outcome.{task_of};
    ghost use Rattle.hk_spec_runs.specs.Words.{Replay};
    ghost use Rattle.hk_run.specs.Playing.{HasPlayed};

    ghost task = { λ run. task_of (Replay (rules_meant run.rules)) };

    ghost has_played = { λ run refused text. HasPlayed (rules_meant run.rules) run refused text };

    ghost use Rattle.hk_records.specs.Reader.{trouble_met};

    ghost fault = { λ run. trouble_met run.reader };

    // Within a record a station takes its sound in pieces; each other byte goes by itself.
    fn listen(&mut self, piece: &[u8]) -> usize {
        let Some(stretch) = self.reader.stretch() else {
            return 0;
        };
        let most = stretch.len.min(piece.len() as u64) as usize;
        let count = self.attend(stretch.number, &piece[..most]);
        self.reader.skip(count as u64);
        count
    }

    fn take<K: Sink, L: Ledger>(&mut self, byte: u8, out: &mut K, steps: &mut Steps<L>) -> Taken {
        match self.reader.push(byte) {
            Came::Head => Taken::Going,
            Came::Station { number, byte } => self.hear(number, byte, out, steps),
            Came::Operator(byte) => match self.obey(byte) {
                None => Taken::Going,
                Some(reply) => match write_reply(out, &reply) {
                    Ok(()) => Taken::Going,
                    Err(_) => Taken::SinkFault,
                },
            },
            Came::Bad(trouble) => Taken::Stopped(trouble),
        }
    }

    fn finish<K: Sink>(&mut self, out: &mut K) -> Finished {
        if let Err(trouble) = self.reader.finish() {
            return Finished::Wrong(trouble);
        }
        let stations_ended = match write_stations(self.stations.as_mut_slice(), out) {
            Ok(ended) => ended,
            Err(_) => return Finished::Torn,
        };
        let end = self.operator.finish();
        match write_operator(
            out,
            self.operator.commands(),
            self.catalogue.version(),
            &end,
        ) {
            Ok(()) => Finished::Whole(stations_ended & is_in_order(end)),
            Err(_) => Finished::Torn,
        }
    }

    ghost in_form = { λ run refused text h. h.in_form };

    ghost none_met = { λ run refused text h. h.read.none_met };
}
