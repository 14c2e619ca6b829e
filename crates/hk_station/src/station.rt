// A station: its receiver, its count of lines, the version of its last look, and its end.
ghost use Rattle.std.specs.Prelude.{◌≡◌, ◌≤◌, ◌<◌, ◌+◌, [], ◌∷◌, ◌++◌, ℕ, List, Some, None, IfOk, IsTrue, length, take, nat_lt, if◌then◌else◌};
ghost use Rattle.hk_base.specs.Writing.{Writes};
ghost use Rattle.hk_base.specs.declared.plain.End.{End};
ghost use Rattle.hk_base.specs.declared.plain.End.TheVariants as ends;
ghost use Rattle.hk_spec_sound.specs.Prints.{full_analysis};
ghost use Rattle.hk_spec_streams.specs.Blocks.{blocks, head_of};
ghost use Rattle.hk_spec_lines.specs.Lines.{line};
ghost use Rattle.hk_spec_settings.specs.Settings.{Rules};
ghost use Rattle.hk_spec_runs.specs.Replay.{end_of};
ghost use Rattle.hk_spec_runs.specs.Listening.{Instant, bytes_in, unheard};
ghost use Rattle.hk_block.specs.Ring.{is_full};
ghost use Rattle.hk_block.specs.Looker.{Looks, matches_in, most_steps};
ghost use Rattle.hk_receiver.specs.Kept.{MOST_BYTES};
ghost use Rattle.hk_receiver.specs.Received.{block_count, block_of, ring_of};
ghost use Rattle.hk_receiver.specs.Quiet.{AreQuiet};

use hk_base::{End, NoMemory, Sink, Steps};
use hk_block::{BlockRing, Looker, Scratch};
use hk_front::Front;
use hk_receiver::{Received, Receiver};
use hk_report::write_line;
use std::alloc::Global;
use std::sync::ledger::Ledger;

/// What came of a station's bytes: it goes on, or it is over.
#[derive(Clone, Copy, Debug, PartialEq, Eq)]
pub enum Progress {
    Going,
    Over(End),
}

/// A station as far as it was heard. It keeps what its stream has open, how many lines were written whole, the version of
/// the last look, and the end once it is over.
#[derive(Drop)]
pub struct Station {
    number: u8,
    receiver: Receiver,
    lines: u64,
    version: u32,
    end: Option<End>,
    ghost counted: { lines ≤ block_count receiver },
}

impl Station {
    ghost use Rattle.hk_station.specs.Hearing.{IsHearing, ForEach, station_number, lines_written, version_of, kept_end, Becomes};
    ghost use Rattle.hk_station.specs.Outcome.{progress_of, log_result, OnTorn, UnlessTorn};
    ghost use Rattle.hk_station.specs.Feeding.{instant, HasHeard, IsTorn, WasTorn};

    /// Station `number`, before its first byte. `flips` bits of a print of sound are weak, blocks begin `hop` prints apart,
    /// and the stream has at most `limit` bytes. It takes all memory that it needs.
    pub fn new(
        alloc: Global,
        number: u8,
        flips: u32,
        hop: u32,
        limit: u64,
    ) -> Result<Station, NoMemory>
        requires flips { flips ≤ 10 }
        requires some { 1 ≤ hop }
        requires most { hop ≤ 256 }
        requires limit { limit ≤ MOST_BYTES }
        ensures unheard { IfOk result (λ station. (rules : Rules)
            → rules.setting ≡ record { analysis = full_analysis; flips = flips; block = record { size = 256; hop = hop } }
            → rules.bytes ≡ limit → IsHearing rules station unheard) }
        ensures number { IfOk result (λ station. station_number station ≡ number) }
    {
        let front = Front::new(alloc, flips)?;
        let ring = BlockRing::new(alloc, hop)?;
        Ok(Station {
            number,
            receiver: Receiver::new(front, ring, limit),
            lines: 0,
            version: 0,
            end: None,
        })
    }

    /// Hears the stream's next byte. Where it completes a block, that is looked up in the view, and its line is written to
    /// the log; a failed write leaves a proper front of the line. Where it completes a fence, the view is asked for its
    /// version. Once the station is over, it answers its end and changes nothing.
    pub fn hear<V: Looker, K: Sink, L: Ledger>(
        &mut self,
        byte: u8,
        view: &mut V,
        scratch: &mut Scratch,
        log: &mut K,
        steps: &mut Steps<L>,
    ) -> Progress
        requires room { (V.looker view.old).room ≤ scratch.old.room }
        ensures heard { UnlessTorn result (HasHeard V.Looker K.Sink (instant (V.looker view.new) byte ∷ [])
            self.old self.new view.old view.new log.old log.new steps.old steps.new) }
        ensures torn { kept_end self.old ≡ None → OnTorn result (IsTorn V.Looker K.Sink (instant (V.looker view.new) byte)
            self.old self.new view.old view.new log.old log.new steps.old steps.new) }
        ensures tells { result ≡ progress_of (kept_end self.new) }
        ensures over { (end : End) → kept_end self.old ≡ Some end → (self.new ≡ self.old) × (view.new ≡ view.old) × (log.new ≡ log.old) }
        ensures idle { (end : End) → kept_end self.old ≡ Some end → (scratch.new ≡ scratch.old) × (steps.new ≡ steps.old) }
        ensures number_stays { station_number self.new ≡ station_number self.old }
        ensures scratch_room { scratch.new.room ≡ scratch.old.room }
    {
        if let Some(end) = self.end {
            return Progress::Over(end);
        }
        match self.receiver.push(byte) {
            Received::Nothing => Progress::Going,
            Received::Block => self.report(view, scratch, log, steps),
            Received::Fence(asked) => self.meet(asked, view),
            Received::Fault(fault) => self.close(End::Wire(fault)),
        }
    }

    /// Hears a front of the piece that is sound and completes nothing, and answers how many bytes it has: none once the
    /// station is over.
    pub fn listen(&mut self, piece: &[u8]) -> usize
        ensures within { result ≤ length piece.now }
        ensures hears { ForEach self.old (λ rules l. IsHearing rules self.new (record l { used = l.used ++ take result piece.now })) }
        ensures quiet { ForEach self.old (λ rules l. AreQuiet rules l.used (take result piece.now)) }
        ensures over { (end : End) → kept_end self.old ≡ Some end → (result ≡ 0) × (self.new ≡ self.old) }
        ensures end_stays { kept_end self.new ≡ kept_end self.old }
        ensures number_stays { station_number self.new ≡ station_number self.old }
        ensures lines_stay { lines_written self.new ≡ lines_written self.old }
        ensures version_stays { version_of self.new ≡ version_of self.old }
    {
        if self.end.is_some() {
            return 0;
        }
        self.receiver.listen(piece)
    }

    /// Hears a piece of the stream, byte after byte, up to the one that ends the station; the rest of the piece is left. A
    /// failed write leaves the lines before whole, and then a proper front of its line. Once the station is over, it answers
    /// its end and changes nothing.
    pub fn feed<V: Looker, K: Sink, L: Ledger>(
        &mut self,
        piece: &[u8],
        view: &mut V,
        scratch: &mut Scratch,
        log: &mut K,
        steps: &mut Steps<L>,
    ) -> Progress
        requires room { (V.looker view.old).room ≤ scratch.old.room }
        ensures heard { UnlessTorn result ((instants : List Instant) × (bytes_in instants ≡ piece.now)
            × HasHeard V.Looker K.Sink instants self.old self.new view.old view.new log.old log.new steps.old steps.new) }
        ensures torn { kept_end self.old ≡ None → OnTorn result ((instants : List Instant) × (torn : Instant) × (left : List ℕ)
            × (bytes_in instants ++ torn.byte ∷ left ≡ piece.now)
            × WasTorn V.Looker K.Sink instants torn self.old self.new view.old view.new log.old log.new steps.old steps.new) }
        ensures tells { result ≡ progress_of (kept_end self.new) }
        ensures over { (end : End) → kept_end self.old ≡ Some end → (self.new ≡ self.old) × (view.new ≡ view.old) × (log.new ≡ log.old) }
        ensures idle { (end : End) → kept_end self.old ≡ Some end → (scratch.new ≡ scratch.old) × (steps.new ≡ steps.old) }
        ensures number_stays { station_number self.new ≡ station_number self.old }
        ensures scratch_room { scratch.new.room ≡ scratch.old.room }
    {
        if let Some(kept) = self.end {
            return Progress::Over(kept);
        }
        let mut at = 0;
        for _turn in 0..piece.len() {
            at += self.listen(&piece[at..]);
            if at == piece.len() {
                return Progress::Going;
            }
            match self.hear(piece[at], view, scratch, log, steps) {
                Progress::Going => at += 1,
                Progress::Over(end) => return Progress::Over(end),
            }
        }
        Progress::Going
    }

    // Ends the station.
    fn close(&mut self, end: End) -> Progress
        ensures over { result ≡ Progress.Over end }
        ensures closes { Becomes self.old self.new self.old.lines self.old.version (Some end) }
    {
        self.end = Some(end);
        Progress::Over(end)
    }

    // Asks the view for its version, which may not be below the one that a fence asks for.
    #[inline(never)]
    fn meet<V: Looker>(&mut self, asked: u32, view: &mut V) -> Progress
        requires going { kept_end self.old ≡ None }
        ensures tells { result ≡ progress_of (kept_end self.new) }
        ensures meets { Becomes self.old self.new self.old.lines (V.looker view.new).at
            (if nat_lt (V.looker view.new).at asked then Some (ends.FenceAhead asked (V.looker view.new).at) else None) }
        ensures looks { Looks ((V.looker view.new).at ∷ []) (V.looker view.old) (V.looker view.new) }
    {
        let found = view.now();
        self.version = found;
        if found < asked {
            return self.close(End::FenceAhead(asked, found));
        }
        Progress::Going
    }

    // Looks up the block that the last print completed, and writes its line.
    #[inline(never)]
    fn report<V: Looker, K: Sink, L: Ledger>(
        &mut self,
        view: &mut V,
        scratch: &mut Scratch,
        log: &mut K,
        steps: &mut Steps<L>,
    ) -> Progress
        requires going { kept_end self.old ≡ None }
        requires room { (V.looker view.old).room ≤ scratch.old.room }
        requires full { IsTrue (is_full (ring_of self.old.receiver)) }
        requires uncounted { self.old.lines < block_count self.old.receiver }
        requires few { block_count self.old.receiver ≤ MOST_BYTES }
        ensures tells { result ≡ progress_of (kept_end self.new) }
        ensures writes { Writes K.Sink (line (head_of self.old.number self.old.lines (block_of self.old.receiver) (V.looker view.new).at)
            (matches_in (ring_of self.old.receiver) (V.looker view.new).songs))
            (log_result result) log.old log.new }
        ensures counts { UnlessTorn result (Becomes self.old self.new (self.old.lines + 1) (V.looker view.new).at None) }
        ensures torn { OnTorn result (Becomes self.old self.new self.old.lines (V.looker view.new).at (Some ends.SinkFault)) }
        ensures looks { Looks ((V.looker view.new).at ∷ []) (V.looker view.old) (V.looker view.new) }
        ensures bound { steps.new ≤ steps.old + most_steps (ring_of self.old.receiver) (V.looker view.new) }
        ensures scratch_room { scratch.new.room ≡ scratch.old.room }
    {
        let version = view.look(self.receiver.ring(), scratch, steps);
        self.version = version;
        let head = self.receiver.head(self.number, self.lines, version);
        match write_line(log, &head, scratch.matches()) {
            Ok(()) => {
                self.lines += 1;
                Progress::Going
            }
            Err(_) => self.close(End::SinkFault),
        }
    }

    /// Ends the station where its stream has ended: the end is the one kept, or Ended where the stream may end here, or Cut.
    pub fn finish(&mut self) -> End
        ensures end { ForEach self.old (λ rules l. result ≡ end_of rules l) }
        ensures kept { kept_end self.new ≡ Some result }
        ensures over { (end : End) → kept_end self.old ≡ Some end → result ≡ end }
        ensures number_stays { station_number self.new ≡ station_number self.old }
        ensures lines_stay { lines_written self.new ≡ lines_written self.old }
        ensures version_stays { version_of self.new ≡ version_of self.old }
    {
        if let Some(end) = self.end {
            return end;
        }
        let end = match self.receiver.finish() {
            Ok(()) => End::Ended,
            Err(fault) => End::Wire(fault),
        };
        self.end = Some(end);
        end
    }

    /// Ends the station where its stream can't be read on; one that is over stays. Answers its end.
    pub fn stop_read(&mut self) -> End
        ensures going { kept_end self.old ≡ None → result ≡ ends.ReadFault }
        ensures over { (end : End) → kept_end self.old ≡ Some end → result ≡ end }
        ensures kept { kept_end self.new ≡ Some result }
        ensures number_stays { station_number self.new ≡ station_number self.old }
        ensures lines_stay { lines_written self.new ≡ lines_written self.old }
        ensures version_stays { version_of self.new ≡ version_of self.old }
    {
        self.stop(End::ReadFault)
    }

    /// Ends the station where its gate failed; one that is over stays. Answers its end.
    pub fn stop_gate(&mut self) -> End
        ensures going { kept_end self.old ≡ None → result ≡ ends.GateFault }
        ensures over { (end : End) → kept_end self.old ≡ Some end → result ≡ end }
        ensures kept { kept_end self.new ≡ Some result }
        ensures number_stays { station_number self.new ≡ station_number self.old }
        ensures lines_stay { lines_written self.new ≡ lines_written self.old }
        ensures version_stays { version_of self.new ≡ version_of self.old }
    {
        self.stop(End::GateFault)
    }

    // Ends a station that goes on.
    fn stop(&mut self, end: End) -> End
        ensures going { kept_end self.old ≡ None → result ≡ end }
        ensures over { (kept : End) → kept_end self.old ≡ Some kept → result ≡ kept }
        ensures kept { kept_end self.new ≡ Some result }
        ensures number_stays { station_number self.new ≡ station_number self.old }
        ensures lines_stay { lines_written self.new ≡ lines_written self.old }
        ensures version_stays { version_of self.new ≡ version_of self.old }
    {
        if let Some(kept) = self.end {
            return kept;
        }
        self.end = Some(end);
        end
    }

    /// The end, and None while the station isn't over.
    pub fn end(&self) -> Option<End>
        ensures { result ≡ kept_end self.now }
    {
        self.end
    }

    /// The station's number.
    pub fn number(&self) -> u8
        ensures number { result ≡ station_number self.now }
    {
        self.number
    }

    /// How many blocks have their whole line in the log.
    pub fn blocks(&self) -> u64
        ensures lines { result ≡ lines_written self.now }
        ensures all { ForEach self.now (λ rules l. result ≡ length (blocks rules.setting l.used)) }
    {
        self.lines
    }

    /// The version of the last look for a block or a fence, and 0 before the first.
    pub fn version(&self) -> u32
        ensures version { result ≡ version_of self.now }
        ensures last { ForEach self.now (λ rules l. result ≡ l.version) }
    {
        self.version
    }
}
