// What takes an input piece after piece.
ghost use Rattle.std.specs.Prelude.{◌≡◌, ◌≤◌, ◌++◌, [], ◌∷◌, ℕ, List, Option, Some, None, length, take};
ghost use Rattle.hk_base.specs.Devices.{Counts};
ghost use Rattle.hk_base.specs.declared.plain.Trouble.{Trouble};
ghost use Rattle.hk_spec_runs.specs.Outcome.{Task};
ghost use Rattle.hk_player.specs.Playing.{Adds, StopsBehind, TearsBehind, Ends, TearsEnd, IsInForm, IfStopped, IfWhole, IfWrong};

use hk_base::{Sink, Steps, Trouble};
use std::sync::ledger::Ledger;

/// What came of a byte: it was taken, and what it completes was written; or it meets a fault, or a write failed.
#[derive(Clone, Copy, Debug, PartialEq, Eq)]
pub enum Taken {
    Going,
    Stopped(Trouble),
    SinkFault,
}

/// What came of the end of an input: its last lines were written, and every stream ended in order or not; or the input may
/// not end there, or a write failed.
#[derive(Clone, Copy, Debug, PartialEq, Eq)]
pub enum Finished {
    Whole(bool),
    Wrong(Trouble),
    Torn,
}

/// What makes a text of an input.
pub trait Player {
    /// What it makes of which input.
    ghost task: { Self → Task };

    /// It has played these bytes, which have no fault; the commands with these numbers were refused for memory. The first
    /// list has the numbers.
    ghost has_played: { Self → List ℕ → List ℕ → Type 0 };

    /// The fault of the input that it has met.
    ghost fault: { Self → Option Trouble };

    /// Takes a front of the piece whose bytes complete nothing, and answers how many they are.
    fn listen(&mut self, piece: &[u8]) -> usize
        ensures within { result ≤ length piece.now }
        ensures task_stays { task self.new ≡ task self.old }
        ensures fault_stays { fault self.new ≡ fault self.old }
        ensures listened { (refused text : List ℕ) → has_played self.old refused text
            → has_played self.new refused (text ++ take result piece.now)
            × ((task self.old).text (text ++ take result piece.now) refused ≡ (task self.old).text text refused) };

    /// Takes the next byte of the input, and writes what it completes. After a fault each byte is answered with that fault.
    /// A failed write is no fault of the input, which goes on.
    fn take<K: Sink, L: Ledger>(&mut self, byte: u8, out: &mut K, steps: &mut Steps<L>) -> Taken
        ensures task_stays { task self.new ≡ task self.old }
        ensures going { result ≡ Taken.Going → (refused text : List ℕ) → has_played self.old refused text
            → (refused' : List ℕ) × has_played self.new refused' (text ++ byte ∷ [])
            × Adds (task self.old) refused text refused' (text ++ byte ∷ []) (K.written out.old) (K.written out.new) }
        ensures stopped { IfStopped result (λ trouble. (refused text : List ℕ) → has_played self.old refused text
            → StopsBehind (task self.old) refused text byte trouble) }
        ensures stopped_unwritten { IfStopped result (λ trouble. K.written out.new ≡ K.written out.old) }
        ensures torn { result ≡ Taken.SinkFault → (refused text : List ℕ) → has_played self.old refused text
            → TearsBehind (task self.old) refused text byte (K.written out.old) (K.written out.new) }
        ensures met { IfStopped result (λ trouble. fault self.new ≡ Some trouble) }
        ensures same_fault { (trouble : Trouble) → fault self.old ≡ Some trouble → result ≡ Taken.Stopped trouble }
        ensures torn_goes_on { result ≡ Taken.SinkFault → (refused text : List ℕ) → has_played self.old refused text → fault self.new ≡ None }
        ensures faults { Counts (result ≡ Taken.SinkFault) (K.faults out.old) (K.faults out.new) };

    /// Ends the input, and writes the last lines where nothing is wrong with its end.
    fn finish<K: Sink>(&mut self, out: &mut K) -> Finished
        ensures whole { IfWhole result (λ in_order. (refused text : List ℕ) → has_played self.old refused text
            → Ends (task self.old) refused text in_order (K.written out.old) (K.written out.new)) }
        ensures wrong { IfWrong result (λ trouble. (refused text : List ℕ) → has_played self.old refused text
            → (task self.old).wrong text ≡ Some trouble) }
        ensures wrong_unwritten { IfWrong result (λ trouble. K.written out.new ≡ K.written out.old) }
        ensures torn { result ≡ Finished.Torn → (refused text : List ℕ) → has_played self.old refused text
            → TearsEnd (task self.old) refused text (K.written out.old) (K.written out.new) }
        ensures same_fault { (trouble : Trouble) → fault self.old ≡ Some trouble → result ≡ Finished.Wrong trouble }
        ensures faults { Counts (result ≡ Finished.Torn) (K.faults out.old) (K.faults out.new) };

    /// What was played has no fault.
    ghost in_form: { (p : Self) (refused text : List ℕ) → has_played p refused text → IsInForm (task p) text };

    /// No fault was met by then.
    ghost none_met: { (p : Self) (refused text : List ℕ) → has_played p refused text → fault p ≡ None };
}
