// What the words and an input give.
ghost use Rattle.std.specs.Prelude.{◌≡◌, ◌≤◌, ◌⊎◌, ◌++◌, [], ℕ, List, IsNone, Some, None, true, false};
ghost use Rattle.hk_base.specs.Devices.{Rose, Wrote};
ghost use Rattle.hk_spec_runs.specs.Outcome.{Trades, IsWhole, IsStopped, IsReadFault, IsWriteFault};
ghost use Rattle.hk_replay.specs.Top.{task_asked, IfAsked, IsStatus, ENDED, IN_DISORDER, USAGE, NO_MEMORY, READ_FAULT, WRITE_FAULT, STOPPED};

use crate::order::carry_out;
use crate::statuses::{USAGE, status_of};
use hk_base::{Sink, Source, Status};
use hk_words::read_words;
use std::alloc::Global;

/// Does what the words ask for with the input, and writes the answer: `replay` replays records, `print` prints sound, and
/// `make` replays an input of its own and reads none. The statuses are 0 where all of the text was written and every stream
/// ended in order, 3 where some stream didn't, 2 where the words are no command, 4 for want of memory at the opening or while
/// `make` replays, 5 where reading failed, 6 where writing failed, and 7 where the input has a fault.
pub fn replay_top<S: Source, K: Sink>(
    alloc: Global,
    words: &Vec<String>,
    input: &mut S,
    out: &mut K,
) -> Status
    ensures known { IsStatus result.code }

    ensures reads_count { S.faults input.old ≤ S.faults input.new }
    ensures writes_count { K.faults out.old ≤ K.faults out.new }

    // The words are no command, and so nothing was read or written.
    ensures usage_only { result.code ≡ USAGE → IsNone (task_asked words.now.items) }
    ensures usage { IsNone (task_asked words.now.items) → result.code ≡ USAGE }
    ensures usage_unread { result.code ≡ USAGE → input.new ≡ input.old }
    ensures usage_unwritten { result.code ≡ USAGE → out.new ≡ out.old }

    // Memory was wanted before anything was read or written.
    ensures no_memory_unread { result.code ≡ NO_MEMORY → input.new ≡ input.old }
    ensures no_memory_unwritten { result.code ≡ NO_MEMORY → out.new ≡ out.old }

    // An input that is made is none that is read.
    ensures make_unread { IfAsked words.now.items (λ task. task.reads ≡ false → input.new ≡ input.old) }

    // All of the input was read and has no fault, its whole text was written, and every stream ended in order.
    ensures ended { result.code ≡ ENDED → IfAsked words.now.items (λ task.
        Trades (S.left input.old) (S.left input.new) (K.written out.old) (K.written out.new) (IsWhole task (S.left input.new) true)) }

    // The same, and some stream didn't end in order.
    ensures in_disorder { result.code ≡ IN_DISORDER → IfAsked words.now.items (λ task.
        Trades (S.left input.old) (S.left input.new) (K.written out.old) (K.written out.new) (IsWhole task (S.left input.new) false)) }

    // Reading failed, and so the text ends with that.
    ensures read_fault_cause { result.code ≡ READ_FAULT → Rose (S.faults input.old) (S.faults input.new) }
    ensures read_fault { result.code ≡ READ_FAULT → IfAsked words.now.items (λ task.
        Trades (S.left input.old) (S.left input.new) (K.written out.old) (K.written out.new) (IsReadFault task)) }

    // Writing failed, and what was written begins the text.
    ensures write_fault_cause { result.code ≡ WRITE_FAULT → Rose (K.faults out.old) (K.faults out.new) }
    ensures write_fault { result.code ≡ WRITE_FAULT → IfAsked words.now.items (λ task.
        Trades (S.left input.old) (S.left input.new) (K.written out.old) (K.written out.new)
        (IsWriteFault task (Rose (S.faults input.old) (S.faults input.new)) (S.left input.new))) }

    // The input has a fault, and the text ends with it.
    ensures stopped { result.code ≡ STOPPED → IfAsked words.now.items (λ task.
        Trades (S.left input.old) (S.left input.new) (K.written out.old) (K.written out.new) (IsStopped task (S.left input.new))) }

    // A failed read or write is never passed over.
    ensures no_read_failed { (result.code ≡ READ_FAULT → ⊥) → (result.code ≡ WRITE_FAULT → ⊥) → S.faults input.new ≡ S.faults input.old }
    ensures no_write_failed { (result.code ≡ WRITE_FAULT → ⊥) → K.faults out.new ≡ K.faults out.old }

    // An input without a fault is never refused: where no device failed and memory sufficed, all its text is written.
    ensures complete { IfAsked words.now.items (λ task. (b : List ℕ) → S.left input.old ≡ Some b → task.wrong b ≡ None →
        (Rose (S.faults input.old) (S.faults input.new) → ⊥) → (Rose (K.faults out.old) (K.faults out.new) → ⊥) → (result.code ≡ NO_MEMORY → ⊥) →
        (result.code ≡ ENDED) ⊎ (result.code ≡ IN_DISORDER)) }

    // Nor is it told to be in disorder where memory sufficed for each command and all streams ended in order.
    ensures complete_in_order { IfAsked words.now.items (λ task. (b text : List ℕ) → S.left input.old ≡ Some b → task.wrong b ≡ None → task.ended b [] ≡ true →
        K.written out.old ≡ Some text → K.written out.new ≡ Some (text ++ task.whole b []) →
        (Rose (S.faults input.old) (S.faults input.new) → ⊥) → (Rose (K.faults out.old) (K.faults out.new) → ⊥) → (result.code ≡ NO_MEMORY → ⊥) →
        result.code ≡ ENDED) }

    // The same where all streams ended in order by every reading of what was written.
    ensures complete_by_every_reading { IfAsked words.now.items (λ task. (b : List ℕ) → S.left input.old ≡ Some b → task.wrong b ≡ None →
        ((refused : List ℕ) → Wrote (task.whole b refused) (K.written out.old) (K.written out.new) → task.ended b refused ≡ true) →
        (Rose (S.faults input.old) (S.faults input.new) → ⊥) → (Rose (K.faults out.old) (K.faults out.new) → ⊥) → (result.code ≡ NO_MEMORY → ⊥) →
        result.code ≡ ENDED) }
{
    match read_words(words) {
        None => Status { code: USAGE },
        Some(order) => status_of(carry_out(alloc, &order, input, out)),
    }
}
