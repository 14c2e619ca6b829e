// The wire of an operator's stream.
ghost use Rattle.std.specs.Prelude.{◌≡◌, ◌≤◌, ◌++◌, ℕ, List, [], ◌∷◌, length, Some, None};
ghost use Rattle.std.specs.Result.{result_err};
ghost use Rattle.hk_base.specs.declared.plain.WireFault.{WireFault};
ghost use Rattle.hk_spec_streams.specs.Operator.{operator_wrong};
ghost use Rattle.hk_wire.specs.Held.{count_of};
ghost use Rattle.hk_wire.specs.Kept.{bytes_taken, fault_kept};

use crate::item::OpItem;
use crate::reader::OpReader;
use hk_base::WireFault;
use hk_wire::Passage;

/// An operator's stream as far as it was taken. It keeps its place, its last command's first and last bytes and its
/// fault, and no history.
#[derive(Debug, Drop)]
pub struct OpWire {
    passage: Passage,
    reader: OpReader,
    ghost begun: { fault_kept passage ≡ None → count_of reader.packet ≤ bytes_taken passage },
}

impl OpWire {
    ghost use Rattle.hk_operator_wire.specs.Taken.{HasTaken, Pushes, limit_of, fault_met};
    ghost use Rattle.hk_operator_wire.specs.Items.{op_item_at, IsPossible};

    /// A wire that has taken nothing, and takes at most `limit` bytes.
    pub fn new(limit: u64) -> OpWire
        ensures nothing_taken { HasTaken result [] }
        ensures limit { limit_of result ≡ limit }
    {
        OpWire {
            passage: Passage::new(limit),
            reader: OpReader::new(),
        }
    }

    /// Takes the stream's next byte, and answers with what it brings; neither `Complete` nor a lone `Form`. After a fault each
    /// push answers that fault and changes nothing.
    pub fn push(&mut self, byte: u8) -> OpItem
        ensures { Pushes self.old byte self.new result }
    {
        self.next_item(byte)
    }

    // The same, clause by clause.
    fn next_item(&mut self, byte: u8) -> OpItem
        ensures item { (text : List ℕ) → HasTaken self.old text → result ≡ op_item_at (limit_of self.old) (text ++ byte ∷ []) }
        ensures possible { (text : List ℕ) → HasTaken self.old text → IsPossible result }
        ensures taken { (text : List ℕ) → HasTaken self.old text → HasTaken self.new (text ++ byte ∷ []) }
        ensures limit_stays { limit_of self.new ≡ limit_of self.old }
        ensures same_fault { (fault : WireFault) → fault_met self.old ≡ Some fault → result ≡ OpItem.Fault fault }
        ensures fault_changes_nothing { (fault : WireFault) → fault_met self.old ≡ Some fault → self.new ≡ self.old }
    {
        let place = match self.passage.next_place() {
            Ok(place) => place,
            Err(fault) => return OpItem::Fault(fault),
        };
        match self.reader.take(place, byte) {
            Ok(item) => {
                self.passage.advance();
                item
            }
            Err(fault) => {
                self.passage.fail(fault);
                OpItem::Fault(fault)
            }
        }
    }

    /// Whether the stream may end here: Ok where no byte came or a command ended, and else the fault that was met, or
    /// Cut with the number of bytes. Changes nothing.
    pub fn finish(&mut self) -> Result<(), WireFault>
        ensures outcome { (text : List ℕ) → HasTaken self.old text → result_err result ≡ operator_wrong (limit_of self.old) text }
        ensures changes_nothing { self.new ≡ self.old }
    {
        let may_end = self.reader.may_end(self.passage.taken());
        self.passage.finish(may_end)
    }
}
