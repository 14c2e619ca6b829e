// What an operator's bytes bring, as long as no fault is met.
ghost use Rattle.std.specs.Prelude.{◌≡◌, ◌≤◌, ◌<◌, ◌+◌, ◌^◌, ◌-◌, ◌==◌, ◌||◌, ◌++◌, ℕ, List, [], ◌∷◌, length, slice_index, IfOk, OnOk};
ghost use Rattle.std.specs.Result.{result_err};
ghost use Rattle.hk_spec_streams.specs.Operator.{operator_grammar, operator_met};
ghost use Rattle.hk_spec_streams.specs.Grammar.{ends_at_start};
ghost use Rattle.hk_wire.specs.Held.{length_size, IsLast};
ghost use Rattle.hk_wire.specs.declared.packet.LengthSize.TheVariants.{Four};
ghost use Rattle.hk_operator_wire.specs.Heads.{hello_outcome};

use crate::head::{CommandHead, brought_by, head_fault, hello_allows};
use crate::item::OpItem;
use crate::recent::LastFour;
use hk_base::WireFault;
use hk_wire::{LastPacket, LengthSize};

const HELLO_SIZE: u64 = 4;

/// The last command's first bytes, and its last four.
#[derive(Debug, Drop)]
pub struct OpReader {
    packet: LastPacket,
    recent: LastFour,
    ghost long_lengths: { length_size packet ≡ Four },
}

impl OpReader {
    ghost use Rattle.hk_operator_wire.specs.Taken.{StandsAfter, command_count};
    ghost use Rattle.hk_operator_wire.specs.Items.{last_command, head_of, item_of};
    ghost use Rattle.hk_operator_wire.specs.Heads.{HasLastFour};

    pub fn new() -> OpReader
        ensures stands { StandsAfter result [] }
        ensures none { command_count result ≡ 0 }
    {
        OpReader {
            packet: LastPacket::new(LengthSize::Four),
            recent: LastFour::new(),
        }
    }

    /// Takes the byte at this place: what it brings, or the fault that it meets.
    pub fn take(&mut self, place: u64, byte: u8) -> Result<OpItem, WireFault>
        requires room { place < 2 ^ 64 - 1 }
        requires within { command_count self.old ≤ place }
        ensures fault { (limit : ℕ) (text : List ℕ) → place ≡ length text → place < limit → StandsAfter self.old text
            → result_err result ≡ operator_met limit (text ++ byte ∷ []) }
        ensures item { (text : List ℕ) → place ≡ length text → StandsAfter self.old text
            → IfOk result (λ item. item ≡ item_of (last_command (text ++ byte ∷ []))) }
        ensures stands { (text : List ℕ) → place ≡ length text → StandsAfter self.old text → OnOk result (StandsAfter self.new (text ++ byte ∷ [])) }
        ensures within { command_count self.new ≤ place + 1 }
    {
        if place < HELLO_SIZE {
            return take_hello(place, byte);
        }
        self.packet.push(byte);
        self.recent.push(byte);
        let head = self.head();
        match head_fault(place, head) {
            Some(fault) => Err(fault),
            None => Ok(self.item(head, byte)),
        }
    }

    // What the last command's last byte brings.
    fn item(&self, head: CommandHead, byte: u8) -> OpItem
        ensures { (bytes : List ℕ) → IsLast self.now.packet bytes → HasLastFour self.now.recent bytes → 0 < length bytes
            → head ≡ head_of bytes → byte ≡ slice_index bytes (length bytes - 1) → result ≡ item_of bytes }
    {
        OpItem::joined(
            brought_by(head, self.recent.number(), byte),
            self.packet.is_over(),
        )
    }

    fn head(&self) -> CommandHead
        ensures { (bytes : List ℕ) → IsLast self.now.packet bytes → result ≡ head_of bytes }
    {
        CommandHead {
            kind: self.packet.kind(),
            count: self.packet.count(),
            length: self.packet.length(),
            channels: self.packet.byte(9),
            factor: self.packet.byte(10),
        }
    }

    /// Whether the stream may end at this place: no byte came, or the last command is whole.
    pub fn may_end(&self, place: u64) -> bool
        ensures { (text : List ℕ) → place ≡ length text → StandsAfter self.now text
            → result ≡ ((length text == 0) || ends_at_start operator_grammar text) }
    {
        place == 0 || (HELLO_SIZE <= place && self.packet.is_over())
    }
}

fn take_hello(place: u64, byte: u8) -> Result<OpItem, WireFault>
    requires { place < 4 }
    ensures { result ≡ hello_outcome place byte }
{
    if hello_allows(place, byte) {
        Ok(OpItem::Nothing)
    } else {
        Err(WireFault::BadHello(place))
    }
}
