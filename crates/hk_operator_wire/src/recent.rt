// The last four bytes of a command.
ghost use Rattle.std.specs.Prelude.{◌≡◌, ◌≤◌, ◌++◌, ℕ, List, [], ◌∷◌, length};

/// The last four bytes that came, with 0 before the first.
#[derive(Clone, Copy, Debug)]
pub struct LastFour {
    bytes: [u8; 4],
}

impl LastFour {
    ghost use Rattle.hk_operator_wire.specs.Heads.{HasLastFour};
    ghost use Rattle.hk_operator_wire.specs.Items.{last_number};

    pub fn new() -> LastFour
        ensures { HasLastFour result [] }
    {
        LastFour { bytes: [0; 4] }
    }

    /// Takes the next byte, which goes on with the bytes that came, or begins new ones.
    pub fn push(&mut self, byte: u8)
        ensures goes_on { (bytes : List ℕ) → HasLastFour self.old bytes → HasLastFour self.new (bytes ++ byte ∷ []) }
        ensures begins { (bytes : List ℕ) → HasLastFour self.old bytes → HasLastFour self.new (byte ∷ []) }
    {
        let [_, second, third, fourth] = self.bytes;
        self.bytes = [second, third, fourth, byte];
    }

    /// They as a number.
    pub fn number(&self) -> u32
        ensures { (bytes : List ℕ) → HasLastFour self.now bytes → 4 ≤ length bytes → result ≡ last_number bytes }
    {
        u32::from_be_bytes(self.bytes)
    }
}
