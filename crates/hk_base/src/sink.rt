// Where bytes go.
ghost use Rattle.std.specs.Prelude.{◌≡◌, ◌≤◌, ◌<◌, List, ℕ, Option, length, take, IfOk, OnOk, OnErr};
ghost use Rattle.hk_base.specs.Devices.{Rose, Wrote};

use crate::Failed;

/// What takes bytes: standard output, a file, a list in memory. It counts the writes that failed.
pub trait Sink {
    /// All that was written, where the object tells it.
    ghost written: { Self → Option (List ℕ) };

    /// How often writing has failed.
    ghost faults: { Self → ℕ };

    /// Appends a front of the piece, and answers how many bytes that is. `Failed` appends nothing.
    fn write(&mut self, piece: &[u8]) -> Result<usize, Failed>
        requires { 0 < length piece.now }
        ensures some { IfOk result (λ n. 1 ≤ n) }
        ensures all { IfOk result (λ n. n ≤ length piece.now) }
        ensures appended { IfOk result (λ n. Wrote (take n piece.now) (written self.old) (written self.new)) }

        ensures failed_stays { OnErr result (written self.new ≡ written self.old) }
        ensures cause { OnErr result (Rose (faults self.old) (faults self.new)) }
        ensures counts_failures { OnOk result (faults self.new ≡ faults self.old) };
}
