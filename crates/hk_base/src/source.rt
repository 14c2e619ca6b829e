// Where bytes come from.
ghost use Rattle.std.specs.Prelude.{◌≡◌, ◌≤◌, ◌<◌, List, ℕ, Option, length, take, drop};
ghost use Rattle.hk_base.specs.Devices.{Rose, IfBytes, OnEnd, OnNothing, OnFailed, OnNoFailure, Took, IsNothing};

use crate::Got;

/// What gives bytes in order: standard input, a file, a list in memory. It counts the reads that failed.
pub trait Source {
    /// The bytes that are left, where the object tells them.
    ghost left: { Self → Option (List ℕ) };

    /// How often reading has failed.
    ghost faults: { Self → ℕ };

    /// Puts the next bytes into the front of `into`, and leaves what lies behind them. `End` says that nothing is left;
    /// it and `Failed` take nothing and leave `into` as it was.
    fn read(&mut self, into: &mut [u8]) -> Got
        requires { 0 < length into.old }
        ensures some { IfBytes result (λ n. 1 ≤ n) }
        ensures room { IfBytes result (λ n. n ≤ length into.old) }
        ensures next { IfBytes result (λ n. Took (take n into.new) (left self.old) (left self.new)) }

        ensures rest_stays { IfBytes result (λ n. drop n into.new ≡ drop n into.old) }

        ensures end { OnEnd result (IsNothing (left self.old)) }
        ensures nothing_taken { OnNothing result (left self.new ≡ left self.old) }
        ensures nothing_put { OnNothing result (into.new ≡ into.old) }

        ensures cause { OnFailed result (Rose (faults self.old) (faults self.new)) }
        ensures counts_failures { OnNoFailure result (faults self.new ≡ faults self.old) };
}
