// Where a station's bytes come from.
ghost use Rattle.std.specs.Prelude.{◌≡◌, ◌≤◌, ◌<◌, List, ℕ, Option, length, take};
ghost use Rattle.hk_base.specs.Devices.{Rose, Took, IsNothing};
ghost use Rattle.hk_outside.specs.Links.{IfCame, UnlessCame, OnLast, OnBroken, UnlessBroken};

/// What a read of a link gave.
#[derive(Clone, Copy, Debug, PartialEq, Eq)]
pub enum LinkGot {
    Bytes(usize),
    End,
    NotYet,
    Failed,
}

/// What gives a station's bytes in order, and may have none yet: a socket, a list in memory. It counts the reads that failed.
pub trait Link {
    /// The bytes that are left, where the object tells them.
    ghost left: { Self → Option (List ℕ) };

    /// How often reading has failed.
    ghost faults: { Self → ℕ };

    /// Puts the next bytes into the front of `into`. `End` says that nothing is left, and `NotYet` and `Failed` take nothing.
    fn read(&mut self, into: &mut [u8]) -> LinkGot
        requires { 0 < length into.old }
        ensures some { IfCame result (λ n. 1 ≤ n) }
        ensures room { IfCame result (λ n. n ≤ length into.old) }
        ensures next { IfCame result (λ n. Took (take n into.new) (left self.old) (left self.new)) }

        ensures end { OnLast result (IsNothing (left self.old)) }
        ensures stays { UnlessCame result (left self.new ≡ left self.old) }

        ensures cause { OnBroken result (Rose (faults self.old) (faults self.new)) }
        ensures counts_failures { UnlessBroken result (faults self.new ≡ faults self.old) };
}
