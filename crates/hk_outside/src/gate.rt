// What tells which links have bytes.
ghost use Rattle.std.specs.Prelude.{◌≡◌, ◌<◌, ℕ, OnOk, OnErr};
ghost use Rattle.hk_base.specs.Devices.{Rose};
ghost use Rattle.hk_outside.specs.Gates.{KeepsSet};

use crate::Link;
use hk_base::Failed;
use std::sync::Wait;

/// What watches links and waits until some may be read. It counts its faults.
pub trait Gate {
    type Link: Link;

    /// How often a call has failed.
    ghost faults: { Self → ℕ };

    /// Watches the link of a seat. What is left in the link stays.
    fn watch(&mut self, seat: u8, link: &mut Self::Link) -> Result<(), Failed>
        requires { seat < 64 }
        ensures link_left { Self.Link.left link.new ≡ Self.Link.left link.old }
        ensures link_faults { Self.Link.faults link.new ≡ Self.Link.faults link.old }
        ensures cause { OnErr result (Rose (faults self.old) (faults self.new)) }
        ensures counts_failures { OnOk result (faults self.new ≡ faults self.old) };

    /// Waits, and sets the places of seats that may be read. Which ones is free, and none is cleared.
    fn wait<R: Wait>(&mut self, rt: &R, ready: &mut [bool; 64]) -> Result<(), Failed>
        ensures none_cleared { KeepsSet ready.old ready.new }
        ensures cause { OnErr result (Rose (faults self.old) (faults self.new)) }
        ensures counts_failures { OnOk result (faults self.new ≡ faults self.old) };
}
