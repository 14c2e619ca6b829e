// A gate in memory.
ghost use Rattle.std.specs.Prelude.{◌≡◌, ◌<◌, ◌==◌, ◌||◌, ◌↔◌, ℕ, Some, true, false, OnOk, OnErr, IsErr, IsTrue, if◌then◌else◌, slice_get, slice_set};
ghost use Rattle.hk_base.specs.Devices.{Rose};
ghost use Rattle.hk_base.specs.Memory.{bytes_left};
ghost use Rattle.hk_outside.specs.Memory.{call_fails, IsNextCall, IsNewGate};
ghost use Rattle.hk_outside.specs.Gates.{is_set, KeepsSet};

use crate::{Failing, Gate, MemoryLink};
use hk_base::Failed;
use std::sync::Wait;

/// A gate that names every watched seat, and no other, at each wait.
#[derive(Drop)]
pub struct MemoryGate {
    watched: [bool; 64],
    calls: Failing,
    faults: u64,
}

impl MemoryGate {
    /// A gate that watches no seat. Its watches and waits are counted together from 0, and those in `failing` fail.
    pub fn new(failing: Vec<u64>) -> MemoryGate
        ensures { IsNewGate failing.items result }
    {
        MemoryGate {
            watched: [false; 64],
            calls: Failing::new(failing),
            faults: 0,
        }
    }

    // Counts a call, and fails where it is to fail.
    fn call(&mut self) -> Result<(), Failed>
        ensures fails { IsErr result ↔ IsTrue (call_fails self.old.calls) }
        ensures counted { IsNextCall self.old.calls self.new.calls }
        ensures watched { self.new.watched ≡ self.old.watched }
        ensures cause { OnErr result (Rose self.old.faults self.new.faults) }
        ensures counts_failures { OnOk result (self.new.faults ≡ self.old.faults) }
    {
        if !self.calls.fails() {
            return Ok(());
        }
        self.faults = self.faults.saturating_add(1);
        Err(Failed)
    }
}

impl Gate for MemoryGate {
    type Link = MemoryLink;

    ghost faults = { λ g. g.faults };

    fn watch(&mut self, seat: u8, link: &mut MemoryLink) -> Result<(), Failed>
        requires { seat < 64 }
        ensures link { link.new ≡ link.old }
        ensures cause { OnErr result (Rose self.old.faults self.new.faults) }
        ensures counts_failures { OnOk result (self.new.faults ≡ self.old.faults) }

        // Which calls fail, and which seats are watched.
        ensures fails { IsErr result ↔ IsTrue (call_fails self.old.calls) }
        ensures counted { IsNextCall self.old.calls self.new.calls }
        ensures watched { OnOk result (self.new.watched ≡ slice_set self.old.watched seat true) }
        ensures failed_stays { OnErr result (self.new.watched ≡ self.old.watched) }
    {
        self.call()?;
        self.watched[seat as usize] = true;
        Ok(())
    }

    fn wait<R: Wait>(&mut self, rt: &R, ready: &mut [bool; 64]) -> Result<(), Failed>
        ensures none_cleared { KeepsSet ready.old ready.new }
        ensures cause { OnErr result (Rose self.old.faults self.new.faults) }
        ensures counts_failures { OnOk result (self.new.faults ≡ self.old.faults) }

        // Which calls fail, and which seats are named.
        ensures fails { IsErr result ↔ IsTrue (call_fails self.old.calls) }
        ensures counted { IsNextCall self.old.calls self.new.calls }
        ensures names { OnOk result ((k : ℕ) → is_set ready.new k ≡ (is_set ready.old k || is_set self.old.watched k)) }
        ensures names_none { OnErr result (ready.new ≡ ready.old) }
        ensures watched { self.new.watched ≡ self.old.watched }
    {
        self.call()?;
        for k in 0..64 {
            if self.watched[k] {
                ready[k] = true;
            }
        }
        Ok(())
    }
}
