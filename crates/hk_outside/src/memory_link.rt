// Bytes in memory as a link.
ghost use Rattle.std.specs.Prelude.{◌≡◌, ◌≢◌, ◌≤◌, ◌<◌, ◌⊎◌, Some, Option, [], drop, take, length, IsTrue, false};
ghost use Rattle.hk_base.specs.Devices.{Rose, Took, IsNothing};
ghost use Rattle.hk_base.specs.Memory.{bytes_left, read_fails, bytes_given};
ghost use Rattle.hk_outside.specs.Links.{IfCame, UnlessCame, OnLast, OnNotYet, OnBroken, UnlessBroken, IfRead};
ghost use Rattle.hk_outside.specs.Memory.{LAST_WAIT, HasWaited, HasRead, IsNewLink};

use crate::{Link, LinkGot};
use hk_base::{Flag, Got, MemorySource, Source};
use std::thread;

// The number, from 1, of the read of a held link that fails.
const HOLD_LIMIT: u64 = 10_000_000;

/// Bytes in memory as a link, that may be held by a flag. It tells what is left of them.
#[derive(Drop)]
pub struct MemoryLink {
    source: MemorySource,
    hold: Option<Flag>,
    waited: u64,
    faults: u64,
}

impl MemoryLink {
    /// Gives these bytes as [`MemorySource`] does, once the flag of `hold` is raised. Before that each read answers `NotYet`,
    /// and lets other threads go first; the 10,000,000th such read fails.
    pub fn new(
        bytes: Vec<u8>,
        cuts: Vec<usize>,
        failing: Vec<u64>,
        hold: Option<Flag>,
    ) -> MemoryLink
        ensures new { IsNewLink bytes.items cuts.items failing.items result }
        ensures hold { result.hold ≡ hold }
    {
        MemoryLink {
            source: MemorySource::new(bytes, cuts, failing),
            hold,
            waited: 0,
            faults: 0,
        }
    }
}

impl Link for MemoryLink {
    ghost left = { λ m. Some (bytes_left m.source) };

    ghost faults = { λ m. m.faults };

    fn read(&mut self, into: &mut [u8]) -> LinkGot
        requires { 0 < length into.old }
        ensures some { IfCame result (λ n. 1 ≤ n) }
        ensures room { IfCame result (λ n. n ≤ length into.old) }
        ensures next { IfCame result (λ n. Took (take n into.new) (Some (bytes_left self.old.source)) (Some (bytes_left self.new.source))) }

        ensures end { OnLast result (IsNothing (Some (bytes_left self.old.source))) }
        ensures stays { UnlessCame result (Some (bytes_left self.new.source) ≡ Some (bytes_left self.old.source)) }

        ensures cause { OnBroken result (Rose self.old.faults self.new.faults) }
        ensures counts_failures { UnlessBroken result (self.new.faults ≡ self.old.faults) }

        // A link that is held waits; one that isn't gives its bytes as a source in memory does.
        ensures waits { OnNotYet result (HasWaited self.old self.new × (self.new.waited ≢ LAST_WAIT)) }
        ensures fails { OnBroken result ((HasWaited self.old self.new × (self.new.waited ≡ LAST_WAIT)) ⊎ (HasRead self.old self.new × IsTrue (read_fails self.old.source))) }
        ensures reads { IfRead result (HasRead self.old self.new × (read_fails self.old.source ≡ false)) }
        ensures count { IfCame result (λ n. n ≡ bytes_given self.old.source (length into.old)) }
        ensures rest_stays { IfCame result (λ n. drop n into.new ≡ drop n into.old) }
        ensures nothing_put { UnlessCame result (into.new ≡ into.old) }
    {
        let is_held = match &self.hold {
            Some(flag) => !flag.is_raised(),
            None => false,
        };
        if is_held {
            thread::yield_now();
            self.waited = self.waited.saturating_add(1);
            if self.waited != HOLD_LIMIT {
                return LinkGot::NotYet;
            }
            self.faults = self.faults.saturating_add(1);
            return LinkGot::Failed;
        }
        match self.source.read(into) {
            Got::Bytes(n) => LinkGot::Bytes(n),
            Got::End => LinkGot::End,
            Got::Failed => {
                self.faults = self.faults.saturating_add(1);
                LinkGot::Failed
            }
        }
    }
}
