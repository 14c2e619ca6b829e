// What a desk tells.
ghost use Rattle.std.specs.Prelude.{◌≡◌, ◌≤◌, length};
ghost use mathlib.Core.List.{IsPrefix};
ghost use Rattle.hk_publish.specs.Known.{home_of};

use crate::visitor::Visitor;
use hk_journal::{Reached, compare};
use std::marker::Model;

/// What was published when a desk told it, for a reading to learn.
#[derive(Drop)]
pub struct Note {
    reached: Reached,
    version: u32,
}

impl Model for Note {
    ghost use Rattle.std.specs.Prelude.{◌≡◌, length};
    ghost use Rattle.hk_publish.specs.Known.{home_of};
    ghost use Rattle.hk_publish.specs.NoteView.{NoteView};

    ghost Value = { NoteView };

    ghost view = { λ n. record { home = home_of n.reached.book; journal = n.reached.journal } };

    ghost invariant = { λ n. n.version ≡ length n.reached.journal };
}

impl Note {
    pub(crate) fn over(reached: Reached, version: u32) -> Note
        requires version { version ≡ length reached.journal }
        ensures home { result.home ≡ home_of reached.book }
        ensures journal { result.journal ≡ reached.journal }
    {
        Note { reached, version }
    }

    /// How many versions were published.
    pub fn version(&self) -> u32
        ensures { result ≡ length self.now.journal }
    {
        self.version
    }

    // It begins what a visitor of the same start has seen, where that is no shorter.
    pub(crate) fn begins(&self, visitor: &Visitor)
        requires home { self.now.home ≡ visitor.now.home }
        requires shorter { length self.now.journal ≤ length visitor.now.seen }
        ensures { IsPrefix self.now.journal visitor.now.seen }
    {
        compare(&self.reached, visitor.reached());
    }
}
