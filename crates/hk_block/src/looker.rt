// What looks a block up in a catalogue.
ghost use Rattle.std.specs.Prelude.{◌≡◌, ◌≤◌, ◌+◌, [], ◌∷◌, IsTrue};
ghost use Rattle.hk_block.specs.Ring.{is_full};
ghost use Rattle.hk_block.specs.Looker.{LookerView, Looks, matches_in, most_steps};

use crate::{BlockRing, Scratch, Steps};
use std::sync::ledger::Ledger;

/// Songs in which a block can be looked up, at a version that never falls.
pub trait Looker {
    /// What it is.
    ghost looker: { Self → LookerView };

    /// Looks the last block up: the answer is the version, and the scratch then holds its matches in the songs of that
    /// version, by id and then by start. It ticks no more often than the block's words meet nodes and windows.
    fn look<L: Ledger>(
        &mut self,
        ring: &BlockRing,
        scratch: &mut Scratch,
        steps: &mut Steps<L>,
    ) -> u32
        requires full { IsTrue (is_full ring.now) }
        requires space { (looker self.old).room ≤ scratch.old.room }
        ensures answer { result ≡ (looker self.new).at }
        ensures list { scratch.new.matches ≡ matches_in ring.now (looker self.new).songs }
        ensures scratch_room { scratch.new.room ≡ scratch.old.room }
        ensures looks { Looks (result ∷ []) (looker self.old) (looker self.new) }
        ensures bound { steps.new ≤ steps.old + most_steps ring.now (looker self.new) };

    /// The version of a new look without a block.
    fn now(&mut self) -> u32
        ensures answer { result ≡ (looker self.new).at }
        ensures looks { Looks (result ∷ []) (looker self.old) (looker self.new) };
}
