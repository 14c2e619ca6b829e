// A looker in memory, for tests.
ghost use Rattle.std.specs.Prelude.{[], Some, None, true};

use crate::{BlockRing, Looker, Print, Scratch, Steps};
use std::sync::ledger::Ledger;

/// A looker over no songs, at a version that stays. It keeps the last block that was looked up.
#[derive(Drop)]
pub struct NoSongs {
    /// The version that each look answers.
    pub version: u32,
    /// The last block.
    pub block: [Print; 256],
}

impl Looker for NoSongs {
    ghost looker = { λ s. record {
      at = s.version;
      past = λ v. Some [];
      songs = [];
      room = 0;
      shown = None;
      shelf = None;
      still = true;
      home = None;
    } };

    #[tactic(auto, unfolding(hk_spec_matching::specs::Matching::matches))]
    fn look<L: Ledger>(
        &mut self,
        ring: &BlockRing,
        scratch: &mut Scratch,
        steps: &mut Steps<L>,
    ) -> u32 {
        scratch.clear();
        self.block = ring.prints();
        self.version
    }

    fn now(&mut self) -> u32 {
        self.version
    }
}
