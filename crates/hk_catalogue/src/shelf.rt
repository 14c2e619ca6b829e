// Where edits are checked and staged.
ghost use Rattle.std.specs.Prelude.{◌≡◌, OnOk, OnErr};
ghost use Rattle.hk_spec_streams.specs.Pieces.{first_that_holds};
ghost use Rattle.hk_block.specs.Looker.{ShelfView};
ghost use Rattle.hk_catalogue.specs.Refusals.{lengths_of, add_tests, withdraw_tests, answered};
ghost use Rattle.hk_catalogue.specs.Shelf.{refusal_of, with_staged, IsChange, IsAnswer};

use crate::{Edit, Refused, StageFault};

/// A catalogue's edits before they are published. No call changes what is published, nor the limits.
pub trait Shelf {
    /// The songs with the staged edits, those edits, the limits, the published version with its songs, the published list
    /// where it is told, and from which start it comes, where it comes from one.
    ghost shelf: { Self → ShelfView };

    /// Whether a song of so many words may be added, and else the first reason against it: its id is there, it is short, no
    /// further song may be, or there is no room for its words.
    fn check_add(&self, id: u32, words: u64) -> Result<(), Refused>
        ensures { result ≡ answered (first_that_holds (add_tests (shelf self.now).limits (lengths_of (shelf self.now).present) id words)) };

    /// Whether the song with this id may go: whether it is there.
    fn check_withdraw(&self, id: u32) -> Result<(), Refused>
        ensures { result ≡ answered (first_that_holds (withdraw_tests (lengths_of (shelf self.now).present) id)) };

    /// Stages an edit that is no Seal. Want of memory comes only where the edit isn't refused.
    fn stage(&mut self, edit: Edit) -> Result<(), StageFault>
        requires change { IsChange edit }
        ensures answer { IsAnswer (refusal_of (shelf self.old) edit) result }
        ensures staged { OnOk result (shelf self.new ≡ with_staged (shelf self.old) edit) }
        ensures unchanged { OnErr result (shelf self.new ≡ shelf self.old) }
        ensures limits_stay { (shelf self.new).limits ≡ (shelf self.old).limits }
        ensures base_stays { (shelf self.new).base ≡ (shelf self.old).base }
        ensures journal_stays { (shelf self.new).journal ≡ (shelf self.old).journal }
        ensures home_stays { (shelf self.new).home ≡ (shelf self.old).home };
}
