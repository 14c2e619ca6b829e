// Edits that are staged, or refused with their reason.
ghost use Rattle.std.specs.Prelude.{◌≡◌, List, ℕ, length, option_map};
ghost use Rattle.hk_spec_streams.specs.Pieces.{first_that_holds};
ghost use Rattle.hk_spec_runs.specs.OperatorState.{OperatorState, present, refusals, with_edit, added_song};
ghost use Rattle.hk_spec_settings.specs.Refusals.{add_refusals};
ghost use Rattle.hk_spec_settings.specs.Settings.{Rules};
ghost use Rattle.hk_spec_streams.specs.Operator.{Withdraw};
ghost use Rattle.hk_spec_matching.specs.Catalogue as edits;
ghost use Rattle.hk_catalogue.specs.Refusals.{reason_of};
ghost use Rattle.hk_catalogue.specs.Shelf.{IsChange, refusal_of, with_staged};
ghost use Rattle.hk_operator.specs.WordBuffer.{KeepsWords};
ghost use Rattle.hk_operator.specs.Sound.{IsFixed};
ghost use Rattle.hk_operator.specs.OnShelf.{IsOnShelf, IsDecided, StaysPublished};

use crate::word_buffer::WordBuffer;
use hk_base::{NoMemory, Reason, What};
use hk_catalogue::{Edit, Refused, Shelf, StageFault};
use hk_table::SongBlock;
use std::alloc::Global;

// A refusal without its numbers.
fn reason_of(refused: Refused) -> Reason
    ensures { result ≡ reason_of refused }
{
    match refused {
        Refused::Duplicate(_) => Reason::Duplicate,
        Refused::Short(_) => Reason::Short,
        Refused::Unknown(_) => Reason::Unknown,
        Refused::SongsFull(_) => Reason::SongsFull,
        Refused::PositionsFull(_, _) => Reason::PositionsFull,
        Refused::VersionsFull(_) => Reason::VersionsFull,
    }
}

// Stages an edit that is no Seal.
fn stage<S: Shelf>(edit: Edit, shelf: &mut S) -> What
    requires change { IsChange edit }
    ensures decided { IsDecided (option_map reason_of (refusal_of (S.shelf shelf.old) edit)) result
        (S.shelf shelf.new ≡ S.shelf shelf.old) (S.shelf shelf.new ≡ with_staged (S.shelf shelf.old) edit) }
    ensures published { StaysPublished (S.shelf shelf.old) (S.shelf shelf.new) }
{
    match shelf.stage(edit) {
        Ok(()) => What::Done,
        Err(StageFault::Refused(refused)) => What::Refused(reason_of(refused)),
        Err(StageFault::NoMemory) => What::Refused(Reason::NoMemory),
    }
}

/// Stages a song of these words, or tells why it can't be.
pub fn add<S: Shelf>(alloc: Global, id: u32, words: &WordBuffer, shelf: &mut S) -> What
    ensures decided { (rules : Rules) (state : OperatorState) (all : List ℕ) → IsFixed rules → IsOnShelf rules (S.shelf shelf.old) state
        → KeepsWords words.now all → words.now.room ≡ rules.limits.positions
        → IsDecided (first_that_holds (add_refusals rules (present rules state) id (length all))) result
        (IsOnShelf rules (S.shelf shelf.new) state) (IsOnShelf rules (S.shelf shelf.new) (with_edit rules state (edits.Add id (added_song rules all)))) }
    ensures published { StaysPublished (S.shelf shelf.old) (S.shelf shelf.new) }
{
    if let Err(refused) = shelf.check_add(id, words.count()) {
        return What::Refused(reason_of(refused));
    }
    match words.copied(alloc) {
        Ok(words) => stage(Edit::Add(SongBlock::new(id, words)), shelf),
        Err(NoMemory) => What::Refused(Reason::NoMemory),
    }
}

/// Stages that the song with this id goes, or tells that it isn't there.
pub fn withdraw<S: Shelf>(id: u32, shelf: &mut S) -> What
    ensures decided { (rules : Rules) (state : OperatorState) → IsFixed rules → IsOnShelf rules (S.shelf shelf.old) state
        → IsDecided (first_that_holds (refusals rules state (Withdraw id))) result
        (IsOnShelf rules (S.shelf shelf.new) state) (IsOnShelf rules (S.shelf shelf.new) (with_edit rules state (edits.Withdraw id))) }
    ensures published { StaysPublished (S.shelf shelf.old) (S.shelf shelf.new) }
{
    stage(Edit::Withdraw(id), shelf)
}
