// What the definitions tell, and an example.
ghost use Rattle.std.specs.Prelude.{◌≡◌, ℕ, [], ◌∷◌};
ghost use mathlib.Core.List.{IsPrefix};
ghost use Rattle.hk_spec_matching.specs.Catalogue.{Journal, Withdraw};
ghost use Rattle.hk_block.specs.Looker.{Change, Seal};
ghost use Rattle.hk_publish.specs.Journals.{list_of};
ghost use Rattle.hk_publish.specs.Known.{Known, IsLook, HasLearned, looker_of};
ghost use Rattle.hk_publish.specs.Holding.{Holding, shelf_of};

/// Who has one home has the same limits: two readings, and a desk and a reading.
pub fn homes_tell_limits()
    ensures readings { (a b : Known) → (looker_of a).home ≡ (looker_of b).home → (a.limits ≡ b.limits) × (a.home ≡ b.home) }
    ensures desk { (desk : Holding) (reading : Known) → (shelf_of desk).home ≡ (looker_of reading).home
        → (desk.limits ≡ reading.limits) × (desk.home ≡ reading.home) }
{}

/// A published list tells its batches: no two journals have the same list.
pub fn lists_tell_journals()
    ensures { (a b : Journal) → list_of a ≡ list_of b → a ≡ b }
{}

/// Each batch ends with a Seal, also one of no edit.
pub fn list_examples()
    ensures nothing { list_of [] ≡ [] }
    ensures no_edit { list_of ([] ∷ []) ≡ Seal ∷ [] }
    ensures two_batches { list_of ((Withdraw 7 ∷ Withdraw 8 ∷ []) ∷ (Withdraw 9 ∷ []) ∷ [])
        ≡ Change (Withdraw 7) ∷ Change (Withdraw 8) ∷ Seal ∷ Change (Withdraw 9) ∷ Seal ∷ [] }
{}

/// A look after a note was learned finds a list that begins with it.
pub fn notes_stay()
    ensures { (old learned new : Known) (note : Journal) (answer : ℕ) → HasLearned old note learned → IsLook learned answer new → IsPrefix note new.seen }
{}
