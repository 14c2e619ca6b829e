// Worked examples.
ghost use Rattle.std.specs.Prelude.{◌≡◌, [], ◌∷◌};
ghost use Rattle.hk_spec_made.specs.Input.{high_parts, words_before, played, withdraw_bytes};

/// The first draws from the seed 1, and a print with its flipped bit.
#[tactic(auto, unfolding(crate::specs::Input::high_parts))]
pub fn make_examples()
    ensures draws { high_parts 1 2 ≡ 33676 ∷ 11517 ∷ [] }
    ensures words { words_before 8 ≡ 10800 }
    ensures flipped { played 2 5 31 ≡ record { word = 2147483653; mask = 2147483649 } }
    ensures plain { played 0 5 31 ≡ record { word = 5; mask = 0 } }
    ensures withdrawn { withdraw_bytes 3 ≡ 5 ∷ 0 ∷ 0 ∷ 0 ∷ 4 ∷ 0 ∷ 0 ∷ 0 ∷ 103 ∷ [] }
{}
