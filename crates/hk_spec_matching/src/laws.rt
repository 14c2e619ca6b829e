// Worked examples.
ghost use Rattle.std.specs.Prelude.{◌≡◌, [], ◌∷◌, ◌++◌, replicate};
ghost use Rattle.hk_spec_matching.specs.Examples.{SMALL, TWICE, CROWDED, song};
ghost use Rattle.hk_spec_matching.specs.Catalogue.{Song, Limits, Songs, Add, Withdraw, version};
ghost use Rattle.hk_spec_matching.specs.Matching.{matches, MOST_ERRORS};
ghost use Rattle.hk_spec_matching.specs.Buckets.{bucket_bits, bucket_of};
ghost use Rattle.hk_spec_matching.specs.Cost.{subsets, cost};

/// Blocks of two prints against songs, with at most three errors.
#[tactic(auto, unfolding(crate::specs::Matching::matches, crate::specs::Matching::match_at, crate::specs::Matching::matches_of_song, hk_spec_sound::specs::Windows::windows, std::specs::Prelude::count_ones))]
pub fn match_examples()
    // The second print hits at both starts.
    ensures each_start { matches (record { prints = record { word = 1; mask = 0 } ∷ record { word = 0; mask = 0 } ∷ [] }) ((7, song (0 ∷ 0 ∷ 0 ∷ [])) ∷ [])
        ≡ record { id = 7; start = 0; errors = 1 } ∷ record { id = 7; start = 1; errors = 1 } ∷ [] }
    // No print hits, though few bits differ.
    ensures no_hit { matches (record { prints = record { word = 1; mask = 0 } ∷ record { word = 1; mask = 0 } ∷ [] }) ((7, song (0 ∷ 0 ∷ [])) ∷ []) ≡ [] }
    // The bit that differs is in the mask.
    ensures masked { matches (record { prints = record { word = 1; mask = 1 } ∷ record { word = 1; mask = 0 } ∷ [] }) ((7, song (0 ∷ 0 ∷ [])) ∷ [])
        ≡ record { id = 7; start = 0; errors = 2 } ∷ [] }
    // The mask doesn't make the errors fewer: as many as the limit, and one more.
    ensures at_limit { matches (record { prints = record { word = 0; mask = 0 } ∷ record { word = 7; mask = 0 } ∷ [] }) ((7, song (0 ∷ 0 ∷ [])) ∷ [])
        ≡ record { id = 7; start = 0; errors = 3 } ∷ [] }
    ensures over_limit { matches (record { prints = record { word = 0; mask = 0 } ∷ record { word = 15; mask = 0 } ∷ [] }) ((7, song (0 ∷ 0 ∷ [])) ∷ []) ≡ [] }
    ensures two_songs { matches (record { prints = record { word = 0; mask = 0 } ∷ [] }) ((2, song (0 ∷ [])) ∷ (7, song (1 ∷ 0 ∷ [])) ∷ [])
        ≡ record { id = 2; start = 0; errors = 0 } ∷ record { id = 7; start = 1; errors = 0 } ∷ [] }
{}

/// Subsets of masks, and buckets.
#[tactic(auto, unfolding(crate::specs::Cost::subsets, crate::specs::Buckets::bucket_bits, crate::specs::Buckets::bucket_of))]
pub fn table_examples()
    ensures subsets { subsets (record { mask = 5 }) ≡ 0 ∷ 1 ∷ 4 ∷ 5 ∷ [] }
    ensures none { subsets (record { mask = 0 }) ≡ 0 ∷ [] }
    ensures least { bucket_bits 256 ≡ 8 }
    ensures default { bucket_bits 1048576 ≡ 20 }
    ensures greatest { bucket_bits 16777216 ≡ 20 }
    ensures zero { bucket_of 256 0 ≡ 0 }
    ensures one { bucket_of 256 1 ≡ 158 }
    ensures two { bucket_of 256 2 ≡ 60 }
{}

/// Versions of a journal, with two songs and three words at most: a song, the same id again, a song without room, a withdrawal.
#[tactic(auto, unfolding(crate::specs::Catalogue::version, crate::specs::Matching::matches, crate::specs::Matching::match_at, crate::specs::Matching::matches_of_song, hk_spec_sound::specs::Windows::windows, std::specs::Prelude::count_ones))]
pub fn version_examples()
    ensures start { version SMALL TWICE 0 ≡ [] }
    ensures first_stays { version SMALL TWICE 1 ≡ (7, song (5 ∷ [])) ∷ [] }
    ensures no_room { version SMALL CROWDED 2 ≡ (3, song (1 ∷ 2 ∷ [])) ∷ (7, song (5 ∷ [])) ∷ [] }
    ensures withdrawn { version SMALL CROWDED 3 ≡ (3, song (1 ∷ 2 ∷ [])) ∷ [] }
    ensures searched { matches (record { prints = record { word = 2; mask = 0 } ∷ [] }) (version SMALL CROWDED 2) ≡ record { id = 3; start = 1; errors = 0 } ∷ [] }
{}

/// What a look costs: words 0 and 1 are looked up, and each is at one position.
#[tactic(auto, unfolding(crate::specs::Cost::subsets, crate::specs::Cost::cost, crate::specs::Buckets::bucket_bits, crate::specs::Buckets::bucket_of))]
pub fn cost_example()
    ensures two { cost 256 (record { prints = record { word = 0; mask = 1 } ∷ [] }) ((7, song (0 ∷ 1 ∷ 2 ∷ [])) ∷ []) ≡ 2 }
    ensures one { cost 256 (record { prints = record { word = 0; mask = 0 } ∷ [] }) ((7, song (0 ∷ 1 ∷ 2 ∷ [])) ∷ []) ≡ 1 }
    ensures nothing { cost 256 (record { prints = record { word = 3; mask = 0 } ∷ [] }) ((7, song (0 ∷ 1 ∷ 2 ∷ [])) ∷ []) ≡ 0 }
{}

/// The limit of errors at the block's own size: 193 words with eleven bits and 62 with twelve are 2867 errors, and one more is too many.
pub fn full_size_examples()
    ensures at_limit { matches (record { prints = record { word = 0; mask = 0 } ∷ replicate 62 (record { word = 4095; mask = 0 }) ++ replicate 193 (record { word = 2047; mask = 0 }) }) ((7, record { words = replicate 256 0; limit = MOST_ERRORS }) ∷ [])
        ≡ record { id = 7; start = 0; errors = 2867 } ∷ [] }
    ensures over_limit { matches (record { prints = record { word = 0; mask = 0 } ∷ replicate 63 (record { word = 4095; mask = 0 }) ++ replicate 192 (record { word = 2047; mask = 0 }) }) ((7, record { words = replicate 256 0; limit = MOST_ERRORS }) ∷ []) ≡ [] }
{}
