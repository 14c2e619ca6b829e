// Worked examples.
ghost use Rattle.std.specs.Prelude.{◌≡◌, [], ◌∷◌, ◌++◌, codes, Some, None};
ghost use Rattle.hk_base.specs.declared.plain.Reason.TheVariants as reasons;
ghost use Rattle.hk_base.specs.declared.plain.What.TheVariants as whats;
ghost use Rattle.hk_base.specs.declared.plain.End.TheVariants as ends;
ghost use Rattle.hk_base.specs.declared.plain.WireFault.TheVariants as faults;
ghost use Rattle.hk_spec_runs.specs.OperatorState.{answer, after, new_state, at_end};
ghost use Rattle.hk_spec_runs.specs.History.{history, IsLegal, Published, Looked};
ghost use Rattle.hk_spec_streams.specs.Operator.{OpenSong, Audio, Close, Publish};
ghost use Rattle.hk_spec_runs.specs.Replay.{replay, out};
ghost use Rattle.hk_spec_runs.specs.Words.{order_of, Print};
ghost use Rattle.hk_spec_streams.specs.Examples.{prints_hello};
ghost use Rattle.hk_spec_runs.specs.Examples.{SMALL, TIGHT, MONO, SONG_3_OPEN, SONG_3_STAGED, SONGS_7, BLOCK_5, FOUND_5, OPERATOR_BYTES, STATION_BYTES, COMMANDS, answers};

/// Answers that need no catalogue.
#[tactic(auto, unfolding(crate::specs::OperatorState::answer))]
pub fn answer_examples()
    ensures no_song { answer SMALL new_state Close ≡ whats.Refused reasons.NoSongOpen }
    ensures no_audio { answer SMALL new_state (Audio []) ≡ whats.Refused reasons.NoSongOpen }
    ensures open { answer SMALL new_state (OpenSong 3 MONO) ≡ whats.Done }
    ensures first_version { answer SMALL new_state Publish ≡ whats.Published 1 }
    ensures versions_full { answer SMALL (record new_state { journal = [] ∷ [] ∷ [] }) Publish ≡ whats.Refused reasons.VersionsFull }
{}

/// Each refusal, in the order of the tests.
#[tactic(auto, unfolding(crate::specs::OperatorState::answer, crate::specs::OperatorState::after, hk_spec_matching::specs::Catalogue::version, hk_spec_sound::specs::Prints::prints_of_sound, hk_spec_sound::specs::Prints::prints_of_samples, hk_spec_sound::specs::Prints::frame_energies, hk_spec_sound::specs::Samples::samples_of, hk_spec_sound::specs::Samples::decimated, hk_spec_sound::specs::Windows::windows))]
pub fn refusal_examples()
    ensures { answers TIGHT new_state COMMANDS
        ≡ whats.Done ∷ whats.Refused reasons.Duplicate ∷ whats.Refused reasons.Short ∷ whats.Refused reasons.Unknown ∷ whats.Refused reasons.PositionsFull ∷ whats.Done
        ∷ whats.Refused reasons.SongsFull ∷ whats.Refused reasons.NoSongOpen ∷ whats.Done ∷ whats.Refused reasons.SongOpen
        ∷ whats.Done ∷ whats.Refused reasons.Short ∷ whats.Published 1 ∷ whats.Published 2 ∷ whats.Refused reasons.VersionsFull ∷ [] }
{}

/// What stands after a command for which memory was wanted: sound and a close give the open song up, and else all stays.
#[tactic(auto, unfolding(crate::specs::OperatorState::after))]
pub fn no_memory_examples()
    ensures open { after SMALL new_state (OpenSong 3 MONO) (whats.Refused reasons.NoMemory) ≡ new_state }
    ensures audio { after SMALL SONG_3_OPEN (Audio (0 ∷ 0 ∷ [])) (whats.Refused reasons.NoMemory) ≡ new_state }
    ensures close { after SMALL SONG_3_OPEN Close (whats.Refused reasons.NoMemory) ≡ new_state }
    ensures publish { after SMALL SONG_3_STAGED Publish (whats.Refused reasons.NoMemory) ≡ SONG_3_STAGED }
{}

/// An open song, and an edit that no publish followed, are dropped where the operator's stream ends.
#[tactic(auto, unfolding(crate::specs::OperatorState::after))]
pub fn dropped_examples()
    ensures song { at_end SONG_3_OPEN ≡ new_state }
    ensures edit { at_end SONG_3_STAGED ≡ new_state }
{}

/// A whole replay from bytes to text: a song is published, and the station's one block is found in it.
pub fn replay_examples()
    ensures nothing { replay SMALL (83 ∷ 0 ∷ 0 ∷ 6 ∷ [] ++ prints_hello) [] ≡ codes "T S 0 0 0 ended" ++ 10 ∷ codes "T O 0 0 ended" ++ 10 ∷ [] }
    ensures empty_catalogue { replay SMALL (83 ∷ 0 ∷ 0 ∷ 28 ∷ [] ++ STATION_BYTES) []
        ≡ codes "S 0 B 0 G 0 W 0 V 0: none" ++ 10 ∷ codes "T S 0 1 0 ended" ++ 10 ∷ codes "T O 0 0 ended" ++ 10 ∷ [] }
    ensures fence_ahead { replay SMALL (83 ∷ 0 ∷ 0 ∷ 13 ∷ [] ++ prints_hello ++ 2 ∷ 0 ∷ 4 ∷ 0 ∷ 0 ∷ 0 ∷ 1 ∷ []) []
        ≡ codes "T S 0 0 0 fence-ahead 1 0" ++ 10 ∷ codes "T O 0 0 ended" ++ 10 ∷ [] }
    ensures no_memory { replay SMALL (79 ∷ 0 ∷ 26 ∷ [] ++ OPERATOR_BYTES ++ 83 ∷ 0 ∷ 0 ∷ 28 ∷ [] ++ STATION_BYTES) (1 ∷ [])
        ≡ codes "O 1 refused no-memory" ++ 10 ∷ codes "O 2 published 1" ++ 10 ∷ codes "S 0 B 0 G 0 W 0 V 1: none" ++ 10 ∷ codes "T S 0 1 1 ended" ++ 10 ∷ codes "T O 2 1 ended" ++ 10 ∷ [] }
    ensures stopped { out SMALL (83 ∷ 0 ∷ 0 ∷ 28 ∷ [] ++ STATION_BYTES ++ 88 ∷ []) [] ≡ codes "S 0 B 0 G 0 W 0 V 0: none" ++ 10 ∷ [] }
    ensures found { replay SMALL (79 ∷ 0 ∷ 26 ∷ [] ++ OPERATOR_BYTES ++ 83 ∷ 0 ∷ 0 ∷ 28 ∷ [] ++ STATION_BYTES) []
        ≡ codes "O 1 ok" ++ 10 ∷ codes "O 2 published 1" ++ 10 ∷ codes "S 0 B 0 G 0 W 0 V 1: 7@0~0" ++ 10 ∷ codes "T S 0 1 1 ended" ++ 10 ∷ codes "T O 2 1 ended" ++ 10 ∷ [] }
{}

/// Words that are a command, and words that are none.
#[tactic(auto, unfolding(crate::specs::Words::order_of))]
pub fn word_examples()
    ensures none { order_of [] ≡ None }
    ensures zero_hop { order_of (codes "replay" ∷ codes "--hop" ∷ codes "0" ∷ []) ≡ None }
    ensures joined { order_of (codes "replay" ∷ codes "--hop=64" ∷ []) ≡ None }
    ensures twice { order_of (codes "replay" ∷ codes "--hop" ∷ codes "64" ∷ codes "--hop" ∷ codes "64" ∷ []) ≡ None }
    ensures factor { order_of (codes "print" ∷ codes "--factor" ∷ codes "3" ∷ []) ≡ None }
    ensures seed { order_of (codes "make" ∷ codes "2147483648" ∷ []) ≡ None }
    ensures print { order_of (codes "print" ∷ codes "--flips" ∷ codes "007" ∷ []) ≡ Some (Print (record { channels = 1; factor = 8; flips = 7; bytes = 1000000000000 })) }
{}

/// Two stations' looks and one publish as one history, which is legal. Station 1 looked before the publish, and station 0 after it.
#[tactic(auto, unfolding(crate::specs::History::history, hk_spec_matching::specs::Matching::matches, hk_spec_matching::specs::Matching::match_at, hk_spec_matching::specs::Matching::matches_of_song, hk_spec_sound::specs::Windows::windows, std::specs::Prelude::count_ones))]
pub fn history_examples()
    ensures order { history (SONGS_7 ∷ []) ((BLOCK_5 ∷ [], record { version = 1; list = FOUND_5 } ∷ []) ∷ (BLOCK_5 ∷ [], record { version = 0; list = [] } ∷ []) ∷ [])
        ≡ Looked (record { station = 1; number = 0; block = BLOCK_5; answer = [] }) ∷ Published SONGS_7 ∷ Looked (record { station = 0; number = 0; block = BLOCK_5; answer = FOUND_5 }) ∷ [] }
    ensures legal { IsLegal SMALL.limits (history (SONGS_7 ∷ []) ((BLOCK_5 ∷ [], record { version = 1; list = FOUND_5 } ∷ []) ∷ (BLOCK_5 ∷ [], record { version = 0; list = [] } ∷ []) ∷ [])) }
{}
