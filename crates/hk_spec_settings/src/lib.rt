//! What a run is set to, and why a song isn't added.
//!
//! Definitions alone. They stand on the streams and the matches, and below all that obeys them.
#![tactic(auto)]
