// Worked examples of facts, and of what is refused.
ghost use Rattle.std.specs.Prelude.{[], ◌∷◌, ◌++◌};
ghost use Rattle.hk_base.specs.declared.plain.What.TheVariants.{Done, Published};
ghost use Rattle.hk_spec_matching.specs.Catalogue.{version};
ghost use Rattle.hk_outside.specs.declared.door.Ask.TheVariants as asks;
ghost use Rattle.hk_outside.specs.declared.door.Start.TheVariants.{Started, Refused};
ghost use Rattle.hk_spec_monitor.specs.Devices.{asks_in_order, granted, refused, WasRefused};
ghost use Rattle.hk_spec_monitor.specs.Run.{HasLines, HasReplies};
ghost use Rattle.hk_spec_monitor.specs.Examples.{TWO, EARLY, LATE, TORN, MET, AHEAD, OBEYED, REPLY_TORN, RUN, SETUP, door_with};

/// Lines at versions that their looks found, whole and torn. A line at another version, a line that lists something else and a
/// line that is left out are no such lines.
pub fn line_facts()
    ensures late { HasLines TWO (version TWO.limits RUN.journal) 0 LATE }
    ensures early { HasLines TWO (version TWO.limits RUN.journal) 1 EARLY }
    ensures met { HasLines TWO (version TWO.limits RUN.journal) 0 MET }
    ensures ahead { HasLines TWO (version TWO.limits RUN.journal) 1 AHEAD }
    ensures torn { HasLines TWO (version TWO.limits RUN.journal) 0 TORN }
    ensures no_such_look { HasLines TWO (version TWO.limits RUN.journal) 0 (record LATE { looks = 0 ∷ [] }) → ⊥ }
    ensures other_list { HasLines TWO (version TWO.limits RUN.journal) 0 (record LATE { reported = record { version = 1; list = [] } ∷ [] }) → ⊥ }
    ensures left_out { HasLines TWO (version TWO.limits RUN.journal) 0 (record LATE { reported = [] }) → ⊥ }
{}

/// Replies to the commands that were read, whole and torn. A journal without its batch, a reply to no command, and a command
/// without its reply are refused.
pub fn reply_facts()
    ensures whole { HasReplies TWO RUN.journal OBEYED }
    ensures torn { HasReplies TWO RUN.journal REPLY_TORN }
    ensures no_batch { HasReplies TWO [] OBEYED → ⊥ }
    ensures no_command { HasReplies TWO RUN.journal (record OBEYED { replies = Done ∷ Published 1 ∷ Done ∷ [] }) → ⊥ }
    ensures no_reply { HasReplies TWO [] (record OBEYED { replies = Done ∷ [] }) → ⊥ }
{}

/// A door that refused its start, and one that refused the second of its stations, refused an opening. A started door that was
/// asked for nothing didn't, nor one that handed out all.
pub fn opening_facts()
    ensures start { WasRefused (asks_in_order SETUP) (door_with Refused []) }
    ensures station { WasRefused (asks_in_order SETUP) (door_with Started (granted (asks.Station 0 ∷ []) ++ refused (asks.Station 1))) }
    ensures nothing_asked { WasRefused (asks_in_order SETUP) (door_with Started []) → ⊥ }
    ensures all { WasRefused (asks_in_order SETUP) (door_with Started (granted (asks_in_order SETUP))) → ⊥ }
{}
