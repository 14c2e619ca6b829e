// Worked examples.
ghost use Rattle.std.specs.Prelude.{◌≡◌, [], ◌∷◌, ◌++◌, codes, true, false, Some, None, option_map};
ghost use Rattle.hk_outside.specs.declared.door.Ask.TheVariants as asks;
ghost use Rattle.hk_spec_monitor.specs.Setup.{setup_of};
ghost use Rattle.hk_spec_monitor.specs.Devices.{asks_in_order};
ghost use Rattle.hk_spec_streams.specs.Blocks.{Full, Asks};
ghost use Rattle.hk_spec_runs.specs.Examples.{SMALL, BLOCK_5, SONGS_7};
ghost use Rattle.hk_spec_monitor.specs.Looks.{versions_of_blocks, until_block, last_version};
ghost use Rattle.hk_spec_monitor.specs.Run.{log_text, answers_text, used, moments_heard};
ghost use Rattle.hk_spec_monitor.specs.Summary.{summary, mismatch, status_of, ENDED, IN_DISORDER, WRITE_FAULT, MISMATCH};
ghost use Rattle.hk_spec_monitor.specs.Examples.{TWO, EARLY, LATE, TORN, MET, AHEAD, OBEYED, REPLY_TORN, RUN, SETUP, fence_packet};
ghost use Rattle.hk_spec_streams.specs.Examples.{prints_hello};

/// Which looks are those of blocks, and which come up to a block.
pub fn look_examples()
    ensures blocks { versions_of_blocks (Asks 2 ∷ Full BLOCK_5 ∷ Asks 3 ∷ Full BLOCK_5 ∷ []) (2 ∷ 2 ∷ 3 ∷ 4 ∷ []) ≡ 2 ∷ 4 ∷ [] }
    ensures no_more { versions_of_blocks (Full BLOCK_5 ∷ Full BLOCK_5 ∷ []) (7 ∷ []) ≡ 7 ∷ [] }
    ensures until_first { until_block 0 (Asks 2 ∷ Full BLOCK_5 ∷ Asks 3 ∷ []) ≡ Asks 2 ∷ Full BLOCK_5 ∷ [] }
    ensures until_second { until_block 1 (Full BLOCK_5 ∷ Asks 3 ∷ Full BLOCK_5 ∷ Full BLOCK_5 ∷ []) ≡ Full BLOCK_5 ∷ Asks 3 ∷ Full BLOCK_5 ∷ [] }
    ensures last { last_version (2 ∷ 3 ∷ []) ≡ 3 }
    ensures none { last_version [] ≡ 0 }
{}

/// The logs of a station that looked before a publish, of one that looked after it, and of one whose log failed.
pub fn log_examples()
    ensures early { log_text TWO 1 EARLY ≡ codes "S 1 B 0 G 0 W 0 V 0: none" ++ 10 ∷ [] }
    ensures late { log_text TWO 0 LATE ≡ codes "S 0 B 0 G 0 W 0 V 1: 7@0~0" ++ 10 ∷ [] }
    ensures torn { log_text TWO 0 TORN ≡ codes "S 0 B" }
    ensures used { used TWO AHEAD ≡ prints_hello ++ fence_packet 1 }
    ensures ahead { moments_heard TWO AHEAD ≡ Asks 1 ∷ [] }
    ensures met { moments_heard TWO MET ≡ Asks 1 ∷ Full BLOCK_5 ∷ [] }
{}

/// Replies are numbered from 1, and the last one may be torn.
pub fn reply_examples()
    ensures whole { answers_text TWO OBEYED ≡ codes "O 1 ok" ++ 10 ∷ codes "O 2 published 1" ++ 10 ∷ [] }
    ensures torn { answers_text TWO REPLY_TORN ≡ codes "O 1 ok" ++ 10 ∷ codes "O 2 pub" }
{}

/// Summaries and their statuses: in order, in disorder, with a summary that couldn't be written, and with a version that was never
/// published.
pub fn summary_examples()
    ensures whole { summary RUN ≡ codes "T S 0 1 1 ended" ++ 10 ∷ codes "T S 1 1 0 ended" ++ 10 ∷ codes "T O 2 1 ended" ++ 10 ∷ [] }
    ensures torn { summary (record RUN { stations = TORN ∷ AHEAD ∷ []; operator = REPLY_TORN })
        ≡ codes "T S 0 0 1 sink-fault" ++ 10 ∷ codes "T S 1 0 0 fence-ahead 1 0" ++ 10 ∷ codes "T O 1 1 sink-fault" ++ 10 ∷ [] }
    ensures over { summary (record RUN { stations = EARLY ∷ LATE ∷ []; journal = [] })
        ≡ codes "T S 0 1 0 ended" ++ 10 ∷ codes "T S 1 1 1 ended" ++ 10 ∷ codes "T O 2 0 ended" ++ 10 ∷ codes "T M 1 1 0" ++ 10 ∷ [] }
    ensures least { mismatch (record RUN { stations = LATE ∷ MET ∷ []; journal = [] }) ≡ Some (0, 1) }
    ensures none { mismatch RUN ≡ None }
    ensures ended { status_of RUN true ≡ ENDED }
    ensures in_disorder { status_of (record RUN { stations = LATE ∷ AHEAD ∷ [] }) true ≡ IN_DISORDER }
    ensures operator_in_disorder { status_of (record RUN { operator = REPLY_TORN }) true ≡ IN_DISORDER }
    ensures unwritten { status_of RUN false ≡ WRITE_FAULT }
    ensures mismatched { status_of (record RUN { journal = [] }) false ≡ MISMATCH }
{}

/// Words that the command takes, and words that it doesn't: none, a number under its range, a name that is no option, and an
/// option that is given twice.
pub fn setup_examples()
    ensures default { option_map (λ setup. setup.workers) (setup_of []) ≡ Some 2 }
    ensures ports { option_map (λ setup. setup.station_port) (setup_of (codes "--station-port" ∷ codes "80" ∷ [])) ≡ Some 80 }
    ensures hop { setup_of (codes "--hop" ∷ codes "0" ∷ []) ≡ None }
    ensures unknown { setup_of (codes "--depth" ∷ codes "1" ∷ []) ≡ None }
    ensures twice { setup_of (codes "--hop" ∷ codes "64" ∷ codes "--hop" ∷ codes "64" ∷ []) ≡ None }
{}

/// What opens a run, in its order.
pub fn opening_example()
    ensures { asks_in_order SETUP ≡ asks.Station 0 ∷ asks.Station 1 ∷ asks.Operator ∷ asks.Gate 0 ∷ [] }
{}
