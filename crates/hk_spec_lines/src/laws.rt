// Worked examples.
ghost use Rattle.std.specs.Prelude.{◌≡◌, [], ◌∷◌, ◌++◌, codes};
ghost use Rattle.hk_base.specs.declared.plain.Reason.TheVariants as reasons;
ghost use Rattle.hk_base.specs.declared.plain.What.TheVariants as whats;
ghost use Rattle.hk_base.specs.declared.plain.End.TheVariants as ends;
ghost use Rattle.hk_base.specs.declared.plain.WireFault.TheVariants as faults;
ghost use Rattle.hk_spec_lines.specs.Lines.{line, reply_line, station_line, print_line};
ghost use Rattle.hk_spec_lines.specs.Make.{made_line, tally_of};

/// The printed lines.
pub fn line_examples()
    ensures report { line (record { station = 0; block = 12; segment = 0; first = 64; version = 1 }) (record { id = 7; start = 0; errors = 2867 } ∷ record { id = 8; start = 1; errors = 0 } ∷ [])
        ≡ codes "S 0 B 12 G 0 W 64 V 1: 7@0~2867 8@1~0" ++ 10 ∷ [] }
    ensures none { line (record { station = 63; block = 0; segment = 2; first = 0; version = 0 }) [] ≡ codes "S 63 B 0 G 2 W 0 V 0: none" ++ 10 ∷ [] }
    ensures reply { reply_line 15 (whats.Refused reasons.VersionsFull) ≡ codes "O 15 refused versions-full" ++ 10 ∷ [] }
    ensures summary { station_line 0 0 0 (ends.Wire (faults.Cut 100)) ≡ codes "T S 0 0 0 cut 100" ++ 10 ∷ [] }
    ensures print { print_line 255 (record { word = 0; mask = 15 }) ≡ codes "255 00000000 0000000f" ++ 10 ∷ [] }
{}

/// The line of `make`, and what is counted in a text: two blocks, one match and a version, up to the summary.
pub fn make_examples()
    ensures line { made_line 96 95 4 ≡ codes "M blocks 96 matches 95 versions 4" ++ 10 ∷ [] }
    ensures counted { tally_of (codes "O 1 published 1" ++ 10 ∷ codes "S 0 B 0 G 0 W 0 V 1: 7@0~0" ++ 10 ∷ codes "S 0 B 1 G 0 W 64 V 1: none" ++ 10 ∷ codes "T S 0 2 1 too-long 9: ~by" ++ 10 ∷ [])
        ≡ record { blocks = 2; matches = 1; versions = 1; refusals = 0 } }
    ensures refused { tally_of (codes "O 1 refused no-memory" ++ 10 ∷ codes "O 2 ok" ++ 10 ∷ []) ≡ record { blocks = 0; matches = 0; versions = 0; refusals = 1 } }
{}
