// What follows of a run's definitions.
ghost use Rattle.hk_spec_settings.specs.Settings.{Rules};
ghost use Rattle.hk_spec_monitor.specs.Laws.{LinesAreLegal, LinesAreLog, LaterLooksHave, NoLookIsOver};

/// The lines of all stations and the publishes are one legal history.
pub fn history_law()
    ensures { (rules : Rules) → LinesAreLegal rules }
{}

/// A log's lines depend on nothing but its blocks, its versions and the songs of these.
#[tactic(auto, using(crate::proofs::Logs::lines_are_log))]
pub fn log_law()
    ensures { (rules : Rules) → LinesAreLog rules }
{}

/// A look behind a fence that was met has at least what the fence asks for.
#[tactic(auto, using(crate::proofs::Logs::later_looks_have))]
pub fn fence_law()
    ensures { LaterLooksHave }
{}

/// The last look has the greatest version.
#[tactic(auto, using(crate::proofs::Logs::no_look_is_over))]
pub fn version_law()
    ensures { NoLookIsOver }
{}
