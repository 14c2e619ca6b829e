// Stations before their first byte.
ghost use Rattle.std.specs.Prelude.{◌≡◌, ◌≤◌, IfOk, length, replicate};
ghost use Rattle.hk_words.specs.Rules.{rules_meant, RulesFit};
ghost use Rattle.hk_spec_runs.specs.Listening.{unheard};
ghost use Rattle.hk_run.specs.Holding.{AreHearing};

use hk_base::NoMemory;
use hk_station::Station;
use hk_words::RunRules;
use std::alloc::Global;

/// As many stations as the rules say, numbered from 0.
pub fn open_stations(alloc: Global, rules: &RunRules) -> Result<Vec<Station>, NoMemory>
    requires fits { RulesFit rules.now }
    ensures unheard { IfOk result (λ stations. AreHearing (rules_meant rules.now) 0 stations.items (replicate rules.now.stations unheard)) }
{
    let mut stations = Vec::new(alloc);
    for number in 0..rules.stations {
        let station = Station::new(alloc, number, rules.flips, rules.hop, rules.bytes)?;
        match stations.push(station) {
            Ok(()) => {}
            Err(_) => return Err(NoMemory),
        }
    }
    Ok(stations)
}
