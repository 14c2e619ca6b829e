// What an office may begin at.
ghost use Rattle.std.specs.Prelude.{◌≡◌};
ghost use Rattle.hk_spec_settings.specs.Settings.{Rules};
ghost use Rattle.hk_spec_runs.specs.OperatorState.{new_state};
ghost use Rattle.hk_operator.specs.OnShelf.{IsOnShelf};
ghost use Rattle.hk_publish.specs.Holding.{Holding, new_holding, shelf_of};

/// A desk of which nothing is published or staged stands for the state before the first command, under its own limits.
pub fn new_desks_fit()
    ensures { (rules : Rules) (desk : Holding) → desk ≡ new_holding desk.home rules.limits → IsOnShelf rules (shelf_of desk) new_state }
{}
