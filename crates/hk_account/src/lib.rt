//! What a station that is served adds up to since it was new.
//!
//! A loop promises of a station which bytes it heard, each at the version of its look, and why it ended. The laws here make of
//! that what a run's definitions say: a log with one line for each block, or with a torn one where a write of it failed, the looks
//! of all blocks and fences in their order, the fence that was ahead, and the cause of the end. Laws alone, and nothing runs.
#![tactic(auto)]

ghost use Rattle.hk_spec_settings.specs.Settings.{Rules};
ghost use Rattle.hk_account.specs.Account.{AccountSinceStart};
ghost use Rattle.hk_account.specs.Reasons.{CausesSinceStart};
ghost use Rattle.hk_account.specs.Torn.{TornAccountSinceStart};

/// What a station did since it was new, whose log never failed, is what the definitions of a run say of it.
pub fn account_since_start()
    ensures { (rules : Rules) → AccountSinceStart rules }
{}

/// The same where a write of the log failed: the next block's line is torn, and whatever was taken behind that block's last byte
/// has no line and no look.
pub fn torn_account_since_start()
    ensures { (rules : Rules) → TornAccountSinceStart rules }
{}

/// Its end has the cause that they ask for: in its bytes, in a fence, or in a count that rose while its bytes had no fault.
pub fn causes_since_start()
    ensures { (rules : Rules) → CausesSinceStart rules }
{}
