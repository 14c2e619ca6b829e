// What the process tells of a status.
ghost use Rattle.std.specs.Prelude.{◌≡◌, option_map};
ghost use Rattle.std.specs.Process.{exit_status};
ghost use Rattle.hkreplay.specs.Messages.{message};

use hk_base::Status;
use hk_replay::{NO_MEMORY, USAGE};
use std::process::ExitCode;

/// The exit code of a status.
pub fn exit_of(status: Status) -> ExitCode
    ensures { exit_status result ≡ status.code }
{
    ExitCode::from(status.code)
}

/// What standard error is told of a status, where it is told anything.
pub fn message_of(status: Status) -> Option<&'static str>
    ensures { option_map (λ text. text.now) result ≡ message status.code }
{
    match status.code {
        USAGE => Some("hkreplay: bad usage"),
        NO_MEMORY => Some("hkreplay: no memory"),
        _ => None,
    }
}
