// What the process tells of a status.
ghost use Rattle.std.specs.Prelude.{◌≡◌, option_map};
ghost use Rattle.std.specs.Process.{exit_status};
ghost use Rattle.hkmon.specs.Messages.{message};

use hk_base::Status;
use std::process::ExitCode;

// The words are no command.
const USAGE: u8 = 2;

// Memory was wanted at the opening.
const NO_MEMORY: u8 = 4;

// The door failed.
const DOOR_FAULT: u8 = 8;

/// The exit code of a status.
pub fn exit_of(status: Status) -> ExitCode
    ensures { exit_status result ≡ status.code }
{
    ExitCode::from(status.code)
}

/// What standard error is told of a status, where it is told anything.
pub fn message_of(status: Status) -> Option<&'static str>
    ensures { option_map (λ text. text.now) result ≡ message status.code }
{
    match status.code {
        USAGE => Some("hkmon: bad usage"),
        NO_MEMORY => Some("hkmon: no memory"),
        DOOR_FAULT => Some("hkmon: door fault"),
        _ => None,
    }
}
