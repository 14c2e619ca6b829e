// Why nothing was run.
ghost use Rattle.std.specs.Prelude.{◌≡◌};
ghost use Rattle.hk_monitor_top.specs.Statuses.{code_of, refusal_by};

use hk_base::Status;
use hk_outside::DoorFault;

/// Why nothing was run.
#[derive(Clone, Copy, Debug, PartialEq, Eq)]
pub enum Refusal {
    /// The words are no command. The status is 2.
    Usage,
    /// Memory was wanted at the opening. The status is 4.
    NoMemory,
    /// The door failed. The status is 8.
    DoorFault,
}

impl Refusal {
    /// The status of a run that is refused.
    pub fn status(self) -> Status
        ensures { result.code ≡ code_of self }
    {
        let code = match self {
            Refusal::Usage => 2,
            Refusal::NoMemory => 4,
            Refusal::DoorFault => 8,
        };
        Status { code }
    }
}

/// Why nothing was run where a door refuses.
pub fn refusal_by(fault: DoorFault) -> Refusal
    ensures { result ≡ refusal_by fault }
{
    match fault {
        DoorFault::Failed => Refusal::DoorFault,
        DoorFault::NoMemory => Refusal::NoMemory,
    }
}
