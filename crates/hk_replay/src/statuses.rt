// The statuses of the top call.
ghost use Rattle.std.specs.Prelude.{◌≡◌};
ghost use Rattle.hk_replay.specs.Top.{code_of};

use hk_base::{NoMemory, Status};
use hk_player::Ending;

pub const ENDED: u8 = 0;

pub const USAGE: u8 = 2;

pub const IN_DISORDER: u8 = 3;

pub const NO_MEMORY: u8 = 4;

pub const READ_FAULT: u8 = 5;

pub const WRITE_FAULT: u8 = 6;

pub const STOPPED: u8 = 7;

// The status of an order that was carried out.
pub fn status_of(ending: Result<Ending, NoMemory>) -> Status
    ensures { result.code ≡ code_of ending }
{
    let code = match ending {
        Ok(Ending::Whole(true)) => ENDED,
        Ok(Ending::Whole(false)) => IN_DISORDER,
        Ok(Ending::Stopped) => STOPPED,
        Ok(Ending::ReadFault) => READ_FAULT,
        Ok(Ending::SinkFault) => WRITE_FAULT,
        Err(_) => NO_MEMORY,
    };
    Status { code }
}
