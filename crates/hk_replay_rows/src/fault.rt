// Why a row can't be played.
use std::alloc::{AllocError, AllocFailed};
use std::io;
use std::num::{ParseIntError, TryFromIntError};

/// Memory was refused, or a line has another form than a row's.
#[derive(Clone, Copy, Debug, PartialEq, Eq, Drop)]
pub enum Fault {
    NoMemory,
    Form,
}

impl From<AllocError> for Fault {
    fn from(_: AllocError) -> Fault {
        Fault::NoMemory
    }
}

impl<T: Drop> From<AllocFailed<T>> for Fault {
    fn from(_: AllocFailed<T>) -> Fault {
        Fault::NoMemory
    }
}

// Bytes are written to memory alone.
impl From<io::Error> for Fault {
    fn from(_: io::Error) -> Fault {
        Fault::NoMemory
    }
}

impl From<ParseIntError> for Fault {
    fn from(_: ParseIntError) -> Fault {
        Fault::Form
    }
}

impl From<TryFromIntError> for Fault {
    fn from(_: TryFromIntError) -> Fault {
        Fault::Form
    }
}
