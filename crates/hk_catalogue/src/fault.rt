// Why an edit isn't staged.
use crate::Refused;
use thiserror::Error;

/// Why an edit isn't staged. It is dropped, and all is as before.
#[derive(Clone, Copy, Debug, PartialEq, Eq, Error)]
pub enum StageFault {
    /// The edit can't be done.
    #[error("{0}")]
    Refused(Refused),
    /// Memory was refused.
    #[error("no memory")]
    NoMemory,
}
