// A truth value that threads share.
use crate::NoMemory;
use std::alloc::Global;
use std::sync::Arc;
use std::sync::atomic::{AtomicBool, Ordering};

/// A shared truth value, at first false. Once it is true it stays so.
#[derive(Drop)]
pub struct Flag {
    raised: Arc<AtomicBool, Global>,
}

impl Flag {
    /// A flag that isn't raised.
    pub fn new(alloc: Global) -> Result<Flag, NoMemory> {
        match Arc::new(alloc, AtomicBool::new(false)) {
            Ok(raised) => Ok(Flag { raised }),
            Err(_) => Err(NoMemory),
        }
    }

    /// Another hold on the same flag.
    pub fn share(&self) -> Result<Flag, NoMemory> {
        match Arc::try_clone(&self.raised) {
            Ok(raised) => Ok(Flag { raised }),
            Err(_) => Err(NoMemory),
        }
    }

    /// Raises it, for all who have a hold on it.
    pub fn raise(&self) {
        self.raised.store(true, Ordering::SeqCst);
    }

    /// Whether it was raised.
    pub fn is_raised(&self) -> bool {
        self.raised.load(Ordering::SeqCst)
    }
}
