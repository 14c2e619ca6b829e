// Text that grows in memory.
ghost use Rattle.std.specs.Prelude.{◌≡◌, [], Some, OnErr};

use hk_base::{Failed, Sink};
use std::alloc::Global;

/// A sink in memory, which tells what was written. A write appends all of its bytes, and fails only for want of memory.
#[derive(Drop)]
pub struct Text {
    bytes: Vec<u8>,
    faults: u64,
}

impl Text {
    /// A text without a byte. It takes no memory.
    pub fn new(alloc: Global) -> Text
        ensures { result.bytes.items ≡ [] }
    {
        Text {
            bytes: Vec::new(alloc),
            faults: 0,
        }
    }

    /// All that was written.
    pub fn bytes(&self) -> &[u8]
        ensures { result.now ≡ self.now.bytes.items }
    {
        self.bytes.as_slice()
    }
}

impl Sink for Text {
    ghost written = { λ text. Some text.bytes.items };

    ghost faults = { λ text. text.faults };

    fn write(&mut self, piece: &[u8]) -> Result<usize, Failed> {
        match self.bytes.extend_from_slice(piece) {
            Ok(()) => Ok(piece.len()),
            Err(_) => {
                self.faults = self.faults.saturating_add(1);
                Err(Failed)
            }
        }
    }
}
