// What a byte of a station's stream brings.
use hk_base::{Form, Print, WireFault};

/// What a byte of a station's stream brings: `Hello` at the last byte of the hello, `Byte` for each byte of sound, `Print` at the
/// eighth byte of a print, `Fence` with the version that it asks for at its last byte, and `Gap` at a gap's last byte.
#[derive(Clone, Copy, Debug, PartialEq, Eq)]
pub enum Item {
    Nothing,
    Hello(Form),
    Byte(u8),
    Print(Print),
    Fence(u32),
    Gap,
    Fault(WireFault),
}
