// Fields at the end of a text: bytes, and numbers with the high byte first.
ghost use Rattle.std.specs.Prelude.{◌≡◌, ◌++◌, [], ◌∷◌, OnOk};
ghost use Rattle.std.specs.Int.{w16, w32, to_be_bytes};

use byteorder::{BigEndian, WriteBytesExt};
use hk_base::NoMemory;

/// Puts bytes as they are.
pub fn put_bytes(text: &mut Vec<u8>, bytes: &[u8]) -> Result<(), NoMemory>
    ensures { OnOk result (text.new.items ≡ text.old.items ++ bytes.now) }
{
    match text.extend_from_slice(bytes) {
        Ok(()) => Ok(()),
        Err(_) => Err(NoMemory),
    }
}

/// Puts one byte.
pub fn put_u8(text: &mut Vec<u8>, byte: u8) -> Result<(), NoMemory>
    ensures { OnOk result (text.new.items ≡ text.old.items ++ byte ∷ []) }
{
    match text.push(byte) {
        Ok(()) => Ok(()),
        Err(_) => Err(NoMemory),
    }
}

/// Puts a number in two bytes.
pub fn put_u16(text: &mut Vec<u8>, number: u16) -> Result<(), NoMemory>
    ensures { OnOk result (text.new.items ≡ text.old.items ++ to_be_bytes w16 number) }
{
    match text.write_u16::<BigEndian>(number) {
        Ok(()) => Ok(()),
        Err(_) => Err(NoMemory),
    }
}

/// Puts a number in four bytes.
pub fn put_u32(text: &mut Vec<u8>, number: u32) -> Result<(), NoMemory>
    ensures { OnOk result (text.new.items ≡ text.old.items ++ to_be_bytes w32 number) }
{
    match text.write_u32::<BigEndian>(number) {
        Ok(()) => Ok(()),
        Err(_) => Err(NoMemory),
    }
}
