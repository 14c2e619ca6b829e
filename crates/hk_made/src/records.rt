// The records of the input: bytes of the operator's stream, or of a station's.
ghost use Rattle.std.specs.Prelude.{◌≡◌, ◌<◌, ◌^◌, ◌++◌, length, OnOk};
ghost use Rattle.hk_spec_made.specs.Input.{operator_record, station_record};

use crate::fields::{put_bytes, put_u8, put_u16};
use hk_base::NoMemory;

/// Puts a record of bytes for the operator.
pub fn put_operator_record(text: &mut Vec<u8>, bytes: &[u8]) -> Result<(), NoMemory>
    requires { length bytes.now < 2 ^ 16 }
    ensures { OnOk result (text.new.items ≡ text.old.items ++ operator_record bytes.now) }
{
    put_u8(text, b'O')?;
    put_u16(text, bytes.len() as u16)?;
    put_bytes(text, bytes)
}

/// Puts a record of bytes for a station.
pub fn put_station_record(text: &mut Vec<u8>, station: u8, bytes: &[u8]) -> Result<(), NoMemory>
    requires { length bytes.now < 2 ^ 16 }
    ensures { OnOk result (text.new.items ≡ text.old.items ++ station_record station bytes.now) }
{
    put_u8(text, b'S')?;
    put_u8(text, station)?;
    put_u16(text, bytes.len() as u16)?;
    put_bytes(text, bytes)
}
