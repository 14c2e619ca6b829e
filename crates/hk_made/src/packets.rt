// The packets of a station: what it plays, and the gap behind it.
ghost use Rattle.std.specs.Prelude.{◌≡◌, ◌≤◌, ◌+◌, ◌++◌, ◌∷◌, length, IfOk};
ghost use Rattle.std.specs.Int.{w16, to_be_bytes};
ghost use Rattle.hk_spec_streams.specs.Station.{DATA};
ghost use Rattle.hk_made.specs.Packets.{prints_text};

use crate::fields::{put_u8, put_u16};
use crate::prints::{played, put_print};
use hk_base::NoMemory;
use std::alloc::Global;

/// How many prints a station plays in a round.
pub const PLAYED: usize = 600;

/// How many places of a song later each next round begins.
pub const ROUND_STEP: usize = 40;

/// The hello of a station that sends prints.
pub const HELLO: [u8; 6] = *b"HKS1\x00\x01";

/// The packet that says that there is a gap.
pub const GAP_PACKET: [u8; 3] = [3, 0, 0];

// The kind of a packet of data, and how many bytes the prints of a round take.
const DATA_KIND: u8 = 1;

const DATA_BYTES: u16 = 4800;

/// The packet of a round: prints of a song from a place on, each with its draw.
pub fn data_packet(
    alloc: Global,
    flips: u32,
    song: &[u32],
    from: usize,
    draws: &[u16],
) -> Result<Vec<u8>, NoMemory>
    requires few { flips ≤ 10 }
    requires long { from + 600 ≤ length song.now }
    requires drawn { 600 ≤ length draws.now }
    ensures bytes { IfOk result (λ packet. packet.items ≡ DATA ∷ to_be_bytes w16 4800 ++ prints_text flips song.now from draws.now) }
    ensures size { IfOk result (λ packet. length packet.items ≡ 4803) }
{
    let mut packet = Vec::new(alloc);
    put_u8(&mut packet, DATA_KIND)?;
    put_u16(&mut packet, DATA_BYTES)?;
    for i in 0..PLAYED {
        let bit = u32::from(draws[i]) % 32;
        put_print(&mut packet, played(flips, song[from + i], bit))?;
    }
    Ok(packet)
}
