// The expected numbers are those that tools/made_input.py --digests prints.
ghost use Rattle.std.specs.Prelude.{◌≤◌};

use crate::made_input;
use hk_base::NoMemory;
use std::alloc::Global;
use std::test::Fail;

// What is compared of an input: how many bytes it has, whether its first and last bytes are right, and its bytes as digits to
// the base 131, modulo 2^64.
#[derive(Clone, Copy, Debug, PartialEq, Eq)]
struct Seen {
    size: usize,
    begins: bool,
    ends: bool,
    digest: u64,
}

// What is seen of the input for the seed 1.
fn seen_of(alloc: Global, stations: u8, flips: u32) -> Result<Seen, NoMemory>
    requires few_stations { stations ≤ 64 }
    requires few_flips { flips ≤ 10 }
{
    let bytes = made_input(alloc, 1, stations, flips)?;
    let bytes = bytes.as_slice();
    Ok(Seen {
        size: bytes.len(),
        begins: bytes.starts_with(b"O\x00\x04HKO1S\x00\x00\x06HKS1\x00\x01"),
        ends: bytes.ends_with(b"\x00\x03\x03\x00\x00"),
        digest: digest(bytes),
    })
}

fn digest(bytes: &[u8]) -> u64 {
    let mut digest = 0u64;
    for byte in bytes {
        digest = digest.wrapping_mul(131).wrapping_add(u64::from(*byte));
    }
    digest
}

// Right ends, and this size and digest.
fn wanted(size: usize, digest: u64) -> Seen {
    Seen {
        size,
        begins: true,
        ends: true,
        digest,
    }
}

#[test]
fn one_station(rt: HostRuntime) -> Result<(), Fail> {
    let alloc = rt.alloc();
    assert_eq!(rt; seen_of(alloc, 1, 0)?, wanted(67825, 13453800182121082435));
    assert_eq!(rt; seen_of(alloc, 1, 1)?, wanted(67825, 15462163400713598217));
    assert_eq!(rt; seen_of(alloc, 1, 4)?, wanted(67825, 9145399025516398075));
    Ok(())
}

#[test]
fn four_stations(rt: HostRuntime) -> Result<(), Fail> {
    let alloc = rt.alloc();
    assert_eq!(rt; seen_of(alloc, 4, 0)?, wanted(125623, 8374328630672940485));
    assert_eq!(rt; seen_of(alloc, 4, 1)?, wanted(125623, 13966703749177906535));
    assert_eq!(rt; seen_of(alloc, 4, 4)?, wanted(125623, 11866229893776170811));
    Ok(())
}

#[test]
fn most_stations(rt: HostRuntime) -> Result<(), Fail> {
    assert_eq!(rt;
        seen_of(rt.alloc(), 64, 10)?,
        wanted(1281583, 12222755360632139118)
    );
    Ok(())
}
