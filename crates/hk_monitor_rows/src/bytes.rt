// The bytes that stations and the operator send.
use crate::fault::Fault;
use crate::row::{Station, Words};
use std::alloc::Global;

// A data packet of 256 prints begins so.
const PACKET_HEAD: [u8; 3] = *b"\x01\x08\x00";

const FENCE_OF_1: [u8; 7] = *b"\x02\x00\x04\x00\x00\x00\x01";

const PUBLISH: [u8; 5] = *b"\x06\x00\x00\x00\x00";

impl Words {
    fn count(self) -> u32 {
        match self {
            Words::Rising(count) | Words::Zeros(count) => count,
        }
    }

    fn word(self, place: u32) -> u32 {
        match self {
            Words::Rising(_) => place,
            Words::Zeros(_) => 0,
        }
    }

    // The weak bits of each print.
    fn mask(self) -> u32 {
        match self {
            Words::Rising(_) => 0,
            Words::Zeros(_) => 0x3ff,
        }
    }

    // The number of a recording of these words.
    fn recording(self) -> u32 {
        match self {
            Words::Rising(_) => 7,
            Words::Zeros(_) => 3,
        }
    }
}

/// A station's hello, its fence where it has one, and its prints in packets of 256. Their number is a multiple of 256.
pub fn station_bytes(alloc: Global, station: &Station) -> Result<Vec<u8>, Fault> {
    let mut bytes = Vec::from_slice(alloc, b"HKS1\x00\x01")?;
    if station.is_fenced {
        bytes.extend_from_slice(&FENCE_OF_1)?;
    }
    let prints = station.prints;
    for place in 0..prints.count() {
        if place % 256 == 0 {
            bytes.extend_from_slice(&PACKET_HEAD)?;
        }
        bytes.extend_from_slice(&prints.word(place).to_be_bytes())?;
        bytes.extend_from_slice(&prints.mask().to_be_bytes())?;
    }
    Ok(bytes)
}

/// The operator's hello, a recording and its publish, and no byte without one.
pub fn operator_bytes(alloc: Global, recording: Option<Words>) -> Result<Vec<u8>, Fault> {
    let mut bytes = Vec::new(alloc);
    if let Some(words) = recording {
        let length = words.count().saturating_mul(4).saturating_add(4);
        bytes.extend_from_slice(b"HKO1\x01")?;
        bytes.extend_from_slice(&length.to_be_bytes())?;
        bytes.extend_from_slice(&words.recording().to_be_bytes())?;
        for place in 0..words.count() {
            bytes.extend_from_slice(&words.word(place).to_be_bytes())?;
        }
        bytes.extend_from_slice(&PUBLISH)?;
    }
    Ok(bytes)
}
