// Samples of sound, and a number that tells texts apart.
use std::alloc::{AllocError, Global};

/// So many bytes of silence.
pub fn silence(alloc: Global, count: usize) -> Result<Vec<u8>, AllocError> {
    let mut bytes = Vec::new(alloc);
    for _ in 0..count {
        bytes.push(0)?;
    }
    Ok(bytes)
}

/// So many pseudo-random samples of 16 bits, as tools/print_sound.py makes them from 17.
pub fn pseudo_random(alloc: Global, samples: usize) -> Result<Vec<u8>, AllocError> {
    let mut bytes = Vec::new(alloc);
    let mut state: u64 = 17;
    for _ in 0..samples {
        state = state.wrapping_mul(1103515245).wrapping_add(12345) % 2147483648;
        let part = (state / 32768).to_le_bytes();
        bytes.push(part[0])?;
        bytes.push(part[1] ^ 0x80)?;
    }
    Ok(bytes)
}

/// A number that tells texts apart.
pub fn digest(text: &[u8]) -> u64 {
    let mut digest: u64 = 0;
    for byte in text {
        digest = digest
            .wrapping_mul(6364136223846793005)
            .wrapping_add(u64::from(*byte));
    }
    digest
}
