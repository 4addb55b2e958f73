//! Bytes in which one part stands many times.

use std::alloc::{AllocError, Global};

/// A part that stands several times, with what stands before it and what follows.
pub fn repeated(
    alloc: Global,
    front: &[u8],
    part: &[u8],
    times: usize,
    rest: &[u8],
) -> Result<Vec<u8>, AllocError> {
    let mut bytes = Vec::from_slice(alloc, front)?;
    for _ in 0..times {
        bytes.extend_from_slice(part)?;
    }
    bytes.extend_from_slice(rest)?;
    Ok(bytes)
}
