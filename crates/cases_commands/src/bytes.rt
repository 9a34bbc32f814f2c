//! Bytes as text.

use cases::{GROUP, hex_groups};
use std::alloc::{AllocError, Global};

/// The most bytes that are all written in an outcome; of more, it has the first 16, so that its line stays short.
const MOST_WRITTEN: usize = 64;

/// The hex digits of bytes, with a blank between groups of four bytes (`GROUP`). Of more than 64 bytes (`MOST_WRITTEN`), only those of the
/// first 16, and then ` .. of N bytes` with the number N of all bytes. So the line that is written below a case as its outcome is short.
/// `AllocError`: out of memory.
pub fn shown(alloc: Global, bytes: &[u8]) -> Result<String, AllocError> {
    if bytes.len() <= MOST_WRITTEN {
        return hex_groups(alloc, bytes, GROUP);
    }
    let front = hex_groups(alloc, &bytes[..16], GROUP)?;
    let count = bytes.len();
    format!(in alloc; "{front} .. of {count} bytes")
}
