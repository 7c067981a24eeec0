//! Bytes that are changed at one offset after the other.
use std::alloc::Global;

/// The bytes before an offset. Where a byte comes for the one there, it follows, and then those behind.
pub fn swept(alloc: Global, bytes: &[u8], offset: usize, byte: Option<u8>) -> Option<Vec<u8>> {
    let (prefix, rest) = bytes.split_at_checked(offset).unwrap_or_default();
    let mut changed = prefix.to_vec(alloc).ok()?;
    if let (Some(byte), Some((_, behind))) = (byte, rest.split_first()) {
        changed.push(byte).ok()?;
        changed.extend_from_slice(behind).ok()?;
    }
    Some(changed)
}
