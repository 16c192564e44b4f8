//! Relative links.
use std::alloc::{AllocError, Global};

/// The path from a folder to a URL of the same site. The folder's URL ends with a slash.
pub(crate) fn relative(alloc: Global, folder: &[u8], target: &[u8]) -> Result<Vec<u8>, AllocError> {
    let shared = shared_length(folder, target);
    let mut path = Vec::new(alloc);
    let left = following(folder, shared);
    for byte in left {
        if *byte == b'/' {
            path.extend_from_slice(b"../")?;
        }
    }
    let rest = following(target, shared);
    path.extend_from_slice(rest)?;
    Ok(path)
}

/// The text from a position on.
fn following(text: &[u8], position: usize) -> &[u8] {
    text.get(position..).unwrap_or(&[])
}

/// The length of the longest text that ends with a slash and with which both URLs begin.
fn shared_length(one: &[u8], other: &[u8]) -> usize {
    let mut shared: usize = 0;
    for (index, byte) in one.iter().enumerate() {
        if other.get(index) != Some(byte) {
            return shared;
        }
        if *byte == b'/' {
            shared = index.saturating_add(1);
        }
    }
    shared
}
