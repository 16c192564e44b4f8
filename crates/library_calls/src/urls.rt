//! The URLs of a text's lines.
use crawl_keys::{CanonUrl, canonical};
use std::alloc::{AllocError, Global};

/// The URL of each line, or nothing if a line has none.
pub fn urls_of(alloc: Global, text: &str) -> Option<Vec<CanonUrl>> {
    let mut urls = Vec::new(alloc);
    for line in text.lines() {
        urls.push(canonical(alloc, line).ok()?).ok()?;
    }
    Some(urls)
}

/// The URL of a text that was formatted.
pub fn canonical_of(alloc: Global, text: Result<String, AllocError>) -> Option<CanonUrl> {
    match text {
        Ok(text) => canonical(alloc, text.as_str()).ok(),
        Err(_) => None,
    }
}
