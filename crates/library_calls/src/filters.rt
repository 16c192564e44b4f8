//! Filters of the suffixes in a text.
use crate::urls::urls_of;
use crawl_keys::{CanonUrl, Filter};
use std::alloc::Global;

/// The bytes of the URLs after the first line that are within one of the suffixes in the first line, the given number of times.
pub fn allowed(alloc: Global, text: &str, count: u32) -> Option<u64> {
    let (suffixes, lines) = text.split_once('\n')?;
    let filter = filter_by(alloc, suffixes)?;
    let urls = urls_of(alloc, lines)?;
    Some(bytes_within(&filter, &urls, count))
}

fn bytes_within(filter: &Filter, urls: &[CanonUrl], count: u32) -> u64 {
    let mut bytes = 0u64;
    for _ in 0..count {
        for url in urls {
            if filter.allows(url) {
                bytes = bytes.wrapping_add(url.as_str().len() as u64);
            }
        }
    }
    bytes
}

/// The filter of the suffixes in a text, with a space between two of them.
pub fn filter_by(alloc: Global, text: &str) -> Option<Filter> {
    let mut list = Vec::new(alloc);
    if push_suffixes(text, &mut list) {
        Filter::new(alloc, list.as_slice()).ok()
    } else {
        None
    }
}

fn push_suffixes<'a>(text: &'a str, list: &mut Vec<&'a str>) -> bool {
    for word in text.split(' ') {
        if !word.is_empty() && list.push(word).is_err() {
            return false;
        }
    }
    true
}
