//! Work to measure with the URLs and links of a text's lines.
use crate::filters::allowed;
use crawl_keys::{Base, CanonUrl, KeyError, canonical};
use std::alloc::Global;
use std::collections::BTreeSet;

/// The page that the links are joined to.
const PAGE: &str = "http://host-000.crawl.test/section/page-000000?view=full";

/// How many copies of each URL the work `shared` keeps.
const COPIES: u32 = 3;

/// Does the work of this name, and returns how many bytes came out.
pub fn done(alloc: Global, name: &str, count: u32, text: &str) -> Option<u64> {
    match name {
        "kept" => kept(alloc, text, 0),
        "shared" => kept(alloc, text, COPIES),
        "allowed" => allowed(alloc, text, count),
        _ => {
            let page = Base::canonical(alloc, PAGE).ok()?;
            made(alloc, &page, name, text, count)
        }
    }
}

/// The bytes of what is made of each line, the given number of times.
fn made(alloc: Global, page: &Base, name: &str, text: &str, count: u32) -> Option<u64> {
    let mut bytes = 0u64;
    for _ in 0..count {
        for line in text.lines() {
            bytes = bytes.wrapping_add(made_of(alloc, page, name, line)?);
        }
    }
    Some(bytes)
}

fn made_of(alloc: Global, page: &Base, name: &str, line: &str) -> Option<u64> {
    match name {
        "lines" => Some(line.len() as u64),
        "canonical" => bytes_of(canonical(alloc, line)),
        "joined" => bytes_of(page.resolve(alloc, line)),
        _ => None,
    }
}

fn bytes_of(url: Result<CanonUrl, KeyError>) -> Option<u64> {
    match url {
        Ok(url) => Some(url.as_str().len() as u64),
        Err(_) => None,
    }
}

/// Keeps the URLs in a set, and the given number of copies of each in a list.
fn kept(alloc: Global, text: &str, copies: u32) -> Option<u64> {
    let mut list = Vec::new(alloc);
    let mut set = BTreeSet::new(alloc);
    keep(alloc, &mut set, &mut list, text, copies)
}

fn keep(
    alloc: Global,
    set: &mut BTreeSet<CanonUrl>,
    list: &mut Vec<CanonUrl>,
    text: &str,
    copies: u32,
) -> Option<u64> {
    let mut bytes = 0u64;
    for line in text.lines() {
        let url = canonical(alloc, line).ok()?;
        bytes = bytes.wrapping_add(url.as_str().len() as u64);
        for _ in 0..copies {
            list.push(url.copy().ok()?).ok()?;
        }
        set.insert(url).ok()?;
    }
    Some(bytes)
}
