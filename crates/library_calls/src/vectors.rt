//! Vectors of the URL Standard, and the results of `crawl_keys` for each. The expected values were written from the standard, and
//! none was taken from this code.
use crate::escape::unescape;
use crawl_keys::{Base, CanonUrl, KeyError, canonical, resolve};
use std::alloc::Global;

/// Tries each vector of the table in turn, and returns how many there are, and how many have another result.
pub fn run(rt: &impl Print, alloc: Global, table: &str) {
    let (mut vectors, mut differing) = (0u64, 0u64);
    let mut page = None;
    for line in table.lines() {
        if let Some(text) = line.strip_prefix("base ") {
            page = canonical(alloc, text).ok();
        } else if !line.is_empty() && !line.starts_with("-- ") {
            let as_expected = ask(rt, alloc, page.as_ref(), line).unwrap_or(false);
            vectors = vectors.saturating_add(1);
            differing = differing.saturating_add(u64::from(!as_expected));
        }
    }
    let _ = println!(rt; "{vectors} vectors, {differing} differ");
}

/// Whether a vector has the result that it names: its input is a link of the page, if there is one, or a URL.
fn ask(rt: &impl Print, alloc: Global, page: Option<&CanonUrl>, line: &str) -> Option<bool> {
    let (input, expected) = line.split_once(" => ").unwrap_or((line, ""));
    let expected = unescape(alloc, expected)?;
    ask_for(rt, alloc, page, input, expected.as_str())
}

fn ask_for(
    rt: &impl Print,
    alloc: Global,
    page: Option<&CanonUrl>,
    input: &str,
    expected: &str,
) -> Option<bool> {
    let text = unescape(alloc, input)?;
    match page {
        Some(page) => ask_link(rt, alloc, page, text.as_str(), expected),
        None => is_expected(rt, alloc, canonical(alloc, text.as_str()), input, expected),
    }
}

/// Asks for a link by `resolve` and by `Base::resolve`.
fn ask_link(
    rt: &impl Print,
    alloc: Global,
    page: &CanonUrl,
    text: &str,
    expected: &str,
) -> Option<bool> {
    let by_page = is_expected(rt, alloc, resolve(alloc, page, text), text, expected)?;
    let base = Base::new(alloc, page).ok()?;
    let by_base = is_expected(rt, alloc, base.resolve(alloc, text), text, expected);
    Some(by_page && by_base?)
}

/// Whether a result is the one expected; if not, it is printed.
fn is_expected(
    rt: &impl Print,
    alloc: Global,
    read: Result<CanonUrl, KeyError>,
    input: &str,
    expected: &str,
) -> Option<bool> {
    let shown = shown(alloc, read)?;
    let same = shown.as_str() == expected;
    if !same {
        let _ = println!(rt; "{input} => {shown}, and not {expected}");
    }
    Some(same)
}

/// A result as the table writes it.
fn shown(alloc: Global, read: Result<CanonUrl, KeyError>) -> Option<String> {
    match read {
        Ok(url) => format!(in alloc; "{url} {}", url.host_key()).ok(),
        Err(error) => format!(in alloc; "{error:?}").ok(),
    }
}
