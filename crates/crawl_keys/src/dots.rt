//! Dot segments of links.
ghost use Rattle.std.specs.Prelude.{◌≡◌, ◌<◌, ◌≤◌, ◌+◌, length, true, IfOk, IfSome, string_bytes};
ghost use Rattle.std.specs.List.{prefix_len};
ghost use Rattle.url.specs.Ascii.{question_mark, slash};
ghost use Rattle.crawl_keys.specs.Links.{IsAhead, IsAfterDots, IsWithin};
ghost use Rattle.crawl_keys.specs.Plain.{is_other};
ghost use Rattle.crawl_keys.specs.Plain as plain;

use crate::canon_url::joined;
use crate::plain::{is_plain, len_before};
use std::alloc::{AllocError, Global};

/// The number of folders that a text leads up by its leading dot segments, and the text after them and after the segments that they
/// remove: 1 and `b` for `../a/.././b`.
pub fn after_dots(text: &str) -> (usize, &str)
    ensures { IsAfterDots text.now result.0 result.1.now }
{
    let mut ups: usize = 0;
    let mut rest = text;
    while let Some((up, more)) = after_one(rest) {
        rest = more;
        ups += up;
    }
    (ups, rest)
}

/// The number of folders that the first dot segment leads up, and the text after it. `None` if the text does not begin with a dot
/// segment, or with a segment and the dot segment that removes it.
fn after_one(text: &str) -> Option<(usize, &str)>
    ensures following { IfSome result (λ step. IsAfterDots text.now step.0 step.1.now) }
    ensures shorter { IfSome result (λ step. step.0 + length step.1.now < length text.now) }
{
    if let Some(rest) = text.strip_prefix("../") {
        return Some((1, rest));
    }
    if let Some(rest) = text.strip_prefix("./") {
        return Some((0, rest));
    }
    match after_pair(text) {
        Some(rest) => Some((0, rest)),
        None => None,
    }
}

/// The text after a segment and the `..` that removes it.
fn after_pair(text: &str) -> Option<&str>
    ensures following { IfSome result (λ rest. IsAfterDots text.now 0 rest.now) }
    ensures shorter { IfSome result (λ rest. length rest.now < length text.now) }
{
    let Some((segment, more)) = text.split_once('/') else {
        return None;
    };
    let Some(rest) = more.strip_prefix("../") else {
        return None;
    };
    if is_segment(segment.as_bytes()) {
        Some(rest)
    } else {
        None
    }
}

/// The text without the first dot segments that follow another segment in it, and without the segments that they remove.
/// `None` means unknown.
pub fn without_dots(alloc: Global, text: &str) -> Result<Option<String>, AllocError>
    ensures { IfOk result (λ found. IfSome found (λ path. IsAfterDots text.now 0 (string_bytes path))) }
{
    let Some((dots, following)) = dots_within(text) else {
        return Ok(None);
    };
    let Some(front) = text.strip_suffix(dots) else {
        return Ok(None);
    };
    let path = joined(alloc, front, following)?;
    Ok(Some(path))
}

/// Returns the text from the first such dot segments on, and the text after them. `None` if there are none, or if they remove a
/// segment that is before them.
fn dots_within(text: &str) -> Option<(&str, &str)>
    ensures { IfSome result (λ found. IsWithin text.now found.0.now found.1.now) }
{
    let mut rest = text;
    while let Some(more) = after_segment(rest) {
        rest = more;
        let (ups, following) = after_dots(rest);
        if ups > 0 {
            return None;
        }
        if following.len() < rest.len() {
            return Some((rest, following));
        }
    }
    None
}

/// The text after a segment and its slash.
fn after_segment(text: &str) -> Option<&str>
    ensures ahead { IfSome result (λ rest. IsAhead text.now rest.now) }
    ensures shorter { IfSome result (λ rest. length rest.now < length text.now) }
{
    let Some((segment, rest)) = text.split_once('/') else {
        return None;
    };
    if is_segment(segment.as_bytes()) {
        Some(rest)
    } else {
        None
    }
}

/// Whether the bytes are a plain segment that is not empty.
fn is_segment(bytes: &[u8]) -> bool
    ensures plain { result ≡ true → plain.is_plain slash bytes.now ≡ true }
    ensures path { result ≡ true → prefix_len (is_other question_mark) bytes.now ≡ length bytes.now }
    ensures some { result ≡ true → 0 < length bytes.now }
{
    !bytes.is_empty() && len_before(bytes, b'?') == bytes.len() && is_plain(b'/', bytes)
}
