//! A document in an unknown encoding: only ASCII is read.
ghost use Rattle.std.specs.Prelude.{◌≡◌, ◌<◌, ◌≤◌, IsAscii, IfOk};

use crate::cleaning::{trimmed, without_fragment};
use crate::raw_links::RawLinks;
use crate::scheme::{lacks_slashes, scheme_of};
use html_links::Base;
use memchr::{memchr, memmem};
use page_anchors::Ids;
use std::alloc::{AllocError, Global};

/// The character in place of a byte above ASCII. No byte of windows-1252 and no character reference means this character.
const UNKNOWN: char = '\u{80}';

/// The text of a document, with one character in place of each byte above ASCII.
pub(crate) fn ascii_text(alloc: Global, body: &[u8]) -> Result<Vec<u8>, AllocError>
    ensures { IsAscii body.now → IfOk result (λ text. text.items ≡ body.now) }
{
    let mut text = String::new(alloc);
    for byte in body {
        text.push(known_character(*byte))?;
    }
    Ok(text.into_bytes())
}

/// Returns the character of an ASCII byte, or `UNKNOWN` for any other byte.
fn known_character(byte: u8) -> char
    ensures own { byte < 128 → result ≡ byte }
    ensures unknown { 128 ≤ byte → result ≡ 128 }
{
    if byte < 0x80 { byte as char } else { UNKNOWN }
}

/// Whether a text has no byte above ASCII.
fn is_known(text: &[u8]) -> bool {
    memmem::find(text, b"\xc2\x80").is_none()
}

/// Whether one of a document's ids is not known.
pub(crate) fn has_unknown(ids: &Ids) -> bool {
    for index in 0..ids.len() {
        if !is_known(ids.id(index)) {
            return true;
        }
    }
    false
}

/// Keeps the known parts of a document's links, and returns its base if that is known. If it is not, only links that mean the same
/// with every base are known.
pub(crate) fn keep_known(base: Base, raw: &mut RawLinks) -> Result<Base, AllocError> {
    let has_base = is_base_known(&base);
    let known = known_links(raw, has_base)?;
    *raw = known;
    if has_base { Ok(base) } else { Ok(None) }
}

/// Whether the document has no `base`, or one that is known up to its fragment.
fn is_base_known(base: &Base) -> bool {
    match base {
        Some(base) => is_known(without_fragment(base.as_slice())),
        None => true,
    }
}

/// Returns the known parts of the links. Without a known base, a link is kept only if it means the same with every base.
fn known_links(raw: &RawLinks, has_base: bool) -> Result<RawLinks, AllocError> {
    let mut known = RawLinks::new(raw.allocator());
    for index in 0..raw.len() {
        let text = raw.text(index);
        if has_base || is_absolute(text) {
            push_known(raw.position(index), text, &mut known)?;
        }
    }
    Ok(known)
}

/// Appends the known part of a link with this text: all of it, or up to its `#` if only the fragment is unknown.
fn push_known(position: usize, text: &[u8], known: &mut RawLinks) -> Result<(), AllocError> {
    let front = without_fragment(text);
    if is_known(text) {
        known.push_at(position, text)
    } else if is_known(front) {
        let marked = text.get(..front.len().saturating_add(1)).unwrap_or(text);
        known.push_at(position, marked)
    } else {
        Ok(())
    }
}

/// Whether a link means the same with every base: it has a scheme, and after http or https also a host.
fn is_absolute(text: &[u8]) -> bool {
    let text = trimmed(text);
    scheme_of(text).is_some() && !lacks_slashes(text)
}
