//! The anchor that a fragment names.
ghost use Rattle.std.specs.Prelude.{◌≡◌, IfOk, false, not};
ghost use Rattle.std.specs.List.{list_any};
ghost use Rattle.page_anchors.specs.Escapes.{is_escaped, is_odd};
ghost use Rattle.page_anchors.specs.Indicated.{before_directive, begins_directive, decoded_has, has_decoded, has_fragment, has_anchor, is_indicated, is_letter, is_route, is_top, DoAscend};

use crate::ids::{Ids, NoMemory};
use crate::search::has_id;
use percent_encoding::{AsciiSet, CONTROLS, ascii_set, percent_decode, percent_encode};
use std::alloc::Global;

/// The bytes that a URL parser percent-encodes in a fragment, in addition to those beyond ASCII.
pub const IN_FRAGMENT: AsciiSet = ascii_set!(
    CONTROLS.add(b' ').add(b'"').add(b'<').add(b'>').add(b'`')
);

/// Whether a document with these ids, in ascending order, has the anchor that the text after a `#` names. An empty text names the
/// top of the document. Otherwise an id must equal the fragment as a URL parser writes it, or the percent-decoded fragment, or that
/// must be `top` in any case. A decoded fragment that begins with `/` or `!` is a route: it names no anchor, so none is missing.
/// Everything from `:~:` on is ignored.
///
/// # Errors
/// Out of memory.
pub fn is_indicated(alloc: Global, ids: &Ids, text: &[u8]) -> Result<bool, NoMemory>
    ensures { DoAscend ids.now → IfOk result (λ found. found ≡ is_indicated ids.now text.now) }
{
    if is_plain(text) {
        return Ok(has_plain(ids, text));
    }
    let front = before_directive(text);
    if front.is_empty() {
        return Ok(true);
    }
    has_anchor(alloc, ids, front)
}

/// Whether a URL parser leaves the text unchanged, and it has neither percent escapes nor a directive.
fn is_plain(text: &[u8]) -> bool
    ensures { result ≡ not (list_any is_odd text.now) }
{
    for byte in text {
        if is_odd(*byte) {
            return false;
        }
    }
    true
}

/// Whether a byte is percent-encoded in a fragment, or may start an escape or a directive.
fn is_odd(byte: u8) -> bool
    ensures { result ≡ is_odd byte }
{
    is_escaped(byte) || byte == b'%' || byte == b':'
}

/// Whether a URL parser percent-encodes this byte in a fragment.
fn is_escaped(byte: u8) -> bool
    ensures { result ≡ is_escaped byte }
{
    byte < 33 || byte == b'"' || byte == b'<' || byte == b'>' || byte == b'`' || 126 < byte
}

/// Whether a document has the anchor that such a text names.
#[tactic(auto, using(percent_encoding::proofs::PercentLemmas::percent_encode_unchanged, crate::proofs::Plain::all_kept, crate::proofs::Plain::plain_front, crate::proofs::Plain::own_decoded, crate::proofs::Plain::once))]
fn has_plain(ids: &Ids, text: &[u8]) -> bool
    requires { list_any is_odd text.now ≡ false }
    ensures { DoAscend ids.now → result ≡ is_indicated ids.now text.now }
{
    if text.is_empty() {
        return true;
    }
    has_decoded(ids, text)
}

/// The text before a fragment directive.
fn before_directive(text: &[u8]) -> &[u8]
    ensures { result.now ≡ before_directive text.now }
{
    for index in 0..text.len() {
        if begins_directive(&text[index..]) {
            return &text[..index];
        }
    }
    text
}

/// Whether the text begins with `:~:`, which starts a fragment directive.
fn begins_directive(text: &[u8]) -> bool
    ensures { result ≡ begins_directive text.now }
{
    matches!(text, [b':', b'~', b':', ..])
}

/// Whether an id is the text as a URL parser writes it or after percent-decoding, or the decoded text is `top`.
fn has_anchor(alloc: Global, ids: &Ids, text: &[u8]) -> Result<bool, NoMemory>
    ensures { DoAscend ids.now → IfOk result (λ found. found ≡ has_anchor ids.now text.now) }
{
    let fragment = percent_encode(text, IN_FRAGMENT).into_cow(alloc)?;
    has_fragment(alloc, ids, fragment.as_str().as_bytes())
}

/// Whether the document has the anchor that a fragment names, as it is or after percent-decoding.
fn has_fragment(alloc: Global, ids: &Ids, fragment: &[u8]) -> Result<bool, NoMemory>
    ensures { DoAscend ids.now → IfOk result (λ found. found ≡ has_fragment ids.now fragment.now) }
{
    if has_id(ids, fragment) {
        return Ok(true);
    }
    decoded_has(alloc, ids, fragment)
}

/// Whether the document has the anchor that a fragment names after percent-decoding. Bytes that are not UTF-8 become U+FFFD.
fn decoded_has(alloc: Global, ids: &Ids, fragment: &[u8]) -> Result<bool, NoMemory>
    ensures { DoAscend ids.now → IfOk result (λ found. found ≡ decoded_has ids.now fragment.now) }
{
    let decoded = percent_decode(fragment).decode_utf8_lossy(alloc)?;
    let found = has_decoded(ids, decoded.as_str().as_bytes());
    Ok(found)
}

/// Whether an id is the decoded text, or the text needs no id because it is `top` or a route.
fn has_decoded(ids: &Ids, text: &[u8]) -> bool
    ensures { DoAscend ids.now → result ≡ has_decoded ids.now text.now }
{
    if has_id(ids, text) {
        return true;
    }
    is_top(text) || is_route(text)
}

/// Whether the text is `top`, in upper or lower case, which names the top of a document without an id.
fn is_top(text: &[u8]) -> bool
    ensures { result ≡ is_top text.now }
{
    if text.len() != 3 {
        return false;
    }
    is_letter(text[0], b'T', b't')
        && is_letter(text[1], b'O', b'o')
        && is_letter(text[2], b'P', b'p')
}

/// Whether the byte is this letter, in upper or lower case.
fn is_letter(byte: u8, upper: u8, lower: u8) -> bool
    ensures { result ≡ is_letter byte upper lower }
{
    byte == upper || byte == lower
}

/// Whether a script of the page reads the text as a route, as in `#/page` and `#!page`.
fn is_route(text: &[u8]) -> bool
    ensures { result ≡ is_route text.now }
{
    matches!(text, [b'/' | b'!', ..])
}
