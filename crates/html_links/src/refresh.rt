//! The target of a `meta` refresh.
ghost use Rattle.std.specs.Prelude.{◌≡◌, length, take_while};
ghost use Rattle.html_links.specs.Comments.{bytes_at};
ghost use Rattle.html_links.specs.Shown.{following};
ghost use Rattle.html_links.specs.Refresh.{in_time, is_separator, after_letter, after_mark, after_end, after_number, after_time, after_equals, after_url, is_quote, unquoted, some_bytes, target_of, and_then};

use crate::bytes::{is_space, parts, skip_space, split_quoted};

/// The target that the content of a refresh names, or nothing.
pub(crate) fn target_of(content: &[u8]) -> Option<&[u8]>
    ensures { bytes_at result ≡ target_of content.now }
{
    match after_time(content) {
        Some(text) => some_bytes(unquoted(after_url(text))),
        None => None,
    }
}

/// The target, or `None` if it is empty: the refresh is then to the document itself, which is no link.
fn some_bytes(text: &[u8]) -> Option<&[u8]>
    ensures { bytes_at result ≡ some_bytes text.now }
{
    match parts(text) {
        Some(_) => Some(text),
        None => None,
    }
}

/// Whether the byte may be in the time of a refresh: it is a digit or a full stop.
fn in_time(byte: u8) -> bool
    ensures { result ≡ in_time byte }
{
    matches!(byte, b'0'..=b'9' | b'.')
}

/// Whether the byte is one that separates the time of a refresh from its target: `;` or `,`.
fn is_separator(byte: u8) -> bool
    ensures { result ≡ is_separator byte }
{
    byte == b';' || byte == b','
}

/// The number of digits and full stops at the front.
fn time_len(bytes: &[u8]) -> usize
    ensures { result ≡ length (take_while in_time bytes.now) }
{
    bytes.iter().take_while(|byte| in_time(**byte)).count()
}

/// The bytes after the digits and full stops at the front.
#[tactic(auto, using(std::proofs::lemmas::List::take_rest, crate::proofs::Cuts::after_cut))]
fn skip_time(bytes: &[u8]) -> &[u8]
    ensures { result.now ≡ following in_time bytes.now }
{
    &bytes[time_len(bytes)..]
}

/// The bytes after one `;` or `,` at the front and the white space after it. If neither is there, all bytes.
fn after_mark(bytes: &[u8]) -> &[u8]
    ensures { result.now ≡ after_mark bytes.now }
{
    match parts(bytes) {
        Some((first, more)) => if is_separator(first) {
            skip_space(more)
        } else {
            bytes
        },
        None => bytes,
    }
}

/// The bytes after what separates the time from the target: white space, `;` or `,`. `None` if nothing separates them.
fn after_end(bytes: &[u8]) -> Option<&[u8]>
    ensures { bytes_at result ≡ after_end bytes.now }
{
    let Some((first, _)) = parts(bytes) else {
        return None;
    };
    if is_separator(first) || is_space(first) {
        Some(after_mark(skip_space(bytes)))
    } else {
        None
    }
}

/// The bytes after the time and what separates it from the target. `None` if the bytes do not begin with these.
fn after_number(bytes: &[u8]) -> Option<&[u8]>
    ensures { bytes_at result ≡ after_number bytes.now }
{
    let Some((first, more)) = parts(bytes) else {
        return None;
    };
    if in_time(first) {
        after_end(skip_time(more))
    } else {
        None
    }
}

/// The bytes after the time, and after its `;`, `,` or white space.
fn after_time(content: &[u8]) -> Option<&[u8]>
    ensures { bytes_at result ≡ after_time content.now }
{
    after_number(skip_space(content))
}

/// The bytes after this character at the front, in any case, or `None` if it is not there. A letter must be in lower case.
pub(crate) fn after_letter(letter: u8, bytes: &[u8]) -> Option<&[u8]>
    ensures { bytes_at result ≡ after_letter letter bytes.now }
{
    match parts(bytes) {
        Some((first, more)) => if first.to_ascii_lowercase() == letter {
            Some(more)
        } else {
            None
        },
        None => None,
    }
}

/// The bytes after an `=` at the front and the white space after it. `None` if there is no `=`.
fn after_equals(bytes: &[u8]) -> Option<&[u8]>
    ensures { bytes_at result ≡ after_equals bytes.now }
{
    match parts(bytes) {
        Some((first, more)) => if first == b'=' {
            Some(skip_space(more))
        } else {
            None
        },
        None => None,
    }
}

/// The bytes after `url=`, if the text begins with it.
fn after_url(text: &[u8]) -> &[u8]
    ensures { result.now ≡ after_url text.now }
{
    let Some(u) = after_letter(b'u', text) else {
        return text;
    };
    let Some(r) = after_letter(b'r', u) else {
        return text;
    };
    let Some(l) = after_letter(b'l', r) else {
        return text;
    };
    match after_equals(skip_space(l)) {
        Some(target) => target,
        None => text,
    }
}

/// Whether the byte is a `"` or a `'`.
pub(crate) fn is_quote(byte: u8) -> bool
    ensures { result ≡ is_quote byte }
{
    byte == b'"' || byte == b'\''
}

/// The text to its closing quote, if it begins with a quote.
fn unquoted(text: &[u8]) -> &[u8]
    ensures { result.now ≡ unquoted text.now }
{
    let Some((first, more)) = parts(text) else {
        return text;
    };
    if is_quote(first) {
        match split_quoted(first, more) {
            Some((quoted, _)) => quoted,
            None => more,
        }
    } else {
        text
    }
}
