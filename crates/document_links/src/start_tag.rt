//! A start tag of XML, from after its `<` to its `>`.
ghost use Rattle.std.specs.Prelude.{◌≡◌, ◌<◌, ◌==◌, ℕ, List, [], drop, length, not, MatchOption, if◌then◌else◌, option_map, take_while};
ghost use Rattle.std.specs.Option.{option_map_or};
ghost use Rattle.std.specs.Str.{bytes_eq};
ghost use Rattle.url.specs.Input.{rsplit_once, trim_end};
ghost use Rattle.html_links.specs.Shown.{Stopped, following, front};
ghost use Rattle.document_links.specs.Markup.{closes, in_name, is_gap, is_unquoted, last_name, local_name, name_before, value_left, value_of};

use crate::bytes::{parts, split_byte};
use memchr::memchr2;

/// The name of a tag without its prefix.
pub(crate) fn local_name(tag: &[u8]) -> &[u8]
    ensures { result.now ≡ local_name tag.now }
{
    after_colon(first_name(tag))
}

/// The bytes at the front that are a name.
#[tactic(auto, using(html_links::proofs::Cuts::front_cut))]
fn first_name(tag: &[u8]) -> &[u8]
    ensures { result.now ≡ front in_name tag.now }
{
    &tag[..name_len(tag)]
}

/// The number of bytes at the front that are a name.
fn name_len(tag: &[u8]) -> usize
    ensures { result ≡ length (take_while in_name tag.now) }
{
    tag.iter().take_while(|byte| in_name(**byte)).count()
}

/// The text after the last colon of a name, or the whole name if it has no colon.
fn after_colon(name: &[u8]) -> &[u8]
    ensures { result.now ≡ (rsplit_once 58 name.now).1 }
{
    match name.iter().rposition(|byte| *byte == b':') {
        Some(at) => &name[at + 1..],
        None => name,
    }
}

/// Whether the byte may be in a name.
fn in_name(byte: u8) -> bool
    ensures { result ≡ in_name byte }
{
    !(is_gap(byte) || byte == b'/' || byte == b'>')
}

/// Whether the byte may be between the name of an attribute and its value: white space or `=`.
fn is_gap(byte: u8) -> bool
    ensures { result ≡ is_gap byte }
{
    matches!(byte, b'\t' | b'\n' | b'\r' | b' ' | b'=')
}

/// Whether the tag is also the end of its element.
pub(crate) fn closes(tag: &[u8]) -> bool
    ensures { result ≡ closes tag.now }
{
    tag.ends_with(b"/>")
}

/// The value of an attribute, and the number of bytes from its start to the end of the tag.
#[derive(Clone, Copy)]
pub(crate) struct TagValue<'a> {
    pub(crate) text: &'a [u8],
    pub(crate) left: usize,
}

/// The value of the first attribute with this name.
pub(crate) fn value_of<'a>(name: &[u8], tag: &'a [u8]) -> Option<TagValue<'a>>
    ensures text { option_map (λ value. value.text.now) result ≡ value_of name.now tag.now }
    ensures left { option_map_or (λ value. value.left) result 0 ≡ value_left name.now tag.now }
{
    let mut rest = tag;
    'values: while let Some(found) = next_value(rest) {
        if name_before(found.since) == name {
            return Some(found.value);
        }
        rest = found.following;
    }
    None
}

/// A text in quotes in a tag, the bytes before its first quote, and those after its second.
#[derive(Clone, Copy)]
struct Quoted<'a> {
    since: &'a [u8],
    value: TagValue<'a>,
    following: &'a [u8],
}

/// The next text in quotes.
#[tactic(auto, using(crate::proofs::Marking::no_value))]
fn next_value(bytes: &[u8]) -> Option<Quoted<'_>>
    ensures reads { MatchOption result ((name : List ℕ) → value_of name bytes.now ≡ None)
        (λ found. (name : List ℕ) → value_of name bytes.now ≡ (if bytes_eq (name_before found.since.now) name then Some found.value.text.now else value_of name found.following.now)) }
    ensures lefts { MatchOption result ((name : List ℕ) → value_left name bytes.now ≡ 0)
        (λ found. (name : List ℕ) → value_left name bytes.now ≡ (if bytes_eq (name_before found.since.now) name then found.value.left else value_left name found.following.now)) }
    ensures leaves { MatchOption result ((name : List ℕ) → value_of name bytes.now ≡ None) (λ found. length found.following.now < length bytes.now) }
{
    let (since, quoted) = split_quote(bytes);
    let Some((quote, inner)) = parts(quoted) else {
        return None;
    };
    let (text, following) = before_quote(quote, inner);
    Some(Quoted {
        since,
        value: TagValue {
            text,
            left: inner.len(),
        },
        following,
    })
}

/// The bytes before the first quote, and those from it on.
#[tactic(auto, using(html_links::proofs::Jumps::stopped))]
fn split_quote(bytes: &[u8]) -> (&[u8], &[u8])
    ensures since { result.0.now ≡ front is_unquoted bytes.now }
    ensures quoted { result.1.now ≡ following is_unquoted bytes.now }
    ensures stopped { Stopped is_unquoted result.1.now }
{
    match memchr2(b'"', b'\'', bytes) {
        Some(end) => bytes.split_at(end),
        None => (bytes, &[]),
    }
}

/// The bytes before the first such quote, and those after it. If there is none, all bytes and none.
#[tactic(auto, using(html_links::proofs::Sources::front_all))]
fn before_quote(quote: u8, bytes: &[u8]) -> (&[u8], &[u8])
    ensures text { result.0.now ≡ front (λ b. not (b == quote)) bytes.now }
    ensures following { result.1.now ≡ drop 1 (following (λ b. not (b == quote)) bytes.now) }
{
    match split_byte(quote, bytes) {
        Some((text, following)) => (text, following),
        None => (bytes, &[]),
    }
}

/// The name of the attribute whose value comes after these bytes.
fn name_before(bytes: &[u8]) -> &[u8]
    ensures { result.now ≡ name_before bytes.now }
{
    last_name(without_gap(bytes))
}

/// The bytes without white space and `=` at their end.
fn without_gap(bytes: &[u8]) -> &[u8]
    ensures { result.now ≡ trim_end is_gap bytes.now }
{
    let count = bytes.iter().rev().take_while(|&&byte| is_gap(byte)).count();
    &bytes[..bytes.len() - count]
}

/// The name at the end of these bytes.
fn last_name(bytes: &[u8]) -> &[u8]
    ensures { result.now ≡ last_name bytes.now }
{
    let count = bytes
        .iter()
        .rev()
        .take_while(|&&byte| in_name(byte))
        .count();
    &bytes[bytes.len() - count..]
}
