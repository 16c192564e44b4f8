//! Classes of bytes, and slices up to the first byte of another class.
ghost use Rattle.std.specs.Prelude.{◌≡◌, ◌∷◌, ◌==◌, [], length, not, MatchOption, take_while};
ghost use Rattle.html_links.specs.Tags.{class_of};
ghost use Rattle.html_links.specs.Shown.{front, following, is_space, in_name, in_unquoted, name_front, following_name, BeginsName, Stopped};

use crate::near::{find_byte, near_byte};

/// What a byte means within a tag.
#[derive(Clone, Copy)]
pub(crate) enum Class {
    Space,
    Slash,
    Greater,
    Equals,
    Quote,
    Apostrophe,
    Other,
}

/// The greatest byte that is white space.
const LAST_SPACE: u8 = b' ';

/// The greatest byte whose class is not `Other`: the letters of most names are above it.
pub(crate) const LAST_MARK: u8 = b'>';

/// The class of a byte.
#[inline(always)]
pub(crate) fn class_of(byte: u8) -> Class
    ensures { result ≡ class_of byte }
{
    match byte {
        9 | 10 | 12 | 13 | 32 => Class::Space,
        b'/' => Class::Slash,
        b'>' => Class::Greater,
        b'=' => Class::Equals,
        b'"' => Class::Quote,
        b'\'' => Class::Apostrophe,
        _ => Class::Other,
    }
}

/// Whether the byte is ASCII whitespace: a tab, line feed, form feed, carriage return or space.
#[inline(always)]
pub(crate) fn is_space(byte: u8) -> bool
    ensures { result ≡ is_space byte }
{
    byte <= LAST_SPACE && matches!(class_of(byte), Class::Space)
}

/// Whether the byte continues the name of an attribute. White space, `/`, `>` and `=` end the name.
#[inline(always)]
fn in_name(byte: u8) -> bool
    ensures { result ≡ in_name byte }
{
    byte > LAST_MARK
        || !matches!(
            class_of(byte),
            Class::Space | Class::Slash | Class::Greater | Class::Equals
        )
}

/// Whether the byte continues a value without quotes. White space and `>` end the value.
#[inline(always)]
fn in_unquoted(byte: u8) -> bool
    ensures { result ≡ in_unquoted byte }
{
    byte > LAST_MARK || !matches!(class_of(byte), Class::Space | Class::Greater)
}

/// The number of white space bytes at the front.
fn space_len(bytes: &[u8]) -> usize
    ensures { result ≡ length (take_while is_space bytes.now) }
{
    bytes.iter().take_while(|byte| is_space(**byte)).count()
}

/// The number of bytes at the front that continue the name of an attribute.
fn name_len(bytes: &[u8]) -> usize
    ensures { result ≡ length (take_while in_name bytes.now) }
{
    bytes.iter().take_while(|byte| in_name(**byte)).count()
}

/// The number of bytes at the front that continue a value without quotes.
fn unquoted_len(bytes: &[u8]) -> usize
    ensures { result ≡ length (take_while in_unquoted bytes.now) }
{
    bytes.iter().take_while(|byte| in_unquoted(**byte)).count()
}

/// The first byte and the bytes after it. `None` if there are no bytes.
pub(crate) fn parts(bytes: &[u8]) -> Option<(u8, &[u8])>
    ensures { MatchOption result (bytes.now ≡ []) (λ x. bytes.now ≡ x.0 ∷ x.1.now) }
{
    match bytes.split_first() {
        Some((first, more)) => Some((*first, more)),
        None => None,
    }
}

/// The bytes after this byte, if it is the first.
pub(crate) fn after_byte(byte: u8, bytes: &[u8]) -> Option<&[u8]>
    ensures { MatchOption result (Stopped (λ c. c == byte) bytes.now) (λ more. bytes.now ≡ byte ∷ more.now) }
{
    let Some((first, more)) = parts(bytes) else {
        return None;
    };
    if first == byte { Some(more) } else { None }
}

/// The bytes after the white space at the front, if there is any.
#[tactic(auto, using(std::proofs::lemmas::List::take_rest, crate::proofs::Cuts::after_cut, crate::proofs::Jumps::stopped))]
pub(crate) fn skip_space(bytes: &[u8]) -> &[u8]
    ensures skipped { result.now ≡ following is_space bytes.now }
    ensures stopped { Stopped is_space result.now }
{
    &bytes[space_len(bytes)..]
}

/// The name of the attribute that begins here, and the bytes after it. An `=` is part of the name only as its first byte.
#[tactic(auto, using(crate::proofs::Cuts::name_cut))]
pub(crate) fn split_name(bytes: &[u8]) -> (&[u8], &[u8])
    requires { BeginsName bytes.now }
    ensures name { result.0.now ≡ name_front bytes.now }
    ensures rest { result.1.now ≡ following_name bytes.now }
{
    bytes.split_at(1 + name_len(&bytes[1..]))
}

/// A value without quotes, which may be empty, and the bytes from the white space or `>` that ends it.
#[tactic(auto, using(crate::proofs::Cuts::front_cut, crate::proofs::Cuts::after_cut))]
pub(crate) fn split_unquoted(bytes: &[u8]) -> (&[u8], &[u8])
    ensures value { result.0.now ≡ front in_unquoted bytes.now }
    ensures rest { result.1.now ≡ following in_unquoted bytes.now }
{
    bytes.split_at(unquoted_len(bytes))
}

/// The bytes before the first such quote, and those after it.
#[inline(always)]
#[tactic(auto, using(std::proofs::lemmas::List::take_rest, crate::proofs::Cuts::quote_cut, crate::proofs::Cuts::no_quote))]
pub(crate) fn split_quoted(quote: u8, bytes: &[u8]) -> Option<(&[u8], &[u8])>
    ensures { MatchOption result (following (λ c. not (c == quote)) bytes.now ≡ [])
        (λ x. (x.0.now ≡ front (λ c. not (c == quote)) bytes.now) × (quote ∷ x.1.now ≡ following (λ c. not (c == quote)) bytes.now)) }
{
    match near_byte(quote, bytes) {
        Some(end) => Some((&bytes[..end], &bytes[end + 1..])),
        None => None,
    }
}

/// The bytes after the first such byte, which may be far.
#[inline(always)]
#[tactic(auto, using(std::proofs::lemmas::List::take_rest, crate::proofs::Cuts::quote_cut, crate::proofs::Cuts::no_quote))]
pub(crate) fn after_first(byte: u8, bytes: &[u8]) -> Option<&[u8]>
    ensures { MatchOption result (following (λ c. not (c == byte)) bytes.now ≡ []) (λ rest. byte ∷ rest.now ≡ following (λ c. not (c == byte)) bytes.now) }
{
    match find_byte(byte, bytes) {
        Some(end) => Some(&bytes[end + 1..]),
        None => None,
    }
}
