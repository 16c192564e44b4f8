//! The text of XML in which references are decoded.
ghost use Rattle.std.specs.Prelude.{◌≡◌, ◌≤◌, ◌++◌, [], length, IfOk, OnOk};
ghost use Rattle.std.specs.Option.{option_and_then};
ghost use Rattle.std.specs.Char.{encode_utf8};
ghost use Rattle.html_links.specs.References.{digit_in, number_after};
ghost use Rattle.html_links.specs.Shown.{following, front, Stopped};
ghost use Rattle.document_links.specs.Unescaped.{Reference, character_named, character_of, in_reference, meaning_of, number_from, number_of, unescaped, unescaped_from};

use crate::bytes::{after_byte, after_front, parts, split_byte};
use memchr::memchr2;
use std::alloc::AllocError;

/// Appends a text with its references decoded. A reference without a meaning stays unchanged.
#[tactic(auto, using(crate::proofs::Unescaping::all_plain))]
pub(crate) fn push_unescaped(text: &[u8], out: &mut Vec<u8>) -> Result<(), AllocError>
    ensures { OnOk result (out.new.items ≡ out.old.items ++ unescaped text.now) }
{
    let mut rest = text;
    'references: loop {
        let Some((plain, opened)) = split_byte(b'&', rest) else {
            return out.extend_from_slice(rest);
        };
        out.extend_from_slice(plain)?;
        rest = push_reference(opened, out)?;
    }
}

/// Appends the text of a reference, from after its `&`, and returns the bytes after it. Without its `;` it stays unchanged.
#[tactic(auto, using(html_links::proofs::Jumps::shorter))]
fn push_reference<'a>(bytes: &'a [u8], out: &mut Vec<u8>) -> Result<&'a [u8], AllocError>
    ensures reads { IfOk result (λ rest. out.new.items ++ unescaped rest.now ≡ out.old.items ++ unescaped_from (Reference []) bytes.now) }
    ensures leaves { IfOk result (λ rest. length rest.now ≤ length bytes.now) }
{
    let (name, more) = split_name(bytes);
    match after_byte(b';', more) {
        Some(rest) => {
            push_meaning(name, out)?;
            Ok(rest)
        }
        None => {
            out.push(b'&')?;
            out.extend_from_slice(name)?;
            Ok(more)
        }
    }
}

/// The bytes before the first `;` or `&`, and those from it on.
#[tactic(auto, using(html_links::proofs::Jumps::stopped))]
fn split_name(bytes: &[u8]) -> (&[u8], &[u8])
    ensures name { result.0.now ≡ front in_reference bytes.now }
    ensures rest { result.1.now ≡ following in_reference bytes.now }
    ensures stopped { Stopped in_reference result.1.now }
{
    match memchr2(b';', b'&', bytes) {
        Some(end) => bytes.split_at(end),
        None => (bytes, &[]),
    }
}

/// Appends the text for a name between `&` and `;`.
fn push_meaning(name: &[u8], out: &mut Vec<u8>) -> Result<(), AllocError>
    ensures { OnOk result (out.new.items ≡ out.old.items ++ meaning_of name.now) }
{
    match character_named(name) {
        Some(character) => push_character(character, out),
        None => {
            out.push(b'&')?;
            out.extend_from_slice(name)?;
            out.push(b';')?;
            Ok(())
        }
    }
}

/// Appends the character in UTF-8.
fn push_character(character: char, out: &mut Vec<u8>) -> Result<(), AllocError>
    ensures { OnOk result (out.new.items ≡ out.old.items ++ encode_utf8 character) }
{
    let mut buffer = [0; 4];
    let text = character.encode_utf8(&mut buffer);
    out.extend_from_slice(text.as_bytes())
}

/// The character for a name between `&` and `;`.
fn character_named(name: &[u8]) -> Option<char>
    ensures { result ≡ character_named name.now }
{
    if name == b"amp".as_slice() {
        Some('&')
    } else if name == b"lt".as_slice() {
        Some('<')
    } else if name == b"gt".as_slice() {
        Some('>')
    } else if name == b"quot".as_slice() {
        Some('"')
    } else if name == b"apos".as_slice() {
        Some('\'')
    } else {
        numbered(name)
    }
}

/// The character whose number is in a name.
fn numbered(name: &[u8]) -> Option<char>
    ensures { result ≡ option_and_then character_of (number_of name.now) }
{
    match number_of(name) {
        Some(number) => character_of(number),
        None => None,
    }
}

/// The number in a name: `#x` and hexadecimal digits, or `#` and decimal digits.
fn number_of(name: &[u8]) -> Option<u64>
    ensures { result ≡ number_of name.now }
{
    if name.starts_with(b"#x") {
        number_in(16, after_front(2, name))
    } else if name.starts_with(b"#") {
        number_in(10, after_front(1, name))
    } else {
        None
    }
}

/// The number with these digits in a base. `None` if a byte is not such a digit.
fn number_in(radix: u32, digits: &[u8]) -> Option<u64>
    requires low { 2 ≤ radix }
    requires high { radix ≤ 36 }
    ensures { result ≡ number_from radix 0 digits.now }
{
    let mut number = 0;
    let mut rest = digits;
    'digits: while let Some((first, more)) = parts(rest) {
        let Some(digit) = digit_in(radix, first) else {
            return None;
        };
        number = number_after(radix, number, digit);
        rest = more;
    }
    Some(number)
}

/// The value of a byte as a digit in a base. `None` if it is not such a digit.
fn digit_in(radix: u32, byte: u8) -> Option<u32>
    requires low { 2 ≤ radix }
    requires high { radix ≤ 36 }
    ensures { result ≡ digit_in radix byte }
{
    (byte as char).to_digit(radix)
}

/// The number with one more digit. A number above all characters stays as it is, so that it never overflows.
fn number_after(radix: u32, number: u64, digit: u32) -> u64
    requires { radix ≤ 36 }
    ensures { result ≡ number_after radix number digit }
{
    if number < 0x11_0000 {
        number * u64::from(radix) + u64::from(digit)
    } else {
        number
    }
}

/// The character with this number: neither 0 nor a surrogate.
fn character_of(number: u64) -> Option<char>
    ensures { result ≡ character_of number }
{
    if number == 0 || number >= 0x11_0000 {
        None
    } else {
        char::from_u32(number as u32)
    }
}
