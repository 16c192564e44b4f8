//! Character references in the values of attributes.
ghost use Rattle.std.specs.Prelude.{◌≡◌, ◌==◌, ◌≤◌, ◌<◌, ◌∷◌, ◌++◌, [], length, take, OnOk, MatchOption, false};
ghost use Rattle.std.specs.List.{take_while, position_or_len};
ghost use Rattle.std.specs.Char.{is_ascii_alphanumeric, encode_utf8};
ghost use Rattle.html_links.specs.Names.{bytes_at};
ghost use Rattle.html_links.specs.Shown.{front, following, Stopped};
ghost use Rattle.html_links.specs.References.{Text, Reference, Name, Hash, Start, Number, read, text_of, character_of, number_after, digit_in, or_itself};
ghost use Rattle.html_links.specs.Decoding.{is_mark, is_plain, in_base, decoded_text, Decodes};

use crate::bytes::{after_byte, parts};
use crate::names::named;
use memchr::memchr2;
use std::alloc::AllocError;
use std::simd::prelude::*;

/// The number of bytes of a value that are tested together.
const LANES: usize = 16;

/// What an `&` and the bytes after it mean: the `&` with some of them, a character, or the text of a name.
#[derive(Clone, Copy)]
pub(crate) enum Decoded<'a> {
    Itself(&'a [u8]),
    Character(char),
    Named(&'static [u8]),
}

/// Whether the text of the value differs from it: it has an `&` or a NUL. The last bytes are tested together with some before them.
#[tactic(auto, using(crate::proofs::Nearness::marks_more, std::proofs::lemmas::List::take_rest, crate::proofs::Nearness::itself))]
pub(crate) fn is_coded(value: &[u8]) -> bool
    ensures { result ≡ false → text_of value.now ≡ value.now }
{
    if value.len() < LANES {
        return has_mark(value);
    }
    let last = value.len() - LANES;
    let mut at = 0;
    'marks: while at < last {
        if is_marked(&value[at..]) {
            return true;
        }
        at += LANES;
    }
    is_marked(&value[last..])
}

/// Whether a value of any length has an `&` or a NUL.
fn has_mark(value: &[u8]) -> bool
    ensures { result ≡ false → text_of value.now ≡ value.now }
{
    match memchr2(b'&', 0, value) {
        Some(_) => true,
        None => false,
    }
}

/// Whether an `&` or a NUL is among the first bytes.
#[inline(always)]
#[tactic(auto, using(crate::proofs::Nearness::none_marked, std::proofs::lemmas::Simd::zip2_splat))]
fn is_marked(bytes: &[u8]) -> bool
    requires { LANES ≤ length bytes.now }
    ensures { result ≡ false → position_or_len is_mark (take LANES bytes.now) ≡ LANES }
{
    let lanes = u8x16::from_slice(bytes);
    let marks = lanes.simd_eq(u8x16::splat(b'&')) | lanes.simd_eq(u8x16::splat(0));
    marks.to_bitmask() != 0
}

/// The bytes before the first `&` or NUL, and those from it on.
fn split_plain(bytes: &[u8]) -> (&[u8], &[u8])
    ensures plain { result.0.now ≡ front is_plain bytes.now }
    ensures rest { result.1.now ≡ following is_plain bytes.now }
    ensures stopped { Stopped is_plain result.1.now }
{
    match memchr2(b'&', 0, bytes) {
        Some(end) => bytes.split_at(end),
        None => (bytes, &[]),
    }
}

/// Appends the text of a value: its references decoded, and each NUL as U+FFFD.
#[tactic(auto, using(crate::proofs::Jumps::shorter))]
pub(crate) fn decode(value: &[u8], out: &mut Vec<u8>) -> Result<(), AllocError>
    ensures { OnOk result (out.new.items ≡ out.old.items ++ text_of value.now) }
{
    let mut rest = value;
    'marks: loop {
        let (plain, marked) = split_plain(rest);
        out.extend_from_slice(plain)?;
        let Some((found, more)) = decode_mark(marked) else {
            return Ok(());
        };
        push_decoded(found, out)?;
        rest = more;
    }
}

/// Appends the text of what was decoded. Bytes that are not a reference are appended as written, with their `&`.
fn push_decoded(found: Decoded<'_>, out: &mut Vec<u8>) -> Result<(), AllocError>
    ensures { OnOk result (out.new.items ≡ out.old.items ++ decoded_text found.entry) }
{
    match found {
        Decoded::Itself(bytes) => {
            out.push(b'&')?;
            out.extend_from_slice(bytes)
        }
        Decoded::Character(character) => push_character(character, out),
        Decoded::Named(text) => out.extend_from_slice(text),
    }
}

/// Appends the character in UTF-8.
pub(crate) fn push_character(character: char, out: &mut Vec<u8>) -> Result<(), AllocError>
    ensures { OnOk result (out.new.items ≡ out.old.items ++ encode_utf8 character) }
{
    let mut buffer = [0; 4];
    let text = character.encode_utf8(&mut buffer);
    out.extend_from_slice(text.as_bytes())
}

/// What an `&` or a NUL at the front means, and the bytes after it.
fn decode_mark(bytes: &[u8]) -> Option<(Decoded<'_>, &[u8])>
    requires { Stopped is_plain bytes.now }
    ensures reads { MatchOption result (bytes.now ≡ []) (λ x. Decodes Text bytes.now x.0 x.1.now) }
    ensures leaves { MatchOption result (bytes.now ≡ []) (λ x. length x.1.now < length bytes.now) }
{
    let Some((first, more)) = parts(bytes) else {
        return None;
    };
    if first == b'&' {
        Some(reference(more))
    } else {
        Some((Decoded::Character(char::REPLACEMENT_CHARACTER), more))
    }
}

/// What an `&` before these bytes means, and the bytes after it.
fn reference(bytes: &[u8]) -> (Decoded<'_>, &[u8])
    ensures reads { Decodes Reference bytes.now result.0 result.1.now }
    ensures leaves { length result.1.now ≤ length bytes.now }
{
    let Some((first, more)) = parts(bytes) else {
        return (Decoded::Itself(&[]), bytes);
    };
    if first == b'#' {
        numbered(more)
    } else if first.is_ascii_alphanumeric() {
        name(bytes)
    } else {
        (Decoded::Itself(&[]), bytes)
    }
}

/// What an `&#` before these bytes means.
fn numbered(bytes: &[u8]) -> (Decoded<'_>, &[u8])
    ensures reads { Decodes Hash bytes.now result.0 result.1.now }
    ensures leaves { length result.1.now ≤ length bytes.now }
{
    let Some((first, more)) = parts(bytes) else {
        return (Decoded::Itself(b"#"), bytes);
    };
    if first == b'x' {
        number(16, b"#x", more)
    } else if first == b'X' {
        number(16, b"#X", more)
    } else {
        number(10, b"#", bytes)
    }
}

/// The value of a byte as a digit to a base from 2 to 36. Letters may be in either case. `None` if it is no such digit.
pub(crate) fn digit_in(radix: u32, byte: u8) -> Option<u32>
    requires low { 2 ≤ radix }
    requires high { radix ≤ 36 }
    ensures { result ≡ digit_in radix byte }
{
    (byte as char).to_digit(radix)
}

/// The number with one more digit. A number above all characters stays as it is, so that it never overflows.
pub(crate) fn number_after(radix: u32, number: u64, digit: u32) -> u64
    requires { radix ≤ 36 }
    ensures { result ≡ number_after radix number digit }
{
    if number < 0x11_0000 {
        number * u64::from(radix) + u64::from(digit)
    } else {
        number
    }
}

/// What a number to a base means, after an `&` and these bytes.
fn number<'a>(radix: u32, before: &'static [u8], bytes: &'a [u8]) -> (Decoded<'a>, &'a [u8])
    requires low { 2 ≤ radix }
    requires high { radix ≤ 36 }
    ensures reads { Decodes (Start radix before.now) bytes.now result.0 result.1.now }
    ensures leaves { length result.1.now ≤ length bytes.now }
{
    let Some((first, more)) = parts(bytes) else {
        return (Decoded::Itself(before), bytes);
    };
    let Some(digit) = digit_in(radix, first) else {
        return (Decoded::Itself(before), bytes);
    };
    let (number, rest) = more_digits(radix, u64::from(digit), more);
    let found = Decoded::Character(character_of(number));
    match after_byte(b';', rest) {
        Some(last) => (found, last),
        None => (found, rest),
    }
}

/// The number with the digits that follow, and the bytes after them.
fn more_digits(radix: u32, first: u64, bytes: &[u8]) -> (u64, &[u8])
    requires low { 2 ≤ radix }
    requires high { radix ≤ 36 }
    ensures reads { read (Number radix first) bytes.now ≡ read (Number radix result.0) result.1.now }
    ensures stopped { Stopped (in_base radix) result.1.now }
    ensures leaves { length result.1.now ≤ length bytes.now }
{
    let mut number = first;
    let mut rest = bytes;
    'digits: loop {
        let Some((byte, more)) = parts(rest) else {
            return (number, rest);
        };
        let Some(digit) = digit_in(radix, byte) else {
            return (number, rest);
        };
        number = number_after(radix, number, digit);
        rest = more;
    }
}

/// The characters of the numbers 0x80 to 0x9f, which are those of Windows.
pub(crate) static WINDOWS: [char; 32] = [
    '\u{20ac}', '\u{81}', '\u{201a}', '\u{192}', '\u{201e}', '\u{2026}', '\u{2020}', '\u{2021}',
    '\u{2c6}', '\u{2030}', '\u{160}', '\u{2039}', '\u{152}', '\u{8d}', '\u{17d}', '\u{8f}',
    '\u{90}', '\u{2018}', '\u{2019}', '\u{201c}', '\u{201d}', '\u{2022}', '\u{2013}', '\u{2014}',
    '\u{2dc}', '\u{2122}', '\u{161}', '\u{203a}', '\u{153}', '\u{9d}', '\u{17e}', '\u{178}',
];

/// The character of a numeric reference: U+FFFD for 0, a surrogate or too great a number, one of `WINDOWS` for 0x80 to 0x9f.
fn character_of(number: u64) -> char
    ensures { result ≡ character_of number }
{
    if number == 0 {
        char::REPLACEMENT_CHARACTER
    } else if 0x80 <= number && number <= 0x9f {
        WINDOWS[(number - 0x80) as usize]
    } else if number < 0x11_0000 {
        char::from_u32(number as u32).unwrap_or(char::REPLACEMENT_CHARACTER)
    } else {
        char::REPLACEMENT_CHARACTER
    }
}

/// Whether the byte continues the name of a character reference: it is an ASCII letter or digit.
fn in_name(byte: u8) -> bool
    ensures { result ≡ is_ascii_alphanumeric byte }
{
    byte.is_ascii_alphanumeric()
}

/// The number of ASCII letters and digits at the front.
fn name_len(bytes: &[u8]) -> usize
    ensures { result ≡ length (take_while is_ascii_alphanumeric bytes.now) }
{
    bytes.iter().take_while(|byte| in_name(**byte)).count()
}

/// The ASCII letters and digits at the front, and the bytes after them.
#[tactic(auto, using(crate::proofs::Cuts::front_cut, crate::proofs::Cuts::after_cut, crate::proofs::Jumps::stopped))]
fn split_name(bytes: &[u8]) -> (&[u8], &[u8])
    ensures name { result.0.now ≡ front is_ascii_alphanumeric bytes.now }
    ensures rest { result.1.now ≡ following is_ascii_alphanumeric bytes.now }
    ensures stopped { Stopped is_ascii_alphanumeric result.1.now }
{
    bytes.split_at(name_len(bytes))
}

/// What an `&` before a name means.
#[tactic(auto, using(crate::proofs::Decoding::name_run, crate::proofs::Jumps::shorter))]
fn name(bytes: &[u8]) -> (Decoded<'_>, &[u8])
    ensures reads { Decodes (Name []) bytes.now result.0 result.1.now }
    ensures leaves { length result.1.now ≤ length bytes.now }
{
    let (name, rest) = split_name(bytes);
    match after_byte(b';', rest) {
        Some(last) => closed_name(name, rest, last),
        None => open_name(name, rest),
    }
}

/// What an `&` and a name mean if a `;` is after the name.
#[tactic(auto, using(crate::proofs::Decoding::text_after))]
fn closed_name<'a>(name: &'a [u8], rest: &'a [u8], last: &'a [u8]) -> (Decoded<'a>, &'a [u8])
    requires { rest.now ≡ 59 ∷ last.now }
    ensures reads { Decodes (Name name.now) rest.now result.0 result.1.now }
    ensures leaves { length result.1.now ≤ length rest.now }
{
    match named(true, name) {
        Some(text) => (Decoded::Named(text), last),
        None => (Decoded::Itself(name), rest),
    }
}

/// What an `&` and a name mean if no `;` is after the name.
#[tactic(auto, using(crate::proofs::Decoding::text_after, crate::proofs::Decoding::open_name))]
fn open_name<'a>(name: &'a [u8], rest: &'a [u8]) -> (Decoded<'a>, &'a [u8])
    requires letter { Stopped is_ascii_alphanumeric rest.now }
    requires semicolon { Stopped (λ c. c == 59) rest.now }
    ensures reads { Decodes (Name name.now) rest.now result.0 result.1.now }
    ensures leaves { length result.1.now ≤ length rest.now }
{
    match after_byte(b'=', rest) {
        Some(_) => (Decoded::Itself(name), rest),
        None => (or_itself(name, named(false, name)), rest),
    }
}

/// The text of a name. If it has none, the name is no reference, and is kept with the `&` before it.
fn or_itself<'a>(name: &'a [u8], text: Option<&'static [u8]>) -> Decoded<'a>
    ensures { decoded_text result ≡ or_itself name.now (bytes_at text.entry) }
{
    match text {
        Some(text) => Decoded::Named(text),
        None => Decoded::Itself(name),
    }
}
