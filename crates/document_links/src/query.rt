//! The queries of links on pages that are not in UTF-8.
use crate::charset::windows_byte;
use crate::cleaning::without_fragment;
use crate::scheme::{is_web, scheme_of};
use memchr::memchr;
use std::alloc::AllocError;

/// Appends a link. The letters in its query are percent-encoded in windows-1252.
pub(crate) fn push_with_query(link: &[u8], out: &mut Vec<u8>) -> Result<(), AllocError> {
    let front = without_fragment(link);
    let query = match memchr(b'?', front) {
        Some(mark) => mark,
        None => front.len(),
    };
    if !is_web(scheme_of(link)) {
        return out.extend_from_slice(link);
    }
    let (path, query) = front.split_at(query);
    out.extend_from_slice(path)?;
    push_query(query, out)?;
    out.extend_from_slice(link.get(front.len()..).unwrap_or(&[]))
}

/// Appends a query, with each character above ASCII percent-encoded. One that is not UTF-8 is appended unchanged.
fn push_query(query: &[u8], out: &mut Vec<u8>) -> Result<(), AllocError> {
    let Ok(text) = str::from_utf8(query) else {
        return out.extend_from_slice(query);
    };
    for character in text.chars() {
        push_in_query(character, out)?;
    }
    Ok(())
}

/// Appends a character of a query. One that windows-1252 lacks becomes the character reference `&#N;`, percent-encoded.
fn push_in_query(character: char, out: &mut Vec<u8>) -> Result<(), AllocError> {
    if character.is_ascii() {
        let mut buffer = [0; 4];
        return out.extend_from_slice(character.encode_utf8(&mut buffer).as_bytes());
    }
    match windows_byte(character) {
        Some(byte) => push_escape(byte, out),
        None => push_reference(character, out),
    }
}

/// Appends the character reference `&#N;` of a character, percent-encoded.
fn push_reference(character: char, out: &mut Vec<u8>) -> Result<(), AllocError> {
    out.extend_from_slice(b"%26%23")?;
    let number = u32::from(character).to_string(*out.allocator())?;
    out.extend_from_slice(number.as_bytes())?;
    out.extend_from_slice(b"%3B")
}

static DIGITS: [u8; 16] = *b"0123456789ABCDEF";

/// Appends the byte percent-encoded, with upper case digits.
fn push_escape(byte: u8, out: &mut Vec<u8>) -> Result<(), AllocError> {
    out.extend_from_slice(&[
        b'%',
        DIGITS[(byte / 16) as usize],
        DIGITS[(byte % 16) as usize],
    ])
}
