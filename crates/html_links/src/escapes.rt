//! Escapes in the URLs of style sheets.
ghost use Rattle.std.specs.Prelude.{◌≡◌, ◌++◌, OnOk};
ghost use Rattle.html_links.specs.Escapes.{at_end, byte_text, character_of, ended_state, escaped_text, escaped_with, is_break, is_escaped, is_hex, numbered_text, numbered_with, plain_state, unescaped_text, state_after, step_text, unescaped};

use crate::bytes::{is_space, parts};
use crate::references::{digit_in, number_after, push_character};
use std::alloc::AllocError;

/// What is before a byte in a URL of a style sheet.
#[derive(Clone, Copy)]
pub(crate) enum State {
    /// Bytes that are not part of an escape.
    Plain,
    Backslash,
    /// A backslash and hexadecimal digits: their number, and how many they are.
    Number(u64, u8),
    /// A carriage return that is part of an escape.
    Return,
}

/// Appends a URL of a style sheet with its escapes decoded, and with U+FFFD for each NUL.
pub(crate) fn push_unescaped(text: &[u8], out: &mut Vec<u8>) -> Result<(), AllocError>
    ensures { OnOk result (out.new.items ≡ out.old.items ++ unescaped text.now) }
{
    let mut state = State::Plain;
    let mut rest = text;
    'bytes: while let Some((first, more)) = parts(rest) {
        push_step(state, first, out)?;
        state = state_after(state, first);
        rest = more;
    }
    push_end(state, out)
}

/// Appends the text that a byte adds in a state.
fn push_step(state: State, byte: u8, out: &mut Vec<u8>) -> Result<(), AllocError>
    ensures { OnOk result (out.new.items ≡ out.old.items ++ step_text state byte) }
{
    match state {
        State::Plain => push_plain(byte, out),
        State::Backslash => push_escaped(byte, out),
        State::Number(number, count) => push_numbered(number, count, byte, out),
        State::Return => if byte == b'\n' {
            Ok(())
        } else {
            push_plain(byte, out)
        },
    }
}

/// The state after a byte.
pub(crate) fn state_after(state: State, byte: u8) -> State
    ensures { result ≡ state_after state byte }
{
    match state {
        State::Plain => plain_state(byte),
        State::Backslash => escaped_with(byte, digit_in(16, byte)),
        State::Number(number, count) => numbered_with(number, count, byte, digit_in(16, byte)),
        State::Return => if byte == b'\n' {
            State::Plain
        } else {
            plain_state(byte)
        },
    }
}

/// Whether the byte is part of an escape: the first one after a backslash, a digit of a number, white space after it, or the rest of
/// a line break.
pub(crate) fn is_escaped(state: State, byte: u8) -> bool
    ensures { result ≡ is_escaped state byte }
{
    match state {
        State::Plain => false,
        State::Backslash => true,
        State::Number(_, count) => is_space(byte) || is_hex(byte) && count < 6,
        State::Return => byte == b'\n',
    }
}

/// Appends the text that a state adds at the end.
fn push_end(state: State, out: &mut Vec<u8>) -> Result<(), AllocError>
    ensures { OnOk result (out.new.items ≡ out.old.items ++ at_end state) }
{
    match state {
        State::Number(number, _) => push_character(character_of(number), out),
        _ => Ok(()),
    }
}

/// Appends the text of a byte that is not part of an escape, or that begins one.
fn push_plain(byte: u8, out: &mut Vec<u8>) -> Result<(), AllocError>
    ensures { OnOk result (out.new.items ≡ out.old.items ++ unescaped_text byte) }
{
    if byte == b'\\' {
        Ok(())
    } else {
        push_byte(byte, out)
    }
}

/// Appends a byte, or U+FFFD for NUL.
fn push_byte(byte: u8, out: &mut Vec<u8>) -> Result<(), AllocError>
    ensures { OnOk result (out.new.items ≡ out.old.items ++ byte_text byte) }
{
    if byte == 0 {
        return push_character(char::REPLACEMENT_CHARACTER, out);
    }
    out.push(byte)?;
    Ok(())
}

/// The state after a byte that is not part of an escape, or that begins one.
fn plain_state(byte: u8) -> State
    ensures { result ≡ plain_state byte }
{
    if byte == b'\\' {
        State::Backslash
    } else {
        State::Plain
    }
}

/// Whether the byte is a line break, which a carriage return is too.
pub(crate) fn is_break(byte: u8) -> bool
    ensures { result ≡ is_break byte }
{
    byte == b'\n' || byte == 12 || byte == b'\r'
}

/// Whether the byte is a hexadecimal digit.
fn is_hex(byte: u8) -> bool
    ensures { result ≡ is_hex byte }
{
    match digit_in(16, byte) {
        Some(_) => true,
        None => false,
    }
}

/// Appends the text of a byte after a backslash: none for a digit of a number, and for a line break.
fn push_escaped(byte: u8, out: &mut Vec<u8>) -> Result<(), AllocError>
    ensures { OnOk result (out.new.items ≡ out.old.items ++ escaped_text byte) }
{
    if is_hex(byte) || is_break(byte) {
        Ok(())
    } else {
        push_byte(byte, out)
    }
}

/// The state after a byte after a backslash, which may be a hexadecimal digit.
fn escaped_with(byte: u8, digit: Option<u32>) -> State
    ensures { result ≡ escaped_with byte digit }
{
    match digit {
        Some(digit) => State::Number(u64::from(digit), 1),
        None => if byte == b'\r' {
            State::Return
        } else {
            State::Plain
        },
    }
}

/// Appends the text of a byte after this number, which has at most six digits.
fn push_numbered(number: u64, count: u8, byte: u8, out: &mut Vec<u8>) -> Result<(), AllocError>
    ensures { OnOk result (out.new.items ≡ out.old.items ++ numbered_text number count byte) }
{
    if is_hex(byte) && count < 6 {
        return Ok(());
    }
    push_character(character_of(number), out)?;
    if is_space(byte) {
        Ok(())
    } else {
        push_plain(byte, out)
    }
}

/// The state after a byte after this number, which may be a hexadecimal digit.
fn numbered_with(number: u64, count: u8, byte: u8, digit: Option<u32>) -> State
    ensures { result ≡ numbered_with number count byte digit }
{
    match digit {
        Some(digit) => if count < 6 {
            State::Number(number_after(16, number, digit), count + 1)
        } else {
            ended_state(byte)
        },
        None => ended_state(byte),
    }
}

/// The state after the byte that ends a number.
fn ended_state(byte: u8) -> State
    ensures { result ≡ ended_state byte }
{
    if byte == b'\r' {
        State::Return
    } else if is_space(byte) {
        State::Plain
    } else {
        plain_state(byte)
    }
}

/// The character with this number: U+FFFD for 0, a surrogate or too great a number.
fn character_of(number: u64) -> char
    ensures { result ≡ character_of number }
{
    if number == 0 {
        char::REPLACEMENT_CHARACTER
    } else if number < 0x11_0000 {
        char::from_u32(number as u32).unwrap_or(char::REPLACEMENT_CHARACTER)
    } else {
        char::REPLACEMENT_CHARACTER
    }
}
