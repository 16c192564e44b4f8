//! Escapes the hidden characters of a text.
ghost use Rattle.std.specs.Prelude.{◌≡◌, ◌-◌, ◌≤◌, ◌++◌, IfOk, IsUtf8, OnOk, length, string_bytes, take_while};
ghost use Rattle.shown_text.specs.Shown.{escape_of, is_escaped, is_hidden, is_plain, shown, shown_char, shown_char_in, shown_in, shown_lines};

use std::alloc::{AllocError, Global};

/// The kind of a text: whether it may have line feeds.
#[derive(Clone, Copy)]
pub enum Lines {
    /// A text within a line.
    One,
    /// A text of several lines.
    Several,
}

/// Appends a text, with an escape such as `\u{1b}` in place of each hidden character.
///
/// # Errors
/// Out of memory.
pub fn put_shown(out: &mut Vec<u8>, text: &str) -> Result<(), AllocError>
    ensures { OnOk result (out.new.items ≡ out.old.items ++ shown text.now) }
{
    put_text(out, Lines::One, text)
}

/// Appends a character, or its escape if it is hidden.
///
/// # Errors
/// Out of memory.
pub fn put_shown_char(out: &mut Vec<u8>, c: char) -> Result<(), AllocError>
    ensures { OnOk result (out.new.items ≡ out.old.items ++ shown_char c) }
{
    put_char(out, Lines::One, c)
}

/// The text that [`put_shown`] appends.
///
/// # Errors
/// Out of memory.
pub fn shown(alloc: Global, text: &str) -> Result<String, AllocError>
    ensures { IfOk result (λ all. string_bytes all ≡ shown text.now) }
{
    shown_in(alloc, Lines::One, text)
}

/// The same for a text of several lines: its line feeds are kept.
///
/// # Errors
/// Out of memory.
pub fn shown_lines(alloc: Global, text: &str) -> Result<String, AllocError>
    ensures { IfOk result (λ all. string_bytes all ≡ shown_lines text.now) }
{
    shown_in(alloc, Lines::Several, text)
}

/// Returns the text with an escape in place of each hidden character.
fn shown_in(alloc: Global, how: Lines, text: &str) -> Result<String, AllocError>
    ensures { IfOk result (λ all. string_bytes all ≡ shown_in how text.now) }
{
    let mut bytes = Vec::new(alloc);
    put_text(&mut bytes, how, text)?;
    match String::from_utf8(bytes) {
        Ok(all) => Ok(all),
        Err(_) => unreachable!(),
    }
}

/// Appends the text with an escape in place of each hidden character. Runs of plain bytes are copied whole.
fn put_text(out: &mut Vec<u8>, how: Lines, text: &str) -> Result<(), AllocError>
    ensures { OnOk result (out.new.items ≡ out.old.items ++ shown_in how text.now) }
{
    let mut rest = text;
    'runs: while !rest.is_empty() {
        let (run, tail) = rest.split_at(plain_len(rest));
        out.extend_from_slice(run.as_bytes())?;
        rest = put_first(out, how, tail)?;
    }
    Ok(())
}

/// The number of bytes at the start of the text with which no hidden character begins.
fn plain_len(text: &str) -> usize
    ensures { result ≡ length (take_while is_plain text.now) }
{
    let bytes = text.as_bytes();
    bytes.iter().take_while(|byte| is_plain(**byte)).count()
}

/// Whether no hidden character begins with this byte of UTF-8.
fn is_plain(byte: u8) -> bool
    ensures { result ≡ is_plain byte }
{
    byte >= b' ' && !matches!(byte, 127 | 194 | 226)
}

/// Appends the first character of the text, and returns the rest.
#[tactic(auto, using(crate::proofs::Pieces::char_put))]
fn put_first<'a>(out: &mut Vec<u8>, how: Lines, text: &'a str) -> Result<&'a str, AllocError>
    ensures text { IfOk result (λ rest. out.new.items ++ shown_in how rest.now ≡ out.old.items ++ shown_in how text.now) }
    ensures shorter { IfOk result (λ rest. length rest.now ≤ length text.now - 1) }
    ensures utf8 { IfOk result (λ rest. IsUtf8 rest.now) }
{
    let mut rest = text.chars();
    match rest.next() {
        Some(c) => {
            put_char(out, how, c)?;
            Ok(rest.as_str())
        }
        None => Ok(text),
    }
}

/// Appends the character, or its escape if it needs one.
fn put_char(out: &mut Vec<u8>, how: Lines, c: char) -> Result<(), AllocError>
    ensures { OnOk result (out.new.items ≡ out.old.items ++ shown_char_in how c) }
{
    if is_escaped(how, c) {
        return put_escape(out, c);
    }
    let mut bytes = [0; 4];
    out.extend_from_slice(c.encode_utf8(&mut bytes).as_bytes())
}

/// Whether the character needs an escape: each hidden one does, except a line feed in a text of several lines.
fn is_escaped(how: Lines, c: char) -> bool
    ensures { result ≡ is_escaped how c }
{
    match how {
        Lines::One => is_hidden(c),
        Lines::Several => is_hidden(c) && c != '\n',
    }
}

/// Whether the character is a control character, separates lines or paragraphs (U+2028, U+2029), or sets the direction of the
/// text after it (U+202A to U+202E, U+2066 to U+2069).
fn is_hidden(c: char) -> bool
    ensures { result ≡ is_hidden c }
{
    c.is_control() || matches!(c, '\u{2028}'..='\u{202e}' | '\u{2066}'..='\u{2069}')
}

/// Appends the escape of a character.
fn put_escape(out: &mut Vec<u8>, c: char) -> Result<(), AllocError>
    ensures { OnOk result (out.new.items ≡ out.old.items ++ escape_of c) }
{
    let text = escape_of(*out.allocator(), u32::from(c))?;
    out.extend_from_slice(text.as_bytes())
}

/// Returns the escape of the character with this number, such as `\u{1b}`, in lower case hexadecimal digits.
fn escape_of(alloc: Global, code: u32) -> Result<String, AllocError>
    ensures { IfOk result (λ text. string_bytes text ≡ escape_of code) }
{
    format!(in alloc; "\\u{{{code:x}}}")
}
