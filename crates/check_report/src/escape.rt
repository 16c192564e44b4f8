//! Escapes untrusted texts.
ghost use Rattle.std.specs.Prelude.{◌≡◌, ◌-◌, ◌≤◌, ◌++◌, IfOk, IsUtf8, OnOk, length, take_while};
ghost use Rattle.check_report.specs.Escape.{data_char, escaped, escaped_char, html_char, is_ordinary, property_char};

use crate::put::{NoMemory, put};
use shown_text::{put_shown, put_shown_char};

/// The position in the output that a text is escaped for.
#[derive(Clone, Copy)]
pub enum Escape {
    /// A line of text.
    Shown,
    /// The message of a GitHub command.
    Data,
    /// A property of a GitHub command.
    Property,
    /// An HTML element.
    Html,
}

/// Appends a text, escaped for its position. Hidden characters are escaped in every position.
#[tactic(auto, using(crate::proofs::Pieces::all_put))]
pub fn put_escaped(out: &mut Vec<u8>, how: Escape, text: &str) -> Result<(), NoMemory>
    ensures { OnOk result (out.new.items ≡ out.old.items ++ escaped how text.now) }
{
    let mut rest = text;
    'runs: while !rest.is_empty() {
        let (run, tail) = rest.split_at(ordinary_len(rest));
        put_shown(out, run)?;
        rest = put_first(out, how, tail)?;
    }
    Ok(())
}

/// The number of bytes at the start of the text that need no escape, except for those of hidden characters.
fn ordinary_len(text: &str) -> usize
    ensures { result ≡ length (take_while is_ordinary text.now) }
{
    let bytes = text.as_bytes();
    bytes.iter().take_while(|byte| is_ordinary(**byte)).count()
}

/// Whether the byte is none of LF, CR and `" % & ' , : < >`, which some position requires to be escaped.
fn is_ordinary(byte: u8) -> bool
    ensures { result ≡ is_ordinary byte }
{
    !matches!(
        byte,
        b'\n' | b'\r' | b'"' | b'%' | b'&' | b'\'' | b',' | b':' | b'<' | b'>'
    )
}

/// Appends the first character of the text, escaped, and returns the rest.
#[tactic(auto, using(crate::proofs::Pieces::char_put))]
fn put_first<'a>(out: &mut Vec<u8>, how: Escape, text: &'a str) -> Result<&'a str, NoMemory>
    ensures text { IfOk result (λ rest. out.new.items ++ escaped how rest.now ≡ out.old.items ++ escaped how text.now) }
    ensures shorter { IfOk result (λ rest. length rest.now ≤ length text.now - 1) }
    ensures utf8 { IfOk result (λ rest. IsUtf8 rest.now) }
{
    let mut rest = text.chars();
    match rest.next() {
        Some(c) => {
            put_char(out, how, c)?;
            Ok(rest.as_str())
        }
        None => Ok(text),
    }
}

/// Appends a character, escaped for its position.
fn put_char(out: &mut Vec<u8>, how: Escape, c: char) -> Result<(), NoMemory>
    ensures { OnOk result (out.new.items ≡ out.old.items ++ escaped_char how c) }
{
    match how {
        Escape::Shown => put_shown_char(out, c),
        Escape::Data => put_data_char(out, c),
        Escape::Property => put_property_char(out, c),
        Escape::Html => put_html_char(out, c),
    }
}

/// Appends a character of a message: `%`, CR and LF are percent-encoded.
fn put_data_char(out: &mut Vec<u8>, c: char) -> Result<(), NoMemory>
    ensures { OnOk result (out.new.items ≡ out.old.items ++ data_char c) }
{
    if c == '%' {
        return put(out, "%25");
    }
    if c == '\r' {
        return put(out, "%0D");
    }
    if c == '\n' {
        return put(out, "%0A");
    }
    put_shown_char(out, c)
}

/// Appends a character of a property: `:`, `,`, `%`, CR and LF are percent-encoded.
fn put_property_char(out: &mut Vec<u8>, c: char) -> Result<(), NoMemory>
    ensures { OnOk result (out.new.items ≡ out.old.items ++ property_char c) }
{
    if c == ':' {
        return put(out, "%3A");
    }
    if c == ',' {
        return put(out, "%2C");
    }
    put_data_char(out, c)
}

/// Appends a character of an element: `&`, `<`, `>`, `"` and `'` become character references.
pub fn put_html_char(out: &mut Vec<u8>, c: char) -> Result<(), NoMemory>
    ensures { OnOk result (out.new.items ≡ out.old.items ++ html_char c) }
{
    if c == '&' {
        return put(out, "&amp;");
    }
    if c == '<' {
        return put(out, "&lt;");
    }
    if c == '>' {
        return put(out, "&gt;");
    }
    if c == '"' {
        return put(out, "&#34;");
    }
    if c == '\'' {
        return put(out, "&#39;");
    }
    put_shown_char(out, c)
}
