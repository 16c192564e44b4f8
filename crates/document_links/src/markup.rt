//! Markup of XML, from after its `<`.
ghost use Rattle.std.specs.Prelude.{◌≡◌, ◌≤◌, length};
ghost use Rattle.document_links.specs.Markup.{before, is_end, is_quote, is_tag, len_of, markup_len, markup_of, quote_after, section_of, tag_len, through};

use crate::bytes::{after_front, parts};
use memchr::memmem;

/// What begins with a `<`.
#[derive(Clone, Copy)]
pub(crate) enum Markup {
    Comment,
    /// A CDATA section.
    Section,
    Declaration,
    Instruction,
    EndTag,
    StartTag,
}

/// What begins with a `<`, by the bytes after it.
pub(crate) fn markup_of(bytes: &[u8]) -> Markup
    ensures { result ≡ markup_of bytes.now }
{
    if bytes.starts_with(b"!--") {
        Markup::Comment
    } else if bytes.starts_with(b"![CDATA[") {
        Markup::Section
    } else if bytes.starts_with(b"!") {
        Markup::Declaration
    } else if bytes.starts_with(b"?") {
        Markup::Instruction
    } else if bytes.starts_with(b"/") {
        Markup::EndTag
    } else {
        Markup::StartTag
    }
}

/// Whether it is a tag.
pub(crate) fn is_tag(markup: Markup) -> bool
    ensures { result ≡ is_tag markup }
{
    matches!(markup, Markup::EndTag | Markup::StartTag)
}

/// The number of bytes of markup with its end, from after its `<`. Markup that does not end goes to the end of the text.
pub(crate) fn markup_len(bytes: &[u8]) -> usize
    ensures value { result ≡ markup_len bytes.now }
    ensures within { result ≤ length bytes.now }
{
    len_of(markup_of(bytes), bytes)
}

/// The number of bytes of this markup.
fn len_of(markup: Markup, bytes: &[u8]) -> usize
    ensures value { result ≡ len_of markup bytes.now }
    ensures within { result ≤ length bytes.now }
{
    match markup {
        Markup::Comment => through(b"-->", bytes),
        Markup::Section => through(b"]]>", bytes),
        Markup::Declaration => tag_len(true, bytes),
        Markup::Instruction => through(b"?>", bytes),
        Markup::EndTag => tag_len(false, bytes),
        Markup::StartTag => tag_len(false, bytes),
    }
}

/// The number of bytes to the end of the first `word`, or of all bytes if it is not there.
fn through(word: &[u8], bytes: &[u8]) -> usize
    ensures value { result ≡ through word.now bytes.now }
    ensures within { result ≤ length bytes.now }
{
    (before(word, bytes) + word.len()).min(bytes.len())
}

/// The number of bytes before the first `word`, or of all bytes if it is not there.
#[tactic(auto, using(crate::proofs::Marking::first_match, crate::proofs::Marking::match_within))]
fn before(word: &[u8], bytes: &[u8]) -> usize
    ensures value { result ≡ before word.now bytes.now }
    ensures within { result ≤ length bytes.now }
{
    memmem::find(bytes, word).unwrap_or(bytes.len())
}

/// The number of bytes of a tag with its end, or of a declaration, which also ends where its inner declarations begin. The end is
/// outside of quotes.
fn tag_len(declares: bool, bytes: &[u8]) -> usize
    ensures value { result ≡ tag_len declares 0 bytes.now }
    ensures within { result ≤ length bytes.now }
{
    let mut quote = 0;
    let mut len = 0;
    let mut rest = bytes;
    'bytes: while let Some((first, more)) = parts(rest) {
        len += 1;
        if quote == 0 && is_end(declares, first) {
            return len;
        }
        quote = quote_after(quote, first);
        rest = more;
    }
    len
}

/// Whether the byte ends a tag or a declaration.
fn is_end(declares: bool, byte: u8) -> bool
    ensures { result ≡ is_end declares byte }
{
    byte == b'>' || (declares && byte == b'[')
}

/// The quote that is open after a byte; 0 is none.
fn quote_after(quote: u8, byte: u8) -> u8
    ensures { result ≡ quote_after quote byte }
{
    if quote == 0 {
        if is_quote(byte) { byte } else { 0 }
    } else if byte == quote {
        0
    } else {
        quote
    }
}

/// Whether the byte is a quote of either kind.
pub(crate) fn is_quote(byte: u8) -> bool
    ensures { result ≡ is_quote byte }
{
    byte == b'"' || byte == b'\''
}

/// The text of a CDATA section. Other markup has none.
pub(crate) fn section_of(markup: Markup, bytes: &[u8]) -> &[u8]
    ensures { result.now ≡ section_of markup bytes.now }
{
    match markup {
        Markup::Section => after_front(8, &bytes[..before(b"]]>", bytes)]),
        _ => &[],
    }
}
