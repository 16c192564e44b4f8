//! The first bytes of a document.
ghost use Rattle.std.specs.Prelude.{◌≡◌, ◌≤◌, ◌<◌, true, length, take, take_while, IfSome, IsAscii, MatchOption, None, Some};
ghost use Rattle.std.specs.List.{list_any};
ghost use Rattle.document_links.specs.Encoding.{without_mark};
ghost use Rattle.document_links.specs.Sniffing.{after_blanks, after_declaration, begins_document, begins_doctype, begins_late, begins_word, ends_before_document, in_word, is_blank, is_document};
ghost use Rattle.document_links.specs.Starts.{after_word, begins_in_any_case, start_of};

use crate::bytes::{first_bytes, parts, split_byte};
use memchr::memmem;

/// The number of bytes at the start of a file that are searched for whether it is a document, and for its encoding.
pub const START_LENGTH: usize = 1024;

/// The first bytes of a file.
pub(crate) fn start_of(body: &[u8]) -> &[u8]
    ensures { result.now ≡ start_of body.now }
{
    first_bytes(START_LENGTH, body)
}

/// Whether a file with this content is a document, by its first bytes.
pub fn is_document(body: &[u8]) -> bool
    ensures { result ≡ is_document body.now }
{
    begins_late(after_declaration(skip_blanks(without_mark(start_of(body)))))
}

/// Whether a document starts here or after a comment.
fn begins_late(text: &[u8]) -> bool
    ensures { result ≡ begins_late text.now }
{
    begins_document(text) || (text.starts_with(b"<!--") && ends_before_document(&text[4..]))
}

/// The text after an XML declaration and the white space after it, if there is one.
fn after_declaration(text: &[u8]) -> &[u8]
    ensures { result.now ≡ after_declaration text.now }
{
    if !begins_in_any_case(text, b"<?xml") {
        return text;
    }
    match split_byte(b'>', text) {
        Some((_, rest)) => skip_blanks(rest),
        None => &[],
    }
}

/// The document without the byte order mark of UTF-8.
pub(crate) fn without_mark(body: &[u8]) -> &[u8]
    ensures ascii { IsAscii body.now → result.now ≡ body.now }
    ensures mark { result.now ≡ without_mark body.now }
{
    match body {
        [0xef, 0xbb, 0xbf, following @ ..] => following,
        _ => body,
    }
}

/// Returns the bytes from the first one on that is not white space. Vertical tabs count as white space here.
#[tactic(auto, using(std::proofs::lemmas::List::take_rest, html_links::proofs::Cuts::after_cut))]
fn skip_blanks(bytes: &[u8]) -> &[u8]
    ensures { result.now ≡ after_blanks bytes.now }
{
    &bytes[blank_len(bytes)..]
}

/// The number of bytes of white space at the front.
fn blank_len(bytes: &[u8]) -> usize
    ensures { result ≡ length (take_while is_blank bytes.now) }
{
    bytes.iter().take_while(|byte| is_blank(**byte)).count()
}

/// Whether the byte is white space.
fn is_blank(byte: u8) -> bool
    ensures { result ≡ is_blank byte }
{
    matches!(byte, b'\t'..=b'\r' | b' ')
}

/// Whether a document starts after some `-->` in the text.
#[tactic(auto, using(crate::proofs::Occurrences::no_end, crate::proofs::Occurrences::next_end))]
fn ends_before_document(text: &[u8]) -> bool
    ensures { result ≡ ends_before_document text.now }
{
    let mut rest = text;
    'ends: while let Some(following) = after_first(rest, b"-->") {
        if begins_document(skip_blanks(following)) {
            return true;
        }
        rest = following;
    }
    false
}

/// The text after the first `needle`.
pub(crate) fn after_first<'a>(text: &'a [u8], needle: &[u8]) -> Option<&'a [u8]>
    requires { 0 < length needle.now }
    ensures value { MatchOption result (after_word needle.now text.now ≡ None) (λ following. after_word needle.now text.now ≡ Some following.now) }
    ensures leaves { IfSome result (λ following. length following.now < length text.now) }
{
    match memmem::find(text, needle) {
        Some(index) => Some(&text[index + needle.len()..]),
        None => None,
    }
}

/// Whether the bytes begin with the word `<html` or `<!doctype html`.
fn begins_document(text: &[u8]) -> bool
    ensures { result ≡ begins_document text.now }
{
    begins_word(text, b"<html") || begins_doctype(text)
}

/// Whether the bytes begin with `<!doctype`, white space and the word `html`.
fn begins_doctype(text: &[u8]) -> bool
    ensures { result ≡ begins_doctype text.now }
{
    begins_in_any_case(text, b"<!doctype")
        && begins_blank(&text[9..])
        && begins_word(skip_blanks(&text[9..]), b"html")
}

/// Whether the first byte is white space.
fn begins_blank(text: &[u8]) -> bool
    ensures { result ≡ list_any is_blank (take 1 text.now) }
{
    match parts(text) {
        Some((first, _)) => is_blank(first),
        None => false,
    }
}

/// Whether the bytes begin with a word, in any case.
fn begins_word(text: &[u8], word: &[u8]) -> bool
    ensures { result ≡ begins_word word.now text.now }
{
    begins_in_any_case(text, word) && !continues_word(&text[word.len()..])
}

/// Whether the first byte is a letter, a digit or `_`.
fn continues_word(text: &[u8]) -> bool
    ensures { result ≡ list_any in_word (take 1 text.now) }
{
    match parts(text) {
        Some((first, _)) => first.is_ascii_alphanumeric() || first == b'_',
        None => false,
    }
}

/// Whether the bytes begin with `word`, in any case.
pub(crate) fn begins_in_any_case(text: &[u8], word: &[u8]) -> bool
    ensures value { result ≡ begins_in_any_case word.now text.now }
    ensures within { result ≡ true → length word.now ≤ length text.now }
{
    text.len() >= word.len() && text[..word.len()].eq_ignore_ascii_case(word)
}
