//! Texts that fit in one line of a saved web.
ghost use Rattle.std.specs.Prelude.{◌≡◌, ◌≤◌, true};
ghost use Rattle.std.specs.List.{list_all};
ghost use Rattle.document_links.specs.Texts.{fits, is_inner, is_plain};
ghost use Rattle.std.specs.Str.{is_utf8};

use crawl_limits::LINE_LIMIT;

/// The number of bytes before the text in the line of a page or a link.
pub const LINK_FRONT: usize = 5;

/// The greatest length of a link's text, in bytes.
pub(crate) const TEXT_LIMIT: usize = 4091;

/// Whether the text fits in one line after `front` bytes: it is short enough, UTF-8, and has no line end.
pub fn fits(front: usize, text: &[u8]) -> bool
    requires { front ≤ 6 }
    ensures { result ≡ fits front text.now }
{
    front + text.len() <= LINE_LIMIT && is_text(text) && has_no_break(text)
}

/// Whether the bytes are valid UTF-8, as a saved web requires.
pub(crate) fn is_text(text: &[u8]) -> bool
    ensures { result ≡ is_utf8 text.now }
{
    simdutf8::is_utf8(text)
}

/// Whether no byte of the text ends a line.
fn has_no_break(text: &[u8]) -> bool
    ensures { result ≡ list_all is_inner text.now }
{
    text.iter().all(|byte| is_inner(*byte))
}

/// Whether the byte is neither LF nor CR.
fn is_inner(byte: u8) -> bool
    ensures { result ≡ is_inner byte }
{
    !(byte == b'\n' || byte == b'\r')
}

/// Whether the text fits in the line of a link, is ASCII, and has no byte that ends a scheme or that a URL parser drops. Most texts
/// are like this, and are read only once.
#[tactic(auto, using(crate::proofs::Fitting::plain_fits))]
pub(crate) fn fits_plainly(text: &[u8]) -> bool
    ensures fit { result ≡ true → fits 5 text.now ≡ true }
    ensures plain { result ≡ true → list_all is_plain text.now ≡ true }
{
    text.len() <= TEXT_LIMIT && is_plain(text)
}

/// Whether each byte is printable ASCII other than a space or a colon.
fn is_plain(text: &[u8]) -> bool
    ensures { result ≡ list_all is_plain text.now }
{
    text.iter().all(|byte| is_plain_byte(*byte))
}

/// Whether the byte is printable ASCII other than a space or a colon.
fn is_plain_byte(byte: u8) -> bool
    ensures { result ≡ is_plain byte }
{
    b' ' < byte && byte < 0x7f && byte != b':'
}
