//! The documents that a style sheet names, and the style sheets in documents.
ghost use Rattle.std.specs.Prelude.{◌≡◌, ◌≤◌, ◌<◌, ◌∷◌, ◌++◌, [], length, map, false, OnOk, MatchOption, take_while};
ghost use Rattle.html_links.specs.Comments.{bytes_at};
ghost use Rattle.html_links.specs.Shown.{following};
ghost use Rattle.html_links.specs.Styles.{is_wide_space, in_plain, in_word, in_run, continues, after_run, before, run_in, closed, quoted, after_closed, after_quoted, plain, in_brackets, after_url, after_import, opened, past_comment, found_at, after_name, pass_byte, pass, style_lefts_of, style_links_of};
ghost use Rattle.html_links.specs.Positions.{all_at, url_positions};
ghost use Rattle.html_links.specs.Escapes.{unescaped};
ghost use Rattle.html_links.specs.Tags.{lower};
ghost use Rattle.html_links.specs.Seen.{foreign_sheet, raw_sheet, sheet_of};
ghost use Rattle.html_links.specs.Styled.{found_bytes, FoundLeaves};

use crate::bytes::{after_byte, parts, split_quoted};
use crate::context::{Context, is_foreign};
use crate::escapes::{State, is_break, is_escaped, push_unescaped, state_after};
use crate::links::Links;
use crate::raw_text::{after_raw_text, same_name};
use crate::refresh::{after_letter, is_quote};
use std::alloc::{AllocError, Global};

/// A run of bytes in a style sheet.
#[derive(Clone, Copy)]
enum Run {
    /// A name, also one after `@` or `#`.
    Word,
    /// A URL without quotes.
    Plain,
    /// A text in double quotes.
    Double,
    /// A text in single quotes.
    Single,
}

/// A URL in a style sheet as written, the number of bytes from its first byte on, and the bytes after it and its quote.
#[derive(Clone, Copy)]
struct UrlAt<'a> {
    text: &'a [u8],
    left: usize,
    rest: &'a [u8],
}

/// Passes on the texts of `url()` and `@import` in a style sheet or a style, in order, all at this position.
///
/// # Errors
/// If an allocation fails.
#[tactic(auto, using(crate::proofs::Placing::more_mapped, crate::proofs::Placing::last_mapped))]
pub(crate) fn push_urls<L: Links>(
    alloc: Global,
    text: &[u8],
    position: usize,
    links: &mut L,
) -> Result<(), AllocError>
    ensures texts { OnOk result (L.texts links.new ≡ L.texts links.old ++ style_links_of text.now) }
    ensures positions { OnOk result (L.positions links.new ≡ L.positions links.old ++ all_at position (style_links_of text.now)) }
{
    let mut decoded = Vec::new(alloc);
    let mut rest = text;
    'urls: while let Some(url) = next_url(rest) {
        push_url(url.text, position, &mut decoded, links)?;
        rest = url.rest;
    }
    Ok(())
}

/// Passes on a URL at this position, with its escapes decoded. It overwrites `decoded`.
fn push_url<L: Links>(
    url: &[u8],
    position: usize,
    decoded: &mut Vec<u8>,
    links: &mut L,
) -> Result<(), AllocError>
    ensures texts { OnOk result (L.texts links.new ≡ L.texts links.old ++ unescaped url.now ∷ []) }
    ensures positions { OnOk result (L.positions links.new ≡ L.positions links.old ++ position ∷ []) }
{
    decoded.clear();
    push_unescaped(url, decoded)?;
    links.push(position, decoded.as_slice())
}

/// Passes on the texts of `url()` and `@import` in a style sheet, in order, each at the position at which it begins. `end` is the
/// position at which the sheet ends.
///
/// # Errors
/// If an allocation fails.
#[tactic(auto, using(crate::proofs::Placing::more_mapped, crate::proofs::Placing::last_mapped))]
pub fn read_style<L: Links>(
    alloc: Global,
    sheet: &[u8],
    end: usize,
    links: &mut L,
) -> Result<(), AllocError>
    ensures texts { OnOk result (L.texts links.new ≡ L.texts links.old ++ style_links_of sheet.now) }
    ensures positions { OnOk result (L.positions links.new ≡ L.positions links.old ++ url_positions end sheet.now) }
{
    let mut decoded = Vec::new(alloc);
    let mut rest = sheet;
    'urls: while let Some(url) = next_url(rest) {
        push_url(url.text, end.saturating_sub(url.left), &mut decoded, links)?;
        rest = url.rest;
    }
    Ok(())
}

/// The style sheet in an element with this name and context, from the bytes after its start tag. Only a `style` has one.
pub(crate) fn sheet_of<'a>(
    context: Context,
    name: &[u8],
    self_closing: bool,
    bytes: &'a [u8],
) -> &'a [u8]
    ensures { result.now ≡ sheet_of context (map lower name.now) self_closing bytes.now }
{
    if !same_name(name, b"style") {
        return &[];
    }
    if is_foreign(context) {
        foreign_sheet(self_closing, bytes)
    } else {
        raw_sheet(bytes)
    }
}

/// The style sheet in a `style` in foreign content, from the bytes after its start tag, which may close it. It ends at the first
/// `<`.
#[tactic(auto, using(crate::proofs::Styling::no_less))]
fn foreign_sheet(self_closing: bool, bytes: &[u8]) -> &[u8]
    ensures { result.now ≡ foreign_sheet self_closing bytes.now }
{
    if self_closing {
        return &[];
    }
    match split_quoted(b'<', bytes) {
        Some((sheet, _)) => sheet,
        None => bytes,
    }
}

/// The style sheet in a `style` of HTML, from the bytes after its start tag.
fn raw_sheet(bytes: &[u8]) -> &[u8]
    ensures { result.now ≡ raw_sheet bytes.now }
{
    match after_raw_text(b"style", bytes) {
        Some(rest) => {
            let end = bytes.len().saturating_sub(rest.len()).saturating_sub(7);
            &bytes[..end]
        }
        None => bytes,
    }
}

/// The next URL.
fn next_url(bytes: &[u8]) -> Option<UrlAt<'_>>
    ensures texts { MatchOption result (style_links_of bytes.now ≡ []) (λ x. style_links_of bytes.now ≡ unescaped x.text.now ∷ style_links_of x.rest.now) }
    ensures lefts { MatchOption result (style_lefts_of bytes.now ≡ []) (λ x. style_lefts_of bytes.now ≡ x.left ∷ style_lefts_of x.rest.now) }
    ensures leaves { FoundLeaves result bytes.now }
{
    let mut rest = bytes;
    let mut imports = false;
    'places: loop {
        let Some((_, _)) = parts(rest) else {
            return None;
        };
        match found_at(imports, rest) {
            Some(url) => return Some(url),
            None => {
                let (left, more) = pass(imports, rest);
                rest = left;
                imports = more;
            }
        }
    }
}

/// The URL with which the bytes begin. A text in quotes is a URL only if an `@import` is before it.
fn found_at(imports: bool, bytes: &[u8]) -> Option<UrlAt<'_>>
    ensures { found_bytes result ≡ found_at imports bytes.now }
{
    match after_url(bytes) {
        Some(inner) => in_brackets(inner),
        None => { if imports { quoted(bytes) } else { None } }
    }
}

/// The bytes after those at the front that name no URL, and whether an `@import` is before them.
fn pass(imports: bool, bytes: &[u8]) -> (&[u8], bool)
    ensures { (result.0.now, result.1) ≡ pass imports bytes.now }
{
    if let Some(comment) = opened(bytes) {
        return (past_comment(comment), imports);
    }
    if let Some(rest) = after_quoted(bytes) {
        return (rest, false);
    }
    match after_import(bytes) {
        Some(rest) => (rest, true),
        None => pass_byte(imports, bytes),
    }
}

/// The bytes after a name or one other byte, and whether an `@import` is before them. Only white space may be between it and its
/// text.
fn pass_byte(imports: bool, bytes: &[u8]) -> (&[u8], bool)
    ensures { (result.0.now, result.1) ≡ pass_byte imports bytes.now }
{
    match parts(bytes) {
        Some((first, rest)) => (after_name(first, rest), imports && is_wide_space(first)),
        None => (bytes, false),
    }
}

/// The bytes after the name that begins with this byte, from those after the byte, which may begin no name.
fn after_name(first: u8, bytes: &[u8]) -> &[u8]
    ensures { result.now ≡ after_name first bytes.now }
{
    if in_word(first) {
        after_run(Run::Word, state_after(State::Plain, first), bytes)
    } else {
        bytes
    }
}

/// The bytes after a `/*` at the front. `None` if it is not there.
fn opened(bytes: &[u8]) -> Option<&[u8]>
    ensures { bytes_at result ≡ opened bytes.now }
{
    match after_letter(b'/', bytes) {
        Some(rest) => after_letter(b'*', rest),
        None => None,
    }
}

/// The bytes after a comment, from those after its `/*`.
#[tactic(auto, using(crate::proofs::Styling::to_star))]
fn past_comment(text: &[u8]) -> &[u8]
    ensures { result.now ≡ past_comment false text.now }
{
    let mut rest = text;
    'stars: loop {
        let Some((_, starred)) = split_quoted(b'*', rest) else {
            return &[];
        };
        match after_byte(b'/', starred) {
            Some(more) => return more,
            None => rest = starred,
        }
    }
}

/// The bytes after a `url(` at the front, in any case. `None` if it is not there.
fn after_url(bytes: &[u8]) -> Option<&[u8]>
    ensures { bytes_at result ≡ after_url bytes.now }
{
    let Some(u) = after_letter(b'u', bytes) else {
        return None;
    };
    let Some(r) = after_letter(b'r', u) else {
        return None;
    };
    let Some(l) = after_letter(b'l', r) else {
        return None;
    };
    after_letter(b'(', l)
}

/// The bytes after an `@import` at the front, in any case. `None` if it is not there.
fn after_import(bytes: &[u8]) -> Option<&[u8]>
    ensures { bytes_at result ≡ after_import bytes.now }
{
    let Some(at) = after_letter(b'@', bytes) else {
        return None;
    };
    let Some(i) = after_letter(b'i', at) else {
        return None;
    };
    let Some(m) = after_letter(b'm', i) else {
        return None;
    };
    let Some(p) = after_letter(b'p', m) else {
        return None;
    };
    let Some(o) = after_letter(b'o', p) else {
        return None;
    };
    let Some(r) = after_letter(b'r', o) else {
        return None;
    };
    after_letter(b't', r)
}

/// The URL after a `url(`, with or without quotes. A `)` need not follow.
fn in_brackets(bytes: &[u8]) -> Option<UrlAt<'_>>
    ensures { found_bytes result ≡ in_brackets bytes.now }
{
    let inner = skip_wide_space(bytes);
    match quoted(inner) {
        Some(found) => Some(found),
        None => plain(inner),
    }
}

/// The text in quotes at the front.
fn quoted(bytes: &[u8]) -> Option<UrlAt<'_>>
    ensures { found_bytes result ≡ quoted bytes.now }
{
    let Some((first, more)) = parts(bytes) else {
        return None;
    };
    if is_quote(first) {
        closed(first, more)
    } else {
        None
    }
}

/// The text before this quote. The text may also end with the sheet, but not with its line.
fn closed(quote: u8, bytes: &[u8]) -> Option<UrlAt<'_>>
    ensures { found_bytes result ≡ closed quote bytes.now (after_run (run_in quote) State.Plain bytes.now) }
{
    let after = after_run(run_in(quote), State::Plain, bytes);
    let text = before(bytes, after);
    let left = bytes.len();
    match parts(after) {
        Some((last, rest)) => if last == quote {
            Some(UrlAt { text, left, rest })
        } else {
            None
        },
        None => Some(UrlAt {
            text,
            left,
            rest: after,
        }),
    }
}

/// The bytes after a text in quotes at the front, or from the line break at which it is broken off. `None` if no quote is there.
fn after_quoted(bytes: &[u8]) -> Option<&[u8]>
    ensures { bytes_at result ≡ after_quoted bytes.now }
{
    let Some((first, more)) = parts(bytes) else {
        return None;
    };
    if is_quote(first) {
        Some(after_closed(first, after_run(run_in(first), State::Plain, more)))
    } else {
        None
    }
}

/// The bytes after this quote, if it is the first byte.
fn after_closed(quote: u8, bytes: &[u8]) -> &[u8]
    ensures { result.now ≡ after_closed quote bytes.now }
{
    match parts(bytes) {
        Some((first, rest)) => if first == quote { rest } else { bytes },
        None => bytes,
    }
}

/// The run of a text in these quotes.
fn run_in(quote: u8) -> Run
    ensures { result ≡ run_in quote }
{
    if quote == b'"' {
        Run::Double
    } else {
        Run::Single
    }
}

/// The bytes after a run, from those after the bytes of a state.
fn after_run(run: Run, state: State, bytes: &[u8]) -> &[u8]
    ensures rest { result.now ≡ after_run run state bytes.now }
    ensures leaves { length result.now ≤ length bytes.now }
{
    let mut at = state;
    let mut rest = bytes;
    'bytes: loop {
        let Some((first, more)) = parts(rest) else {
            return rest;
        };
        if !continues(run, at, first) {
            return rest;
        }
        at = state_after(at, first);
        rest = more;
    }
}

/// Whether the byte continues a run after the bytes of a state, also as a part of an escape.
fn continues(run: Run, state: State, byte: u8) -> bool
    ensures { result ≡ continues run state byte }
{
    is_escaped(state, byte) || in_run(run, byte)
}

/// The bytes before some that are at the end.
fn before<'a>(bytes: &'a [u8], left: &[u8]) -> &'a [u8]
    requires { length left.now ≤ length bytes.now }
    ensures { result.now ≡ before bytes.now left.now }
{
    &bytes[..bytes.len() - left.len()]
}

/// Whether the byte continues a run.
fn in_run(run: Run, byte: u8) -> bool
    ensures { result ≡ in_run run byte }
{
    match run {
        Run::Word => in_word(byte),
        Run::Plain => in_plain(byte),
        Run::Double => !(byte == b'"' || is_break(byte)),
        Run::Single => !(byte == b'\'' || is_break(byte)),
    }
}

/// Whether the byte may be in a name, or before it as in `@import` and `#fff`.
fn in_word(byte: u8) -> bool
    ensures { result ≡ in_word byte }
{
    byte.is_ascii_alphanumeric()
        || byte == b'-'
        || byte == b'_'
        || byte == b'\\'
        || byte == b'#'
        || byte == b'@'
        || byte >= 128
}

/// A URL without quotes, which has at least one byte.
fn plain(bytes: &[u8]) -> Option<UrlAt<'_>>
    ensures { found_bytes result ≡ plain bytes.now }
{
    let rest = after_run(Run::Plain, State::Plain, bytes);
    let text = before(bytes, rest);
    let left = bytes.len();
    match parts(text) {
        Some(_) => Some(UrlAt { text, left, rest }),
        None => None,
    }
}

/// White space with the vertical tab.
fn is_wide_space(byte: u8) -> bool
    ensures { result ≡ is_wide_space byte }
{
    matches!(byte, b'\t'..=b'\r' | b' ')
}

/// The number of white space bytes at the front, including vertical tabs.
fn wide_len(bytes: &[u8]) -> usize
    ensures { result ≡ length (take_while is_wide_space bytes.now) }
{
    bytes
        .iter()
        .take_while(|byte| is_wide_space(**byte))
        .count()
}

/// The bytes after the white space at the front, including vertical tabs.
#[tactic(auto, using(std::proofs::lemmas::List::take_rest, crate::proofs::Cuts::after_cut))]
fn skip_wide_space(bytes: &[u8]) -> &[u8]
    ensures { result.now ≡ following is_wide_space bytes.now }
{
    &bytes[wide_len(bytes)..]
}

/// Whether the byte continues a URL without quotes. White space, quotes and parentheses end the URL.
fn in_plain(byte: u8) -> bool
    ensures { result ≡ in_plain byte }
{
    !(is_wide_space(byte) || is_quote(byte) || byte == b'(' || byte == b')')
}
